//! Entries with a value, filled in where they are to lie. A value of one word is made anew there, for less than it takes to copy the
//! room of 16 words.

ghost use Rattle.std.specs.Prelude.{◌≡◌};
ghost use Rattle.bus_semantics.specs.declared.entries.Deed.TheVariants as deeds;

use bus_semantics::{Actor, Deed, Entry};
use object_kinds::only_word;
use rte_value::{Code, Value};

/// The entry of a write.
pub(crate) fn fill_write(who: &Actor, elem: u32, value: &Value, out: &mut Entry)
    ensures actor { out.new.actor ≡ who.now }
    ensures deed { out.new.deed ≡ deeds.Write elem value.now }
{
    match only_word(value) {
        Some(word) => {
            *out = Entry {
                actor: *who,
                deed: Deed::Write {
                    elem,
                    value: Value::of_word(word),
                },
            };
        }
        None => {
            *out = Entry {
                actor: *who,
                deed: Deed::Write {
                    elem,
                    value: *value,
                },
            };
        }
    }
}

/// The entry of a read.
pub(crate) fn fill_read(who: &Actor, elem: u32, code: Code, value: &Value, out: &mut Entry)
    ensures actor { out.new.actor ≡ who.now }
    ensures deed { out.new.deed ≡ deeds.Read elem code value.now }
{
    match only_word(value) {
        Some(word) => {
            *out = Entry {
                actor: *who,
                deed: Deed::Read {
                    elem,
                    code,
                    value: Value::of_word(word),
                },
            };
        }
        None => {
            *out = Entry {
                actor: *who,
                deed: Deed::Read {
                    elem,
                    code,
                    value: *value,
                },
            };
        }
    }
}
