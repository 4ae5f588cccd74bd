//! Entries with a value, filled in where they are to lie. A value of one word is made anew there, for less than it takes to copy the
//! room of 16 words.

ghost use Rattle.std.specs.Prelude.{◌≡◌};
ghost use Rattle.bus_semantics.specs.declared.entries.Deed.TheVariants as deeds;

use bus_semantics::{Actor, Deed, Entry};
use object_kinds::only_word;
use rte_value::{Code, Value};

/// The entry of a send.
pub(crate) fn fill_send(who: &Actor, elem: u32, value: &Value, code: Code, out: &mut Entry)
    ensures actor { out.new.actor ≡ who.now }
    ensures deed { out.new.deed ≡ deeds.Send elem value.now code }
{
    match only_word(value) {
        Some(word) => {
            *out = Entry {
                actor: *who,
                deed: Deed::Send {
                    elem,
                    value: Value::of_word(word),
                    code,
                },
            };
        }
        None => {
            *out = Entry {
                actor: *who,
                deed: Deed::Send {
                    elem,
                    value: *value,
                    code,
                },
            };
        }
    }
}

/// The entry of a receive.
pub(crate) fn fill_receive(who: &Actor, elem: u32, code: Code, value: &Value, out: &mut Entry)
    ensures actor { out.new.actor ≡ who.now }
    ensures deed { out.new.deed ≡ deeds.Receive elem code value.now }
{
    match only_word(value) {
        Some(word) => {
            *out = Entry {
                actor: *who,
                deed: Deed::Receive {
                    elem,
                    code,
                    value: Value::of_word(word),
                },
            };
        }
        None => {
            *out = Entry {
                actor: *who,
                deed: Deed::Receive {
                    elem,
                    code,
                    value: *value,
                },
            };
        }
    }
}
