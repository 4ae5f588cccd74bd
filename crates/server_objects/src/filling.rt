//! Values that are given on to where they are to lie. One of one word is made anew there, for less than it takes to copy the room of 16.

ghost use Rattle.std.specs.Prelude.{◌≡◌, Some};
ghost use Rattle.bus_semantics.specs.declared.entries.Deed.TheVariants as deeds;

use bus_semantics::{Actor, Deed, Entry};
use client_server::Outcome;
use object_kinds::only_word;
use rte_value::{Code, Value};

/// The entry of an ask.
pub(crate) fn fill_ask(who: &Actor, point: u32, value: &Value, code: Code, out: &mut Entry)
    ensures actor { out.new.actor ≡ who.now }
    ensures deed { out.new.deed ≡ deeds.Ask point value.now code }
{
    match only_word(value) {
        Some(word) => {
            *out = Entry {
                actor: *who,
                deed: Deed::Ask {
                    point,
                    value: Value::of_word(word),
                    code,
                },
            };
        }
        None => {
            *out = Entry {
                actor: *who,
                deed: Deed::Ask {
                    point,
                    value: *value,
                    code,
                },
            };
        }
    }
}

/// The entry of an answer.
pub(crate) fn fill_answer(who: &Actor, point: u32, outcome: &Outcome, out: &mut Entry)
    ensures actor { out.new.actor ≡ who.now }
    ensures deed { out.new.deed ≡ deeds.Answer point outcome.now.code outcome.now.value }
{
    match only_word(&outcome.value) {
        Some(word) => {
            *out = Entry {
                actor: *who,
                deed: Deed::Answer {
                    point,
                    code: outcome.code,
                    value: Value::of_word(word),
                },
            };
        }
        None => {
            *out = Entry {
                actor: *who,
                deed: Deed::Answer {
                    point,
                    code: outcome.code,
                    value: outcome.value,
                },
            };
        }
    }
}

/// The entry of a return.
pub(crate) fn fill_return(who: &Actor, code: Code, value: &Value, out: &mut Entry)
    ensures actor { out.new.actor ≡ who.now }
    ensures deed { out.new.deed ≡ deeds.Return code value.now }
{
    match only_word(value) {
        Some(word) => {
            *out = Entry {
                actor: *who,
                deed: Deed::Return {
                    code,
                    value: Value::of_word(word),
                },
            };
        }
        None => {
            *out = Entry {
                actor: *who,
                deed: Deed::Return {
                    code,
                    value: *value,
                },
            };
        }
    }
}

/// The start of a server by a request at a point.
pub(crate) fn fill_served_start(event: u32, point: u32, value: &Value, out: &mut Deed)
    ensures { out.new ≡ deeds.Start event (Some point) value.now }
{
    match only_word(value) {
        Some(word) => {
            *out = Deed::Start {
                event,
                point: Some(point),
                value: Value::of_word(word),
            };
        }
        None => {
            *out = Deed::Start {
                event,
                point: Some(point),
                value: *value,
            };
        }
    }
}
