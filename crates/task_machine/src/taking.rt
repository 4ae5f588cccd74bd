//! What a body takes of an answer.

ghost use Rattle.std.specs.Prelude.{◌≡◌};
ghost use Rattle.bus_semantics.specs.Common.{words_of, words_in, is_over};
ghost use Rattle.task_machine.specs.Instructions.{change_of, passes_of};
ghost use Rattle.task_machine.specs.Listed.{with_parts};
ghost use Rattle.task_machine.specs.Spots.{store_of, room_of};

use crate::instr::{SlotPart, Taken};
use crate::store::Store;
use bus_semantics::{Deed, code_of, number_of, words_of_answer};
use rte_value::{Value, Word};

/// Whether an activation is over with this deed: its End, or an admission that was refused.
pub fn is_over(answer: &Deed) -> bool
    ensures { result ≡ is_over answer.now }
{
    match answer {
        Deed::End => true,
        Deed::Admit { yes } => !*yes,
        _ => false,
    }
}

/// The value in an answer, copied whole, and the empty one if it gives none.
#[inline(always)]
fn copied_value_of_answer(answer: &Deed) -> Value
    ensures { words_of result ≡ words_in answer.now }
{
    match answer {
        Deed::Fetch { value, .. }
        | Deed::FetchAll { value, .. }
        | Deed::Read { value, .. }
        | Deed::Receive { value, .. }
        | Deed::Answer { value, .. }
        | Deed::TakeResult { value, .. } => *value,
        _ => Value::empty(),
    }
}

/// The value in an answer, and the empty one if it gives none. A value of no word or of one is made anew. So the room of 16
/// words is copied for the others alone. It is written into what takes an answer: the answer's address would leave its caller else,
/// and each answer would be written out whole.
#[inline(always)]
fn value_of_answer(answer: &Deed) -> Value
    ensures { words_of result ≡ words_in answer.now }
{
    match words_of_answer(answer) {
        [] => Value::empty(),
        [only] => Value::of_word(*only),
        _ => copied_value_of_answer(answer),
    }
}

/// The slots take what was fetched together.
#[inline(always)]
fn take_together(parts: &[SlotPart], answer: &Deed, store: &mut Store)
    ensures store { store_of store.new ≡ with_parts parts.now (words_in answer.now) (store_of store.old) }
    ensures room { room_of store.new ≡ room_of store.old }
{
    let value = value_of_answer(answer);
    store.fetch_together(parts, &value);
}

impl Taken {
    /// The store takes what is taken of the answer.
    pub fn take(&self, answer: &Deed, store: &mut Store)
        ensures store { store_of store.new ≡ change_of self.now answer.now (store_of store.old) }
        ensures room { room_of store.new ≡ room_of store.old }
    {
        match self {
            Taken::Nothing => {}
            Taken::Zero(status) => store.put(*status, 0),
            Taken::Code(status) => store.put(*status, code_of(answer) as Word),
            Taken::Number(var) => store.put(*var, number_of(answer) as Word),
            Taken::Value(numbers) => store.put_all(numbers.items(), words_of_answer(answer)),
            Taken::Words(numbers, status) => {
                store.put_all(numbers.items(), words_of_answer(answer));
                store.put(*status, code_of(answer) as Word);
            }
            Taken::Refusal(status) => {
                let code = code_of(answer);
                if code != 0 {
                    store.put(*status, code as Word);
                }
            }
            Taken::Slot(slot) => store.fetch(*slot, value_of_answer(answer)),
            Taken::Slots(parts) => take_together(parts.items(), answer, store),
        }
    }

    /// How many instructions the answer passes over.
    pub fn passes(&self, answer: &Deed) -> usize
        ensures count { result ≡ passes_of self.now answer.now }
    {
        match self {
            Taken::Refusal(_) => (code_of(answer) != 0) as usize,
            _ => 0,
        }
    }
}
