//! What an answer of the bus says.

ghost use Rattle.std.specs.Prelude.{◌≡◌};
ghost use Rattle.bus_semantics.specs.State.{code_in, words_in, number_in};

use crate::entries::Deed;
use rte_value::{Code, Word};

/// The status in an answer, and 0 if it has none.
pub fn code_of(answer: &Deed) -> Code
    ensures { result ≡ code_in answer.now }
{
    match answer {
        Deed::Read { code, .. }
        | Deed::Send { code, .. }
        | Deed::Receive { code, .. }
        | Deed::Ask { code, .. }
        | Deed::Answer { code, .. }
        | Deed::TakeResult { code, .. }
        | Deed::Switch { code, .. } => *code,
        _ => 0,
    }
}

/// The words that an answer gives, and none if it gives no value.
pub fn words_of_answer(answer: &Deed) -> &[Word]
    ensures { result.now ≡ words_in answer.now }
{
    match answer {
        Deed::Fetch { value, .. }
        | Deed::FetchAll { value, .. }
        | Deed::Read { value, .. }
        | Deed::Receive { value, .. }
        | Deed::Answer { value, .. }
        | Deed::TakeResult { value, .. } => value.words(),
        _ => &[],
    }
}

/// The number in an answer: of a mode, or 1 if there was an update. 0 if it has none.
pub fn number_of(answer: &Deed) -> u32
    ensures { result ≡ number_in answer.now }
{
    match answer {
        Deed::IsUpdated { yes, .. } => *yes as u32,
        Deed::Mode { mode, .. } => *mode,
        _ => 0,
    }
}
