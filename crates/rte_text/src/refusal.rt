//! Why a description is refused.

ghost use Rattle.std.specs.Prelude.{◌≡◌};
ghost use Rattle.rte_text.specs.declared.refusal.Refused.TheVariants.{Memory};

use crate::Text;
use std::alloc::AllocError;
use std::fmt;
use thiserror::Error;

/// The least rule that a description breaks, with its first place: a JSON pointer, `/` for the whole.
#[derive(Debug, Drop, PartialEq, Eq)]
pub struct Refusal {
    pub rule: u16,
    pub place: Text,
}

/// Why a description was not read: it breaks a rule, or memory ran out.
#[derive(Debug, Drop, PartialEq, Eq, Error)]
pub enum Refused {
    #[error("refused rule {}", .0.rule)]
    Rule(Refusal),
    #[error("out of memory")]
    Memory,
}

impl From<AllocError> for Refused {
    ghost from_gives = { λ _ e. e ≡ Memory };

    fn from(_e: AllocError) -> Refused {
        Refused::Memory
    }
}
