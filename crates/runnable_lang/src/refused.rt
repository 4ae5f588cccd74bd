//! Why a program is refused.

ghost use Rattle.std.specs.Prelude.{◌≡◌};
ghost use Rattle.runnable_lang.specs.declared.refused.ProgramRefused.TheVariants.{Memory};

use rte_text::Seq;
use std::alloc::AllocError;

/// Why a program was not accepted: it breaks a rule, or memory ran out.
#[derive(Debug, Drop, PartialEq, Eq)]
pub enum ProgramRefused {
    /// The least rule that is broken, 17 to 20, and the path to the first statement that breaks it.
    Broken {
        /// 17: a statement lacks its access, or gives or takes another number of words, or switches
        /// to a mode that the group does not have. 18: the program costs more than 100,000 or has
        /// more than 256 variables. 19: an area stands inside one that was declared after it. 20: a
        /// call stands inside an area.
        rule: u16,
        /// The position of the statement in its body, counted from 0. If the body is that of
        /// another statement, the path of that statement stands before it, and then the position of
        /// the body as it is written: 2 and 3 in an `if`, 2 in a `repeat` and in an area. The path of
        /// the whole program is empty.
        path: Seq<usize>,
    },
    /// There was no memory for the path.
    Memory,
}

impl From<AllocError> for ProgramRefused {
    ghost from_gives = { λ _ e. e ≡ Memory };

    fn from(_e: AllocError) -> ProgramRefused {
        ProgramRefused::Memory
    }
}
