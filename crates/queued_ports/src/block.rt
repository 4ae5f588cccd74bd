//! One block.

ghost use Rattle.std.specs.Prelude.{◌≡◌};

use std::marker::Model;

/// A block that was taken from a pool. It is moved and never copied, so whoever has it is the only one who does. It is
/// seen as its number in the pool.
#[derive(Drop)]
pub struct Block {
    at: u32,
}

impl Model for Block {
    ghost use Rattle.std.specs.Prelude.{ℕ};

    ghost Value = { ℕ };

    ghost view = { λ b. b.at };
}

impl Block {
    /// The block of this number.
    pub(crate) fn numbered(at: u32) -> Block
        ensures { result ≡ at }
    {
        Block { at }
    }

    /// Its number.
    pub(crate) fn number(&self) -> u32
        ensures { result ≡ self.now }
    {
        self.at
    }
}
