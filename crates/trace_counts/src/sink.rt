//! A sink that counts.

ghost use Rattle.std.specs.Prelude.{◌≡◌};
ghost use Rattle.trace_counts.specs.Tallies.{tally_of};

use crate::numbers::Numbers;
use crate::tally::Tally;
use crate::told::Told;
use rte_text::{Put, Sink};

/// A sink that counts what a trace tells, and keeps nothing else of it. It never fails and takes no memory.
#[derive(Drop)]
pub struct CountingSink {
    /// The bytes that it took, in proofs alone.
    pub told: Told,
    tally: Tally,
    ghost counted: { tally ≡ tally_of told.bytes },
}

impl CountingSink {
    ghost use Rattle.std.specs.Prelude.{[]};
    ghost use Rattle.trace_counts.specs.Tallies.{numbers_in};

    /// A sink that took nothing yet. It never fails.
    pub fn new() -> CountingSink
        ensures { result.told.bytes ≡ [] }
    {
        CountingSink {
            told: Told::new(),
            tally: Tally::new(),
        }
    }

    /// The numbers of the text that it took.
    pub fn numbers(&self) -> Numbers
        ensures { result ≡ numbers_in self.now.told.bytes }
    {
        self.tally.numbers
    }
}

impl Sink for CountingSink {
    ghost use Rattle.std.specs.Prelude.{Some};

    ghost told = { λ s. Some s.told.bytes };

    ghost faults = { λ _. 0 };

    fn put(&mut self, piece: &[u8]) -> Put {
        self.tally.take(piece);
        self.told.note(piece);
        Put::Done
    }
}
