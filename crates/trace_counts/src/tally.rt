//! The numbers of a text, byte by byte.

ghost use Rattle.std.specs.Prelude.{◌≡◌};

use crate::begun::BegunLine;
use crate::numbers::Numbers;

/// The numbers of the lines that have ended, and the line that has not.
#[derive(Drop)]
pub(crate) struct Tally {
    line: BegunLine,
    pub numbers: Numbers,
}

impl Tally {
    ghost use Rattle.trace_counts.specs.Tallies.{after, nothing_told, stepped};

    /// The tally of an empty text.
    pub(crate) fn new() -> Tally
        ensures { result ≡ nothing_told }
    {
        Tally {
            line: BegunLine::new(),
            numbers: Numbers::none(),
        }
    }

    /// Takes a byte.
    fn step(&mut self, byte: u8)
        ensures { self.new ≡ stepped self.old byte }
    {
        match byte {
            b'\n' => {
                let mark = self.line.end();
                self.numbers.count(mark);
            }
            b' ' => self.line.close(),
            _ => self.line.push(byte),
        }
    }

    /// Takes all bytes of a piece.
    pub(crate) fn take(&mut self, piece: &[u8])
        ensures { self.new ≡ after self.old piece.now }
    {
        for byte in piece {
            self.step(*byte);
        }
    }
}
