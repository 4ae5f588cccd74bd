//! Where output goes.

/// What a sink answers to a put.
#[derive(Clone, Copy, Debug, PartialEq, Eq)]
pub enum Put {
    /// The sink took the whole piece.
    Done,
    /// The sink failed after it took a prefix of the piece, which may be empty or all of it.
    Failed,
}

/// Where output goes: standard output, or memory.
///
/// A sink counts its faults; the count stands at its last value, 2^64 - 1. A sink may tell the bytes
/// that it took.
pub trait Sink {
    ghost use Rattle.std.specs.Prelude.{ℕ, ◌≤◌, List, Option};
    ghost use Rattle.rte_text.specs.Sinks.{ToldAfter, SinkFaultsAfter};

    ghost told: { Self → Option (List ℕ) };

    ghost faults: { Self → ℕ };

    /// Takes the piece after all that came before. It fails if not all of the piece could be taken. `Done`: the whole piece was
    /// appended, and the count of faults is as it was. `Failed`: a prefix of it was, and the count rose.
    fn put(&mut self, piece: &[u8]) -> Put
        ensures faults_never_fall { faults self.old ≤ faults self.new }
        ensures faults { SinkFaultsAfter result (faults self.old) (faults self.new) }
        ensures told { ToldAfter result (told self.old) (told self.new) piece.now };
}
