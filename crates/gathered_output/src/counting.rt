//! A writer that counts its faults.
//!
//! No clause says when a writer of the system fails. What is read here is that a fault is counted if a write fails or takes nothing
//! of a piece, and nowhere else: then all that stands on this writer fails only if its count rises.

ghost use Rattle.std.specs.Prelude.{◌≡◌, ◌<◌, ◌≤◌, length, take};
ghost use Rattle.std.specs.Io.KnownBytes.{Appends, Keeps};
ghost use Rattle.rte_text.specs.Counts.{Rose};
ghost use Rattle.rte_text.specs.Sinks.{SinkFaultsAfter};

use rte_text::Put;
use std::io::{ErrorKind, Write};
use std::marker::Model;

/// Writes the piece until all of it is written, or a write fails or takes nothing. A write that a signal interrupts is made again.
/// Returns how many bytes were written.
fn written_of<W: Write>(out: &mut W, piece: &[u8]) -> usize
    ensures bound { result ≤ length piece.now }
    ensures written { Appends (W.contents out.old) (W.contents out.new) (take result piece.now) }
{
    let mut written = 0;
    for _ in 0..u64::MAX {
        if written == piece.len() {
            return written;
        }
        match out.write(&piece[written..]) {
            Ok(0) => return written,
            Ok(count) => written += count,
            Err(error) if error.kind() == ErrorKind::Interrupted => {}
            Err(_) => return written,
        }
    }
    written
}

/// A writer with a count of its faults, seen as the bytes that it has, if they are known, and the count. The count stands at its
/// last value, 2^64 - 1.
#[derive(Drop)]
pub struct CountedWriter<W: Write + Drop> {
    out: W,
    faults: u64,
}

impl<W: Write + Drop> Model for CountedWriter<W> {
    ghost use Rattle.gathered_output.specs.Gathered.{Counted};

    ghost Value = { Counted };

    ghost view = { λ s. record { contents = W.contents s.out; faults = s.faults } };
}

impl<W: Write + Drop> CountedWriter<W> {
    /// The writer, with its count at 0.
    pub fn new(out: W) -> CountedWriter<W>
        ensures contents { result.contents ≡ W.contents out }
        ensures faults { result.faults ≡ 0 }
    {
        CountedWriter { out, faults: 0 }
    }

    /// Writes as many bytes of the piece as the writer takes, and returns how many these are. If they are not all, there was a
    /// fault. The writer has the first bytes of the piece, as many as were written, each once. Its count rises exactly if these
    /// are not all.
    pub fn write(&mut self, piece: &[u8]) -> usize
        ensures bound { result ≤ length piece.now }
        ensures written { Appends self.old.contents self.new.contents (take result piece.now) }
        ensures faults_never_fall { self.old.faults ≤ self.new.faults }
        ensures whole { result ≡ length piece.now → self.new.faults ≡ self.old.faults }
        ensures fault { result < length piece.now → Rose self.old.faults self.new.faults }
    {
        let written = written_of(&mut self.out, piece);
        if written < piece.len() {
            self.faults = self.faults.saturating_add(1);
        }
        written
    }

    /// Hands on what the writer itself has gathered. It fails if there was a fault. Then its count rises.
    pub fn flush(&mut self) -> Put
        ensures contents { Keeps self.old.contents self.new.contents }
        ensures faults_never_fall { self.old.faults ≤ self.new.faults }
        ensures faults { SinkFaultsAfter result self.old.faults self.new.faults }
    {
        match self.out.flush() {
            Ok(()) => Put::Done,
            Err(_) => {
                self.faults = self.faults.saturating_add(1);
                Put::Failed
            }
        }
    }
}
