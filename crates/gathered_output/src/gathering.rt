//! Output that is gathered before it is written.
//!
//! This is the edge to the system: what the system takes is known to no clause, so as a sink it tells no bytes. Of a writer whose bytes
//! are known the clauses say that it has what the sink took, each byte once and in order.

ghost use Rattle.std.specs.Prelude.{◌≡◌, ◌+◌, ◌<◌, ◌≤◌, [], length, IfOk, vec_capacity};
ghost use Rattle.std.specs.Io.KnownBytes.{append_known, Keeps};
ghost use Rattle.rte_text.specs.Sinks.{SinkFaultsAfter, TakesPiece};
ghost use Rattle.rte_text.specs.declared.sink.Put.TheVariants.{Done};
ghost use Rattle.gathered_output.specs.Gathered.{taken};

use crate::counting::CountedWriter;
use rte_text::{Put, Sink};
use std::alloc::{AllocError, Global};
use std::io::Write;
use std::marker::Model;

/// How many bytes are gathered at most: 64 KiB.
const ROOM: usize = 65_536;

/// Writes the bytes of the room. What could not be written stays in it.
fn empty<W: Write + Drop>(out: &mut CountedWriter<W>, room: &mut Vec<u8>) -> Put
    ensures done { result ≡ Done → room.new.items ≡ [] }
    ensures taken { Keeps (append_known out.old.contents room.old.items) (append_known out.new.contents room.new.items) }
    ensures faults_never_fall { out.old.faults ≤ out.new.faults }
    ensures faults { SinkFaultsAfter result out.old.faults out.new.faults }
    ensures shrinks { length room.new.items ≤ length room.old.items }
    ensures capacity { vec_capacity room.new ≡ vec_capacity room.old }
{
    let written = out.write(room.as_slice());
    let is_whole = written == room.len();
    if is_whole {
        // A drain goes through each byte.
        room.clear();
        return Put::Done;
    }
    room.drain(..written);
    Put::Failed
}

/// Where output goes by a writer, seen as what the writer has, what was taken and is left to be written, and the writer's count of
/// faults. A put that is answered Done took the piece into the room of this sink; it is written when the room is full, and at the latest
/// by `finish`.
#[derive(Drop)]
pub struct GatheringSink<W: Write + Drop> {
    out: CountedWriter<W>,
    room: Vec<u8>,
}

impl<W: Write + Drop> Model for GatheringSink<W> {
    ghost use Rattle.std.specs.Prelude.{◌≤◌, vec_len, vec_capacity};
    ghost use Rattle.gathered_output.specs.declared.gathering.TheConstants.{ROOM};
    ghost use Rattle.gathered_output.specs.Gathered.{Gathered};

    ghost Value = { Gathered };

    ghost view = { λ s. record { written = s.out.contents; left = s.room.items; faults = s.out.faults } };

    ghost invariant = { λ s. (vec_len s.room ≤ ROOM) × (ROOM ≤ vec_capacity s.room) };
}

impl<W: Write + Drop> GatheringSink<W> {
    /// A sink with an empty room, and with its count at 0. The only error is that there is no memory for the room.
    pub fn new(alloc: Global, out: W) -> Result<GatheringSink<W>, AllocError>
        ensures written { IfOk result (λ s. s.written ≡ W.contents out) }
        ensures left { IfOk result (λ s. s.left ≡ []) }
        ensures faults { IfOk result (λ s. s.faults ≡ 0) }
    {
        let room = Vec::with_capacity(alloc, ROOM)?;
        Ok(GatheringSink {
            out: CountedWriter::new(out),
            room,
        })
    }

    /// Takes a piece behind what is left. It is written at once if the room is too small for it.
    fn take(&mut self, piece: &[u8]) -> Put
        requires { ROOM < length self.old.left + length piece.now → self.old.left ≡ [] }
        ensures taken { TakesPiece result (taken self.old) (taken self.new) piece.now }
        ensures faults_never_fall { self.old.faults ≤ self.new.faults }
        ensures faults { SinkFaultsAfter result self.old.faults self.new.faults }
    {
        if piece.len() <= ROOM - self.room.len() {
            let _ = self.room.extend_from_slice(piece);
            return Put::Done;
        }
        let written = self.out.write(piece);
        if written == piece.len() {
            Put::Done
        } else {
            Put::Failed
        }
    }

    /// Writes all that was taken. It fails if the writer had a fault; what was not written then is left. In both cases all that
    /// was taken is kept, and what the writer has is a prefix of it.
    pub fn finish(&mut self) -> Put
        ensures whole { result ≡ Done → self.new.left ≡ [] }
        ensures taken { Keeps (taken self.old) (taken self.new) }
        ensures faults_never_fall { self.old.faults ≤ self.new.faults }
        ensures faults { SinkFaultsAfter result self.old.faults self.new.faults }
    {
        match empty(&mut self.out, &mut self.room) {
            Put::Done => self.out.flush(),
            Put::Failed => Put::Failed,
        }
    }
}

impl<W: Write + Drop> Sink for GatheringSink<W> {
    ghost use Rattle.std.specs.Prelude.{None};
    ghost use Rattle.rte_text.specs.Sinks.{ToldAfter};

    ghost told = { λ _. None };

    ghost faults = { λ s. s.faults };

    /// `Done`: the whole piece was taken, behind all before it. `Failed`: a prefix of it was, once, and then the writer had a
    /// fault.
    fn put(&mut self, piece: &[u8]) -> Put
        ensures faults_never_fall { self.old.faults ≤ self.new.faults }
        ensures faults { SinkFaultsAfter result self.old.faults self.new.faults }
        ensures told { ToldAfter result None None piece.now }
        ensures taken { TakesPiece result (taken self.old) (taken self.new) piece.now }
    {
        if piece.len() > ROOM - self.room.len() {
            if let Put::Failed = empty(&mut self.out, &mut self.room) {
                return Put::Failed;
            }
        }
        self.take(piece)
    }
}
