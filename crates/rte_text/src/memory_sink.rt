//! A sink in memory, which fails where it is told to.

ghost use Rattle.std.specs.Prelude.{◌≡◌, ◌+◌, ◌≤◌, [], ◌++◌, length, IfOk};
ghost use Rattle.rte_text.specs.MemorySinks.{next_stop, room_left, taken_of, put_answer, sink_faults, put_next};
ghost use Rattle.rte_text.specs.Counts.{raised};

use crate::{Memory, Put, Sink};
use std::alloc::Global;
use std::marker::Model;

/// Bytes in memory, and the calls that fail: each by its number, counted from 0, and the number of
/// bytes that it takes before.
///
/// Of two numbers named for one call the first holds. A call also fails if its piece does not
/// fit in the room, after it took what fits.
#[derive(Debug, Drop)]
pub struct MemorySink {
    held: Vec<u8>,
    room: usize,
    fails: Vec<(u64, u64)>,
    calls: u64,
    faults: u64,
}

impl Model for MemorySink {
    ghost use Rattle.std.specs.Prelude.{◌≤◌, vec_len, vec_capacity};
    ghost use Rattle.rte_text.specs.MemorySinks.{HeldBytes};

    ghost Value = { HeldBytes };

    ghost view = { λ s. record {
      told = s.held.items;
      room = s.room;
      fails = s.fails.items;
      calls = s.calls;
      faults = s.faults;
    } };

    ghost invariant = { λ s. (vec_len s.held ≤ s.room) × (s.room ≤ vec_capacity s.held) };
}

impl MemorySink {
    /// A sink with room for this many bytes, no call of which was made yet. The calls named will
    /// fail. The only error is that there is no memory for the room.
    pub fn new(alloc: Global, room: u64, fails: Vec<(u64, u64)>) -> Result<MemorySink, Memory>
        ensures told { IfOk result (λ sink. sink.told ≡ []) }
        ensures room { IfOk result (λ sink. sink.room ≡ room) }
        ensures fails { IfOk result (λ sink. sink.fails ≡ fails.items) }
        ensures calls { IfOk result (λ sink. sink.calls ≡ 0) }
        ensures faults { IfOk result (λ sink. sink.faults ≡ 0) }
    {
        let room = room as usize;
        Ok(MemorySink {
            held: Vec::with_capacity(alloc, room)?,
            room,
            fails,
            calls: 0,
            faults: 0,
        })
    }

    /// The bytes taken so far.
    pub fn told(&self) -> &[u8]
        ensures { result.now ≡ self.now.told }
    {
        self.held.as_slice()
    }

    /// How many bytes the next call takes at most, if it is one that fails.
    fn next_stop(&self) -> Option<u64>
        ensures { result ≡ next_stop self.now }
    {
        self.fails
            .iter()
            .find(|fail| fail.0 == self.calls)
            .map(|fail| fail.1)
    }

    /// How many bytes there is room for yet.
    fn room_left(&self) -> usize
        ensures left { result ≡ room_left self.now }
        ensures room { length self.now.told + result ≡ self.now.room }
    {
        self.room - self.held.len()
    }

    /// How many bytes of the piece the next call takes.
    fn taken_of(&self, piece: &[u8]) -> usize
        ensures taken { result ≡ taken_of self.now piece.now }
        ensures piece { result ≤ length piece.now }
        ensures room { length self.now.told + result ≤ self.now.room }
    {
        let fitting = piece.len().min(self.room_left());
        match self.next_stop() {
            Some(stop) => fitting.min(stop as usize),
            None => fitting,
        }
    }

    /// The answer to the next call.
    fn put_answer(&self, piece: &[u8]) -> Put
        ensures { result ≡ put_answer self.now piece.now }
    {
        if self.next_stop().is_none() && piece.len() <= self.room_left() {
            Put::Done
        } else {
            Put::Failed
        }
    }

    /// Appends these bytes, for which there is room.
    fn append(&mut self, bytes: &[u8])
        requires { length self.old.told + length bytes.now ≤ self.old.room }
        ensures { self.new ≡ record self.old { told = self.old.told ++ bytes.now } }
    {
        let _ = self.held.extend_from_slice(bytes);
    }

    /// Counts a call with this answer.
    fn count(&mut self, answer: Put)
        ensures { self.new ≡ record self.old { calls = raised self.old.calls; faults = sink_faults self.old answer } }
    {
        self.calls = self.calls.saturating_add(1);
        if let Put::Failed = answer {
            self.faults = self.faults.saturating_add(1);
        }
    }
}

impl Sink for MemorySink {
    ghost use Rattle.std.specs.Prelude.{Some};

    ghost told = { λ s. Some s.told };

    ghost faults = { λ s. s.faults };

    fn put(&mut self, piece: &[u8]) -> Put
        ensures answer { result ≡ put_answer self.old piece.now }
        ensures next { self.new ≡ put_next self.old piece.now }
    {
        let answer = self.put_answer(piece);
        let taken = self.taken_of(piece);
        self.append(&piece[..taken]);
        self.count(answer);
        answer
    }
}
