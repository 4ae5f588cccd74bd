//! A link in memory, which fails where it is told to.

ghost use Rattle.std.specs.Prelude.{◌≡◌, ◌<◌, IfOk};
ghost use Rattle.signal_link.specs.Pipes.{AreCuts, after_receive, after_send, counted, cut_of, fails_next, filled_by, got_of, new_pipe, sent_of};

use crate::Memory;
use crate::link::{Got, Link, Sent};
use circular_buffer::HeapCircularBuffer;
use std::alloc::Global;
use std::marker::Model;

/// Bytes on their way through memory.
///
/// The k-th `receive`, from 0, gives at most the cut at k modulo the number of cuts. The calls named, from 0 over both kinds,
/// fail. Only `new` takes memory.
#[derive(Drop)]
pub struct PipeLink {
    way: HeapCircularBuffer<u8>,
    cuts: Vec<u32>,
    fails: Vec<u64>,
    calls: u64,
    receives: u64,
    faults: u64,
}

impl Model for PipeLink {
    ghost use Rattle.std.specs.Prelude.{◌≤◌, ◌<◌, ◌^◌, length};
    ghost use Rattle.signal_link.specs.Pipes.{AreCuts, Pipe};

    ghost Value = { Pipe };

    ghost view = { λ p. record {
      way = p.way.items;
      room = p.way.capacity;
      cuts = p.cuts.items;
      fails = p.fails.items;
      calls = p.calls;
      receives = p.receives;
      faults = p.faults;
    } };

    ghost invariant = { λ p. (0 < p.way.capacity) × (p.way.capacity < 2 ^ 32) × (length p.way.items ≤ p.way.capacity) × AreCuts p.cuts.items };
}

impl PipeLink {
    /// A pipe on which at most `room` bytes are on the way, and none yet. The only error is that there is no memory.
    pub fn new(
        alloc: Global,
        room: u32,
        cuts: Vec<u32>,
        fails: Vec<u64>,
    ) -> Result<PipeLink, Memory>
        requires room { 0 < room }
        requires cuts { AreCuts cuts.items }
        ensures { IfOk result (λ p. p ≡ new_pipe room cuts.items fails.items) }
    {
        Ok(PipeLink {
            way: HeapCircularBuffer::with_capacity(alloc, room as usize)?,
            cuts,
            fails,
            calls: 0,
            receives: 0,
            faults: 0,
        })
    }

    /// Whether the next call fails.
    fn fails_next(&self) -> bool
        ensures fails { result ≡ fails_next self.now }
        ensures room { 0 < self.now.room }
    {
        self.fails.as_slice().contains(&self.calls)
    }

    /// How many bytes the next `receive` gives at most.
    fn cut(&self) -> u32
        ensures cut { result ≡ cut_of self.now }
        ensures some { 0 < result }
    {
        let at = self.receives % self.cuts.len() as u64;
        self.cuts[at as usize]
    }

    /// Counts a call, and a fault if it failed.
    fn count(&mut self, failed: bool)
        ensures { self.new ≡ counted failed self.old }
    {
        self.calls = self.calls.saturating_add(1);
        if failed {
            self.faults = self.faults.saturating_add(1);
        }
    }
}

impl Link for PipeLink {
    ghost use Rattle.signal_link.specs.Pipes.{never_fails};

    ghost way = { λ p. p.way };

    ghost faults = { λ p. p.faults };

    ghost never_fails = { never_fails };

    /// Takes what there is room for, and fails at the calls that were named.
    fn send(&mut self, piece: &[u8]) -> Sent
        ensures answer { result ≡ sent_of self.old piece.now }
        ensures room { 0 < self.old.room }
        ensures next { self.new ≡ after_send self.old piece.now }
    {
        let fails = self.fails_next();
        self.count(fails);
        if fails {
            return Sent::Failed;
        }
        let took = self.way.fill_from_slice(piece);
        Sent::Took(took as u32)
    }

    /// Gives bytes up to the cut whose turn it is, and fails at the calls that were named.
    fn receive(&mut self, room: &mut [u8]) -> Got
        ensures answer { result ≡ got_of self.old room.old }
        ensures cut { 0 < cut_of self.old }
        ensures filled { room.new ≡ filled_by self.old room.old }
        ensures next { self.new ≡ after_receive self.old room.old }
    {
        let fails = self.fails_next();
        let most = room.len().min(self.cut() as usize);
        self.count(fails);
        self.receives = self.receives.saturating_add(1);
        if fails {
            return Got::Failed;
        }
        let gave = self.way.read_into(&mut room[..most]);
        Got::Gave(gave as u32)
    }
}
