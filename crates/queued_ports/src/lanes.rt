//! A queue for each receiver, in rings and blocks.

ghost use Rattle.std.specs.Prelude.{◌≡◌, ◌≢◌, ◌<◌, ◌^◌, IfOk, Some, length, map, set, slice_get, sum};
ghost use Rattle.rte_value.specs.Values.{words_of};
ghost use Rattle.queued_ports.specs.Laid.{empty_lane};
ghost use Rattle.queued_ports.specs.Kept.{Queue, after_arrival, after_taking, empty_queue, received_of, takes};

use crate::Memory;
use crate::payload::Payload;
use crate::pool::Pool;
use crate::received::{LOST_DATA, NO_DATA, OK, Received};
use circular_buffer::HeapCircularBuffer;
use rte_value::Value;
use std::alloc::Global;
use std::marker::Model;

/// The queue of a receiver.
#[derive(Drop)]
pub(crate) struct Lane {
    ring: HeapCircularBuffer<Payload>,
    lost: bool,
}

/// The queues of the receivers, in order. Values of one word lie in the rings, and longer ones in blocks, of which there are as
/// many as the rings have places. They are seen as the number of words and the queues.
#[derive(Drop)]
pub(crate) struct Lanes {
    words: u8,
    lanes: Vec<Lane>,
    pool: Pool,
}

impl Model for Lanes {
    ghost use Rattle.std.specs.Prelude.{map};
    ghost use Rattle.queued_ports.specs.Laid.{AreLaid, Stored, queue_of};

    ghost Value = { Stored };

    ghost view = { λ l. record { words = l.words; queues = map (queue_of l.pool.values) l.lanes.items } };

    ghost invariant = { λ l. AreLaid l.words l.pool l.lanes.items };
}

/// An empty queue of each of these lengths.
fn empty_lanes(alloc: Global, lengths: &[u32]) -> Result<Vec<Lane>, Memory>
    ensures { IfOk result (λ lanes. lanes.items ≡ map empty_lane lengths.now) }
{
    let mut lanes = Vec::new(alloc);
    for length in lengths {
        let ring = HeapCircularBuffer::with_capacity(alloc, *length as usize)?;
        lanes.push(Lane { ring, lost: false })?;
    }
    Ok(lanes)
}

/// How many blocks are needed: none for values of one word, which lie in the rings.
fn block_count(lengths: &[u32], words: u8) -> u32
    requires { sum lengths.now < 2 ^ 32 }
    ensures { words ≢ 1 → result ≡ sum lengths.now }
{
    if words == 1 { 0 } else { lengths.iter().sum() }
}

impl Lanes {
    /// Empty queues of these lengths, for values of this many words. The only error is that there is no memory.
    pub fn new(alloc: Global, lengths: &[u32], words: u8) -> Result<Lanes, Memory>
        requires { sum lengths.now < 2 ^ 32 }
        ensures { IfOk result (λ l. l ≡ record { words = words; queues = map empty_queue lengths.now }) }
    {
        let lanes = empty_lanes(alloc, lengths)?;
        let pool = Pool::new(alloc, block_count(lengths, words))?;
        Ok(Lanes { words, lanes, pool })
    }

    /// How many queues there are.
    pub fn len(&self) -> usize
        ensures { result ≡ length self.now.queues }
    {
        self.lanes.len()
    }

    /// A value arrives at a queue, behind those that are there. False if the queue is full; then the value is discarded.
    pub fn arrive(&mut self, receiver: usize, value: &Value) -> bool
        requires within { receiver < length self.old.queues }
        requires fits { length (words_of value.now) ≡ self.old.words }
        ensures answer { result ≡ takes self.old.queues receiver }
        ensures queues { (q : Queue) → slice_get self.old.queues receiver ≡ Some q → self.new.queues ≡ set self.old.queues receiver (after_arrival value.now q) }
        ensures words { self.new.words ≡ self.old.words }
    {
        let lane = &mut self.lanes[receiver];
        if lane.ring.len() < lane.ring.capacity() {
            let payload = Payload::pack(value, self.words, &mut self.pool);
            lane.ring.push_back(payload);
            true
        } else {
            lane.lost = true;
            false
        }
    }

    /// Takes the oldest value of a queue.
    pub fn take(&mut self, receiver: usize) -> Received
        requires { receiver < length self.old.queues }
        ensures answer { (q : Queue) → slice_get self.old.queues receiver ≡ Some q → result ≡ received_of q }
        ensures queues { (q : Queue) → slice_get self.old.queues receiver ≡ Some q → self.new.queues ≡ set self.old.queues receiver (after_taking q) }
        ensures words { self.new.words ≡ self.old.words }
    {
        let lane = &mut self.lanes[receiver];
        let code = if lane.lost { LOST_DATA } else { OK };
        lane.lost = false;
        match lane.ring.pop_front() {
            Some(payload) => Received {
                code,
                value: payload.unpack(&mut self.pool),
            },
            None => Received {
                code: NO_DATA,
                value: Value::empty(),
            },
        }
    }
}
