//! The queues of joined queued data elements.

ghost use Rattle.std.specs.Prelude.{◌≡◌, ◌<◌, ◌≤◌, ◌^◌, ℕ, All, IfOk, Some, false, length, slice_get, sum, true};
ghost use Rattle.std.specs.List.{Contains};
ghost use Rattle.std.specs.Vec.{vec_capacity};
ghost use Rattle.rte_value.specs.Values.{words_of};
ghost use Rattle.queued_ports.specs.Kept.{IsWoken, after_receive, after_send, after_start, answer_to_receive, answer_to_send, fresh};

use crate::Memory;
use crate::lanes::Lanes;
use crate::received::{LIMIT, OK, Received};
use latches::Latches;
use rte_value::{Code, Value};
use std::alloc::Global;
use std::marker::Model;

/// What joined queued data elements keep: the values that each receiver has not received yet (SWS_RTE: explicit communication
/// by `queued` elements).
///
/// A receiver is a position in the list of queue lengths, an event one in the list of events. Only `new` takes memory.
#[derive(Drop)]
pub struct Queues {
    lanes: Lanes,
    due: Latches,
}

impl Model for Queues {
    ghost use Rattle.std.specs.Prelude.{map};
    ghost use Rattle.latches.specs.Latches as kept;
    ghost use Rattle.queued_ports.specs.Kept.{Kept};

    ghost Value = { Kept };

    ghost view = { λ q. record { words = q.lanes.words; queues = q.lanes.queues; events = map (λ (l : kept.Latch). l.group) q.due; due = map (λ (l : kept.Latch). l.is_set) q.due } };
}

/// The receivers as places.
fn places_of(alloc: Global, receivers: &[u32]) -> Result<Vec<usize>, Memory>
    ensures { IfOk result (λ places. places.items ≡ receivers.now) }
{
    let mut places = Vec::new(alloc);
    for receiver in receivers {
        places.push(*receiver as usize)?;
    }
    Ok(places)
}

impl Queues {
    /// Empty queues: the length of each receiver's queue, the receiver of each DataReceivedEvent, and how many words a value
    /// has. The only error is that there is no memory. No other call answers out of memory, by its type; that none takes any is
    /// read in the code. A queue that is not full always finds a block.
    pub fn new(
        alloc: Global,
        lengths: Vec<u32>,
        events: Vec<u32>,
        words: u8,
    ) -> Result<Queues, Memory>
        requires places { sum lengths.items < 2 ^ 32 }
        requires receivers { All (λ r. r < length lengths.items) events.items }
        ensures { IfOk result (λ q. q ≡ fresh lengths.items events.items words) }
    {
        let due = Latches::new(alloc, &places_of(alloc, &events)?, lengths.len())?;
        let lanes = Lanes::new(alloc, &lengths, words)?;
        Ok(Queues { lanes, due })
    }

    /// Sends a value to each receiver whose queue has room, and discards it at each other (Rte_Send). The answer is 130
    /// RTE_E_LIMIT exactly if one queue was full, else 0. The list then has the names of the events that became pending, and
    /// no others; each event has a name, at its place in the list of names. The call costs as much as there are receivers, and
    /// events that become pending.
    pub fn send(&mut self, value: &Value, names: &[u32], woken: &mut Vec<u32>) -> Code
        requires fits { length (words_of value.now) ≡ self.old.words }
        requires named { length names.now ≡ length self.old.events }
        requires room { length self.old.events ≤ vec_capacity woken.old }
        ensures answer { result ≡ answer_to_send self.old }
        ensures kept { self.new ≡ after_send value.now self.old }
        ensures woken { (event name : ℕ) → slice_get self.old.due event ≡ Some false → slice_get self.new.due event ≡ Some true → slice_get names.now event ≡ Some name → Contains woken.new.items name }
        ensures only { (name : ℕ) → Contains woken.new.items name → IsWoken names.now self.old self.new name }
        ensures capacity { vec_capacity woken.new ≡ vec_capacity woken.old }
    {
        woken.clear();
        let mut code = OK;
        for receiver in 0..self.lanes.len() {
            if self.lanes.arrive(receiver, value) {
                self.due.set_and_tell(receiver, names, woken);
            } else {
                code = LIMIT;
            }
        }
        code
    }

    /// Takes the oldest value of a receiver's queue (Rte_Receive). The code is 131 RTE_E_NO_DATA if the queue is empty, else
    /// 64 RTE_E_LOST_DATA if a value was discarded there since the last receive, and else 0.
    pub fn receive(&mut self, receiver: u32) -> Received
        requires { receiver < length self.old.queues }
        ensures answer { Some result ≡ answer_to_receive receiver self.old }
        ensures kept { self.new ≡ after_receive receiver self.old }
    {
        self.lanes.take(receiver as usize)
    }

    /// Whether the event is pending.
    pub fn is_due(&self, event: u32) -> bool
        requires { event < length self.now.events }
        ensures { Some result ≡ slice_get self.now.due event }
    {
        self.due.is_set(event as usize)
    }

    /// Whether the event was pending; then it is no longer.
    pub fn start(&mut self, event: u32) -> bool
        requires { event < length self.old.events }
        ensures pending { Some result ≡ slice_get self.old.due event }
        ensures kept { self.new ≡ after_start event self.old }
    {
        let is_pending = self.due.is_set(event as usize);
        self.due.clear(event as usize);
        is_pending
    }
}
