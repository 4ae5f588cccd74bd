//! Where a core stands between its turns.

use crate::yard::Yard;
use crossbeam_utils::sync::Parker;
use rte_text::Gate;
use std::sync::Wait;
use std::thread;

/// After so many turns in a row without an entry a core parks.
const QUIET_TURNS: u32 = 64;

/// A core's gate, where it waits, and by what it wakes the others.
#[derive(Drop)]
pub(crate) struct Post<'a, G: Gate> {
    gate: &'a G,
    yard: &'a Yard,
    parker: &'a Parker,
    /// The number of the core.
    number: u32,
    /// Behind so many turns in a row that found nothing it is.
    quiet: u32,
}

impl<'a, G: Gate> Post<'a, G> {
    /// The post of the core of this number, which has made no turn.
    pub fn new(gate: &'a G, yard: &'a Yard, parker: &'a Parker, number: u32) -> Post<'a, G> {
        Post {
            gate,
            yard,
            parker,
            number,
            quiet: 0,
        }
    }

    /// Passes the gate.
    pub fn pass(&self) {
        self.gate.pass(self.number);
    }

    /// Whether the pump has ended.
    pub fn has_ended(&self) -> bool {
        self.yard.has_ended()
    }

    /// The core made an entry: it wakes all cores.
    pub fn tell(&mut self) {
        self.quiet = 0;
        self.yard.wake_all();
    }

    /// The core found its object held by another seat: it lets that one run.
    pub fn give_way(&mut self) {
        self.quiet = 0;
        thread::yield_now();
    }

    /// The core found nothing that may come. It parks if that was the 64th such turn in a row.
    pub fn rest<R: Wait>(&mut self, rt: &R) {
        self.quiet = self.quiet.saturating_add(1);
        if self.quiet >= QUIET_TURNS {
            self.quiet = 0;
            self.parker.park(rt);
        }
    }
}
