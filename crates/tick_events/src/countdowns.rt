//! Countdowns, of which one that has ended is found without a look at each.

ghost use Rattle.std.specs.Prelude.{◌≡◌, ◌<◌, ◌≤◌, length, map, set, slice_get, Some, IfOk, IfSome, IfNone, All};
ghost use Rattle.tick_events.specs.Countdowns as model;
ghost use Rattle.tick_events.specs.Countdowns.{whole, one_less};

use crate::Memory;
use crate::countdown::Countdown;
use crate::winners::{settle_above, settle_all, winner};
use std::alloc::Global;
use std::marker::Model;

/// Countdowns of periods in ticks.
///
/// A tick adds to one number, whatever their count. To find one that has ended is a look at the root of a tree of
/// winners, and to begin one anew is a way from its leaf to the root.
#[derive(Drop)]
pub(crate) struct Countdowns {
    /// How many ticks there were, modulo 2^64.
    ticks: u64,
    countdowns: Vec<Countdown>,
    /// As many as there are countdowns: for each inner node of the tree the place of the countdown that goes on from it.
    /// The first, of node 0, stands for nothing: the root is node 1.
    best: Vec<usize>,
}

impl Model for Countdowns {
    ghost use Rattle.std.specs.Prelude.{List};
    ghost use Rattle.tick_events.specs.Countdowns as model;
    ghost use Rattle.tick_events.specs.Countdowns.{all_seen};
    ghost use Rattle.tick_events.specs.Winners.{IsTree};

    ghost Value = { List model.Countdown };

    ghost view = { λ c. all_seen c.ticks c.countdowns.items };

    ghost invariant = { λ c. IsTree (all_seen c.ticks c.countdowns.items) c.best.items };
}

impl Countdowns {
    /// Countdowns of these periods, in ticks, of which all is left. The only error is that there is no memory; no other
    /// call takes any.
    pub fn new(alloc: Global, periods: Vec<u64>) -> Result<Countdowns, Memory>
        ensures { IfOk result (λ c. c ≡ map whole periods.items) }
    {
        let mut countdowns = Vec::with_capacity(alloc, periods.len())?;
        for period in &periods {
            countdowns.push(Countdown::new(*period, 0))?;
        }
        let mut best = vec![in alloc; 0; periods.len()]?;
        settle_all(&mut best, &countdowns, 0);
        Ok(Countdowns {
            ticks: 0,
            countdowns,
            best,
        })
    }

    /// One tick more, of one millisecond: each countdown has one less left.
    pub fn tick(&mut self)
        requires { All (λ c. 1 ≤ c.left) self.old }
        ensures { self.new ≡ map one_less self.old }
    {
        self.ticks = self.ticks.wrapping_add(1);
    }

    /// The place of a countdown that has ended, if there is one.
    pub fn ended(&self) -> Option<usize>
        ensures some { IfSome result (λ at. (c : model.Countdown) × (slice_get self.now at ≡ Some c) × (c.left ≡ 0)) }
        ensures none { IfNone result (All (λ c. 1 ≤ c.left) self.now) }
    {
        if self.countdowns.is_empty() {
            return None;
        }
        let first = winner(&self.best, 1);
        if self.countdowns[first].left(self.ticks) > 0 {
            return None;
        }
        Some(first)
    }

    /// Begins a countdown anew: all of its period is left, and nothing else changes.
    pub fn restart(&mut self, at: usize)
        requires { at < length self.old }
        ensures { (c : model.Countdown) → slice_get self.old at ≡ Some c → self.new ≡ set self.old at (whole c.period) }
    {
        self.countdowns[at].restart(self.ticks);
        settle_above(&mut self.best, &self.countdowns, self.ticks, at);
    }
}
