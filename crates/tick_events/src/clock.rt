//! The clock.

ghost use Rattle.std.specs.Prelude.{◌≡◌, ◌<◌, ◌≤◌, ℕ, length, IfOk, slice_get, Some, true, false, All};
ghost use Rattle.std.specs.List.{Contains};
ghost use Rattle.std.specs.Vec.{vec_capacity};
ghost use Rattle.tick_events.specs.Kept.{IsRung, fresh, after_tick, after_timing, after_init, is_due};

use crate::Memory;
use crate::countdowns::Countdowns;
use crate::ringing::{ring, ring_and_tell};
use indexmap::IndexSet;
use latches::Latches;
use std::alloc::Global;
use std::marker::Model;

/// What the clock keeps for the events that it makes pending (SWS_RTE: TimingEvent, InitEvent).
///
/// A TimingEvent is a position in the list of periods, an InitEvent one below their number. Only `new` takes memory.
#[derive(Drop)]
pub struct Clock {
    /// For each TimingEvent whether it is pending, in groups by the countdown of its period.
    pending: Latches,
    /// One for each distinct period.
    countdowns: Countdowns,
    unstarted: Vec<bool>,
}

impl Model for Clock {
    ghost use Rattle.std.specs.Prelude.{map};
    ghost use Rattle.tick_events.specs.Kept.{Kept};
    ghost use Rattle.tick_events.specs.Running.{IsRunning, kept_timer};

    ghost Value = { Kept };

    ghost view = { λ c. record { timers = map (kept_timer c.countdowns) c.pending; unstarted = c.unstarted.items } };

    ghost invariant = { λ c. IsRunning c.countdowns c.pending };
}

impl Clock {
    /// A clock that has not ticked, with the period of each TimingEvent in ticks, each at least 1, and the number of
    /// InitEvents, which are pending. The only error is that there is no memory for them.
    pub fn new(alloc: Global, periods: Vec<u64>, inits: u32) -> Result<Clock, Memory>
        requires { All (λ period. 1 ≤ period) periods.items }
        ensures { IfOk result (λ c. c ≡ fresh periods.items inits) }
    {
        let mut distinct = IndexSet::new(alloc);
        let mut groups = Vec::with_capacity(alloc, periods.len())?;
        for period in &periods {
            let (group, _) = distinct.insert_full(*period)?;
            groups.push(group)?;
        }
        let pending = Latches::new(alloc, groups.as_slice(), distinct.len())?;
        let countdowns = Countdowns::new(alloc, Vec::from_slice(alloc, distinct.as_slice())?)?;
        let unstarted = vec![in alloc; true; inits as usize]?;
        Ok(Clock {
            pending,
            countdowns,
            unstarted,
        })
    }

    /// One tick more, of one millisecond: each TimingEvent whose period is complete is pending.
    ///
    /// It looks at the countdowns that end, of which there is one for each distinct period, and at what they make pending.
    pub fn tick(&mut self)
        ensures kept { self.new ≡ after_tick self.old }
    {
        self.countdowns.tick();
        ring(&mut self.pending, &mut self.countdowns);
    }

    /// A tick, at the same cost, after which `rung` has the names of the TimingEvents that it made pending; `names` has a
    /// name for each TimingEvent.
    pub fn tick_and_tell(&mut self, names: &[u32], rung: &mut Vec<u32>)
        requires named { length names.now ≡ length self.old.timers }
        requires room { length self.old.timers ≤ vec_capacity rung.old }
        ensures kept { self.new ≡ after_tick self.old }
        ensures rung { (event name : ℕ) → is_due event self.old ≡ Some false → is_due event self.new ≡ Some true → slice_get names.now event ≡ Some name → Contains rung.new.items name }
        ensures only { (name : ℕ) → Contains rung.new.items name → IsRung names.now self.old self.new name }
        ensures capacity { vec_capacity rung.new ≡ vec_capacity rung.old }
    {
        rung.clear();
        self.countdowns.tick();
        ring_and_tell(&mut self.pending, &mut self.countdowns, names, rung);
    }

    /// Whether the TimingEvent is pending.
    pub fn is_timing_due(&self, event: u32) -> bool
        requires { event < length self.now.timers }
        ensures { Some result ≡ is_due event self.now }
    {
        self.pending.is_set(event as usize)
    }

    /// Whether the InitEvent is pending, as it is until its first start.
    pub fn is_init_due(&self, event: u32) -> bool
        requires { event < length self.now.unstarted }
        ensures { Some result ≡ slice_get self.now.unstarted event }
    {
        self.unstarted[event as usize]
    }

    /// Whether the TimingEvent was pending; then it is no longer.
    pub fn start_timing(&mut self, event: u32) -> bool
        requires { event < length self.old.timers }
        ensures pending { Some result ≡ is_due event self.old }
        ensures kept { self.new ≡ after_timing event self.old }
    {
        let was_pending = self.is_timing_due(event);
        self.pending.clear(event as usize);
        was_pending
    }

    /// Whether the InitEvent was pending, as it is until its first start; then it is no longer.
    pub fn start_init(&mut self, event: u32) -> bool
        requires { event < length self.old.unstarted }
        ensures pending { Some result ≡ slice_get self.old.unstarted event }
        ensures kept { self.new ≡ after_init event self.old }
    {
        let was_pending = self.unstarted[event as usize];
        self.unstarted[event as usize] = false;
        was_pending
    }
}
