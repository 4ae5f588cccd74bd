//! The events that the phases of a machine owe, of which a phase goes through those of its moment alone.

ghost use Rattle.std.specs.Prelude.{◌≡◌, ◌<◌, ◌≤◌, ◌+◌, ◌⊎◌, ℕ, IfOk, IfSome, None, Some, length, map, position, set, slice_get, true};
ghost use Rattle.std.specs.List.{Contains};
ghost use Rattle.std.specs.Vec.{vec_capacity};
ghost use Rattle.mode_machine.specs.Chains.{AreChains, IsNext, is_at, moment_of};
ghost use Rattle.mode_machine.specs.Owed.{IsNamed, after_end, after_owed_start, is_woken, may_start, never_owed, owed_by};
ghost use Rattle.mode_machine.specs.Tracked.{IsReady, event_at, if_at, is_left, moment_in};

use crate::Memory;
use crate::chains::Chains;
use crate::owed::{ModeEvent, OwedEvent, moment_of, new_events};
use crate::telling::tell_chain;
use rte_value::Step;
use std::alloc::Global;
use std::marker::Model;

/// Events by mode switches. Only `new` takes memory.
#[derive(Drop)]
pub(crate) struct TrackedEvents {
    events: Vec<OwedEvent>,
    chains: Chains,
    /// The moment of the events that the last phase owes.
    last: Option<ModeEvent>,
    /// The first event that is left.
    left: Option<usize>,
}

impl Model for TrackedEvents {
    ghost use Rattle.mode_machine.specs.Tracked.{AreTracked, Tracked};

    ghost Value = { Tracked };

    ghost view = { λ t. record { events = t.events.items; last = t.last } };

    ghost invariant = { λ t. AreTracked (record { events = t.events.items; last = t.last }) t.chains t.left };
}

/// What a phase makes of the events of a moment.
fn owe_chain(
    events: &mut Vec<OwedEvent>,
    chains: &Chains,
    at: Option<ModeEvent>,
    step: Step,
    settled: u32,
    next: u32,
)
    requires { AreChains (map moment_in events.old.items) chains.now }
    ensures { events.new.items ≡ map (if_at at (owed_by step settled next)) events.old.items }
{
    let mut from = chains.first(at);
    while let Some(event) = from {
        events[event] = events[event].after_phase(step, settled, next);
        from = chains.next(event);
    }
}

/// The first event that is left, from one on in its chain.
fn left_from(
    events: &[OwedEvent],
    chains: &Chains,
    at: Option<ModeEvent>,
    event: usize,
) -> Option<usize>
    requires chains { AreChains (map moment_in events.now) chains.now }
    requires within { event < length events.now }
    requires here { is_at at (event_at events.now event).moment ≡ true }
    requires owed { (other : ℕ) → is_left events.now other ≡ true → is_at at (event_at events.now other).moment ≡ true }
    ensures { IsNext (is_left events.now) event result }
{
    let mut from = Some(event);
    while let Some(event) = from {
        if events[event].is_left() {
            return Some(event);
        }
        from = chains.next(event);
    }
    None
}

impl TrackedEvents {
    /// Events that occur at these moments, before anything happened. The only error is that there is no memory.
    fn new(alloc: Global, moments: &[ModeEvent]) -> Result<TrackedEvents, Memory>
        ensures { IfOk result (λ t. t ≡ record { events = map never_owed moments.now; last = None }) }
    {
        Ok(TrackedEvents {
            events: new_events(alloc, moments)?,
            chains: Chains::new(alloc, moments)?,
            last: None,
            left: None,
        })
    }

    /// Events of which those are owed that occur at the entry into the initial mode. The only error is that there is no memory.
    pub fn entered(
        alloc: Global,
        moments: &[ModeEvent],
        initial: u32,
    ) -> Result<TrackedEvents, Memory>
        ensures { IfOk result (λ t. t ≡ record { events = map (owed_by Step.Entry initial initial) (map never_owed moments.now); last = moment_of Step.Entry initial initial }) }
    {
        let mut events = TrackedEvents::new(alloc, moments)?;
        events.owe(Step::Entry, initial, initial);
        Ok(events)
    }

    /// The first event that is left.
    pub fn first_left(&self) -> Option<usize>
        ensures first { result ≡ position (λ e. e.left) self.now.events }
        ensures within { IfSome result (λ at. at < length self.now.events) }
    {
        self.left
    }

    /// A phase makes the events that it owes due. It goes through these and through those of the last phase.
    pub fn owe(&mut self, step: Step, settled: u32, next: u32)
        requires { IsReady self.old }
        ensures { self.new ≡ record { events = map (owed_by step settled next) self.old.events; last = moment_of step settled next } }
    {
        let moment = moment_of(step, settled, next);
        owe_chain(
            &mut self.events,
            &self.chains,
            self.last,
            step,
            settled,
            next,
        );
        owe_chain(&mut self.events, &self.chains, moment, step, settled, next);
        self.left = self.chains.first(moment);
        self.last = moment;
    }

    /// Appends the names of the events by which a phase makes a start possible. It goes through those that the phase owes.
    pub fn tell(&self, step: Step, settled: u32, next: u32, names: &[u32], told: &mut Vec<u32>)
        requires ready { IsReady self.now }
        requires named { length names.now ≡ length self.now.events }
        requires room { length told.old.items + length self.now.events ≤ vec_capacity told.old }
        ensures told { (at name : ℕ) → is_woken step settled next (event_at self.now.events at) ≡ true → slice_get names.now at ≡ Some name → Contains told.new.items name }
        ensures kept { (other : ℕ) → Contains told.old.items other → Contains told.new.items other }
        ensures only { (name : ℕ) → Contains told.new.items name → Contains told.old.items name ⊎ IsNamed names.now (λ at. is_woken step settled next (event_at self.now.events at)) name }
        ensures room { length told.new.items ≤ length told.old.items + length self.now.events }
        ensures capacity { vec_capacity told.new ≡ vec_capacity told.old }
    {
        let at = moment_of(step, settled, next);
        tell_chain(
            &self.events,
            &self.chains,
            at,
            step,
            settled,
            next,
            names,
            told,
        );
    }

    /// Whether a start by an event may come.
    pub fn may_start(&self, event: usize) -> bool
        requires { event < length self.now.events }
        ensures { result ≡ may_start (event_at self.now.events event) }
    {
        self.events[event].may_start()
    }

    /// Starts an activation by an event, if one may come.
    pub fn start(&mut self, event: usize)
        requires { event < length self.old.events }
        ensures { self.new ≡ record { events = set self.old.events event (after_owed_start (event_at self.old.events event)); last = self.old.last } }
    {
        self.events[event] = self.events[event].after_start();
    }

    /// Whether an activation by an event runs.
    pub fn is_running(&self, event: usize) -> bool
        requires { event < length self.now.events }
        ensures { result ≡ (event_at self.now.events event).running }
    {
        self.events[event].running
    }

    /// Ends the activation by an event, if one runs. All ends since a phase go through what it owes once.
    pub fn end(&mut self, event: usize)
        requires { event < length self.old.events }
        ensures { self.new ≡ record { events = set self.old.events event (after_end (event_at self.old.events event)); last = self.old.last } }
    {
        self.events[event] = self.events[event].after_end();
        if self.left == Some(event) {
            self.left = left_from(&self.events, &self.chains, self.last, event);
        }
    }
}
