//! The events that the phases of a machine owe.

ghost use Rattle.std.specs.Prelude.{◌≡◌, IfOk, map};
ghost use Rattle.mode_machine.specs.Chains.{moment_of};
ghost use Rattle.mode_machine.specs.Owed.{after_end, after_owed_start, is_woken, may_start, never_owed, owed_by, owes};

use crate::Memory;
use rte_value::Step;
use std::alloc::Global;

/// When an event by a mode switch occurs (SwcModeSwitchEvent).
#[derive(Clone, Copy, PartialEq, Eq, Hash)]
pub enum ModeEvent {
    /// At the exit from this mode.
    OnExit(u32),
    /// At the transition from the first mode to the second.
    OnTransition(u32, u32),
    /// At the entry into this mode.
    OnEntry(u32),
}

/// An event by a mode switch, and what became of it.
#[derive(Clone, Copy)]
pub struct OwedEvent {
    /// When it occurs.
    pub moment: ModeEvent,
    /// It occurred since its last start.
    pub due: bool,
    /// An activation by it was started and has not ended.
    pub running: bool,
    /// It was started since the last phase.
    pub begun: bool,
    /// The last phase owes it, and no activation by it was started and has ended since.
    pub left: bool,
}

impl ModeEvent {
    /// Whether a phase owes it, in a switch from one mode to the next.
    fn is_owed(self, step: Step, settled: u32, next: u32) -> bool
        ensures { result ≡ owes step settled next self }
    {
        match (step, self) {
            (Step::Exit, ModeEvent::OnExit(mode)) => mode == settled,
            (Step::Transition, ModeEvent::OnTransition(from, to)) => from == settled && to == next,
            (Step::Entry, ModeEvent::OnEntry(mode)) => mode == next,
            _ => false,
        }
    }
}

/// The moment of the events that a phase owes, in a switch from one mode to the next.
pub(crate) fn moment_of(step: Step, settled: u32, next: u32) -> Option<ModeEvent>
    ensures { result ≡ moment_of step settled next }
{
    match step {
        Step::Exit => Some(ModeEvent::OnExit(settled)),
        Step::Transition => Some(ModeEvent::OnTransition(settled, next)),
        Step::Entry => Some(ModeEvent::OnEntry(next)),
        Step::Close(_) | Step::Stable => None,
    }
}

impl OwedEvent {
    /// The event before anything happened.
    fn new(moment: ModeEvent) -> OwedEvent
        ensures { result ≡ never_owed moment }
    {
        OwedEvent {
            moment,
            due: false,
            running: false,
            begun: false,
            left: false,
        }
    }

    /// The event after a phase.
    pub(crate) fn after_phase(&self, step: Step, settled: u32, next: u32) -> OwedEvent
        ensures { result ≡ owed_by step settled next self.now }
    {
        let is_owed = self.moment.is_owed(step, settled, next);
        OwedEvent {
            moment: self.moment,
            due: is_owed || self.due,
            running: self.running,
            begun: false,
            left: is_owed,
        }
    }

    /// Whether a start by it may come: it is due and does not run.
    pub(crate) fn may_start(&self) -> bool
        ensures { result ≡ may_start self.now }
    {
        self.due && !self.running
    }

    /// Whether the last phase owes it still.
    pub(crate) fn is_left(&self) -> bool
        ensures { result ≡ self.now.left }
    {
        self.left
    }

    /// Whether a phase makes a start by it possible that was not so before.
    pub(crate) fn is_woken(&self, step: Step, settled: u32, next: u32) -> bool
        ensures { result ≡ is_woken step settled next self.now }
    {
        !self.may_start() && self.after_phase(step, settled, next).may_start()
    }

    /// The event after a start by it, if one may come.
    pub(crate) fn after_start(&self) -> OwedEvent
        ensures { result ≡ after_owed_start self.now }
    {
        if !self.may_start() {
            return *self;
        }
        OwedEvent {
            moment: self.moment,
            due: false,
            running: true,
            begun: true,
            left: self.left,
        }
    }

    /// The event after the end of an activation by it, if one runs.
    pub(crate) fn after_end(&self) -> OwedEvent
        ensures { result ≡ after_end self.now }
    {
        if !self.running {
            return *self;
        }
        OwedEvent {
            moment: self.moment,
            due: self.due,
            running: false,
            begun: self.begun,
            left: self.left && !self.begun,
        }
    }
}

/// Events that occur at these moments, before anything happened.
pub(crate) fn new_events(alloc: Global, moments: &[ModeEvent]) -> Result<Vec<OwedEvent>, Memory>
    ensures { IfOk result (λ events. events.items ≡ map never_owed moments.now) }
{
    let mut events = Vec::new(alloc);
    for moment in moments {
        events.push(OwedEvent::new(*moment))?;
    }
    Ok(events)
}
