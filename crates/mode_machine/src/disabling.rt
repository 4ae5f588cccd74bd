//! The events that modes disable.

ghost use Rattle.std.specs.Prelude.{◌≡◌, ◌<◌, IfOk, IfSome, false, length, map, position, set, slice_index_or, true};
ghost use Rattle.mode_machine.specs.Chains.{IsNext};
ghost use Rattle.mode_machine.specs.Disabling.{dependencies, dependency_of, has_mode, holds_at, holds_back, idle_dependency, lesser, modes_in, no_dependency};

use crate::Memory;
use place_set::PlaceSet;
use std::alloc::Global;
use std::marker::Model;

/// What an event comes to that modes may disable (ModeDisablingDependency).
#[derive(Clone, Copy)]
pub enum Admitted {
    /// Its activation is admitted.
    Yes,
    /// A mode disables it: its activation is over.
    No,
    /// An admitted activation by it runs.
    Runs,
}

/// Events that modes may disable, and the first that holds a mode back: an admitted activation by it runs, and the mode
/// disables it. Only `new` takes memory.
#[derive(Drop)]
pub(crate) struct Disablings {
    /// For each event the modes that disable it.
    modes: Vec<Vec<u32>>,
    /// The events by which admitted activations run.
    running: PlaceSet,
    watched: u32,
    /// The first event that holds the watched mode back.
    held: Option<usize>,
}

impl Model for Disablings {
    ghost use Rattle.std.specs.Prelude.{◌≡◌, length};
    ghost use Rattle.mode_machine.specs.Chains.{IsNext};
    ghost use Rattle.mode_machine.specs.Disabling.{Watched, dependencies, holds_at};

    ghost Value = { Watched };

    ghost view = { λ d. record { events = dependencies d.modes.items d.running; mode = d.watched } };

    ghost invariant = { λ d. (length d.modes.items ≡ length d.running) × IsNext (holds_at (record { events = dependencies d.modes.items d.running; mode = d.watched })) 0 d.held };
}

/// Whether a mode is among those that disable an event.
fn has_mode(modes: &Vec<u32>, mode: u32) -> bool
    ensures { result ≡ has_mode mode modes.now.items }
{
    modes.as_slice().contains(&mode)
}

/// The lesser of two events, if there are two.
fn lesser(held: Option<usize>, event: usize) -> usize
    ensures { result ≡ lesser held event }
{
    match held {
        Some(first) => first.min(event),
        None => event,
    }
}

/// The first event, from one on, that holds a mode back. It goes through the events by which admitted activations run.
fn first_held(modes: &[Vec<u32>], running: &mut PlaceSet, mode: u32, from: usize) -> Option<usize>
    requires { length modes.now ≡ length running.old }
    ensures same { running.new ≡ running.old }
    ensures next { IsNext (holds_at (record { events = dependencies modes.now running.old; mode = mode })) from result }
{
    let mut behind = from;
    while let Some(at) = running.next(behind) {
        if has_mode(&modes[at], mode) {
            return Some(at);
        }
        behind = at + 1;
    }
    None
}

impl Disablings {
    /// Events with the modes that disable them, and the mode to be watched. None of their activations runs.
    pub fn new(alloc: Global, modes: Vec<Vec<u32>>, watched: u32) -> Result<Disablings, Memory>
        ensures { IfOk result (λ d. d ≡ record { events = map idle_dependency (map modes_in modes.items); mode = watched }) }
    {
        let running = PlaceSet::empty(alloc, modes.len())?;
        Ok(Disablings {
            modes,
            running,
            watched,
            held: None,
        })
    }

    /// Whether a mode disables an event.
    pub fn disables(&self, mode: u32, event: usize) -> bool
        requires { event < length self.now.events }
        ensures { result ≡ has_mode mode (slice_index_or self.now.events event no_dependency).modes }
    {
        has_mode(&self.modes[event], mode)
    }

    /// Whether an admitted activation by an event runs.
    pub fn runs(&self, event: usize) -> bool
        requires { event < length self.now.events }
        ensures { result ≡ (slice_index_or self.now.events event no_dependency).admitted }
    {
        self.running.contains(event)
    }

    /// The first event that holds the watched mode back.
    pub fn first_held(&self) -> Option<usize>
        ensures first { result ≡ position (holds_back self.now.mode) self.now.events }
        ensures within { IfSome result (λ at. at < length self.now.events) }
    {
        self.held
    }

    /// Watches another mode. It goes through the events by which admitted activations run.
    pub fn watch(&mut self, mode: u32)
        ensures { self.new ≡ record { events = self.old.events; mode = mode } }
    {
        self.watched = mode;
        self.held = first_held(&self.modes, &mut self.running, mode, 0);
    }

    /// An admitted activation by an event runs from now on.
    pub fn begin(&mut self, event: usize)
        requires { event < length self.old.events }
        ensures { self.new ≡ record { events = set self.old.events event (dependency_of (slice_index_or self.old.events event no_dependency).modes true); mode = self.old.mode } }
    {
        self.running.insert(event);
        if has_mode(&self.modes[event], self.watched) {
            self.held = Some(lesser(self.held, event));
        }
    }

    /// No activation by an event runs from now on.
    pub fn end(&mut self, event: usize)
        requires { event < length self.old.events }
        ensures { self.new ≡ record { events = set self.old.events event (dependency_of (slice_index_or self.old.events event no_dependency).modes false); mode = self.old.mode } }
    {
        self.running.remove(event);
        if self.held == Some(event) {
            self.held = first_held(&self.modes, &mut self.running, self.watched, event);
        }
    }
}
