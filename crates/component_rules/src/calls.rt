//! Calls that do not wait.

ghost use Rattle.std.specs.Prelude.{◌≡◌, ◌++◌, IfOk, OnOk};
ghost use Rattle.std.specs.List.{flat_map};
ghost use Rattle.std.specs.Option.{option_or};
ghost use Rattle.plan_definitions.specs.Calls.{called_by, left_by, called, left, is_called_once, is_left, access_keeps, event_keeps, mixed_among, mixed_access, mixed_event, mixed};

use crate::tally::Tally;
use description_types::{Access, Component, Event, EventKind, Runnable};
use plan_definitions::Spot;
use rte_text::Memory;
use runnable_lang::AccessKind;
use std::alloc::Global;

/// An operation, with its port.
type Operation = (u32, u32);

fn note_called(found: &mut Vec<Operation>, access: Access) -> Result<(), Memory>
    ensures { OnOk result (found.new.items ≡ found.old.items ++ called_by access) }
{
    if matches!(access.kind, AccessKind::Call | AccessKind::ACall) {
        found.push((access.port, access.item))?;
    }
    Ok(())
}

fn note_left(found: &mut Vec<Operation>, access: Access) -> Result<(), Memory>
    ensures { OnOk result (found.new.items ≡ found.old.items ++ left_by access) }
{
    if matches!(access.kind, AccessKind::ACall) {
        found.push((access.port, access.item))?;
    }
    Ok(())
}

fn note_all_called(found: &mut Vec<Operation>, accesses: &[Access]) -> Result<(), Memory>
    ensures { OnOk result (found.new.items ≡ found.old.items ++ flat_map called_by accesses.now) }
{
    for access in accesses {
        note_called(found, *access)?;
    }
    Ok(())
}

fn note_all_left(found: &mut Vec<Operation>, accesses: &[Access]) -> Result<(), Memory>
    ensures { OnOk result (found.new.items ≡ found.old.items ++ flat_map left_by accesses.now) }
{
    for access in accesses {
        note_left(found, *access)?;
    }
    Ok(())
}

fn called(alloc: Global, runnables: &[Runnable]) -> Result<Vec<Operation>, Memory>
    ensures { IfOk result (λ found. found.items ≡ called runnables.now) }
{
    let mut found = Vec::new(alloc);
    for runnable in runnables {
        note_all_called(&mut found, runnable.accesses.items())?;
    }
    Ok(found)
}

fn left(alloc: Global, runnables: &[Runnable]) -> Result<Vec<Operation>, Memory>
    ensures { IfOk result (λ found. found.items ≡ left runnables.now) }
{
    let mut found = Vec::new(alloc);
    for runnable in runnables {
        note_all_left(&mut found, runnable.accesses.items())?;
    }
    Ok(found)
}

/// The operations that the runnables of a component call, and those that they call without waiting.
#[derive(Drop)]
struct Calls<'a> {
    runnables: &'a [Runnable],
    all: Tally<Operation>,
    unwaited: Tally<Operation>,
    ghost are_called: { all.keys.items ≡ called runnables.now },
    ghost are_left: { unwaited.keys.items ≡ left runnables.now },
}

impl Calls<'_> {
    fn new(alloc: Global, runnables: &[Runnable]) -> Result<Calls<'_>, Memory>
        ensures { IfOk result (λ calls. calls.runnables.now ≡ runnables.now) }
    {
        let all = called(alloc, runnables)?;
        let unwaited = left(alloc, runnables)?;
        let all = Tally::new(alloc, all)?;
        let unwaited = Tally::new(alloc, unwaited)?;
        Ok(Calls {
            runnables,
            all,
            unwaited,
        })
    }

    fn is_called_once(&self, operation: Operation) -> bool
        ensures { result ≡ is_called_once self.now.runnables.now operation }
    {
        self.all.comes_once(operation)
    }

    fn is_left(&self, operation: Operation) -> bool
        ensures { result ≡ is_left self.now.runnables.now operation }
    {
        self.unwaited.comes(operation)
    }

    fn access_keeps(&self, access: Access) -> bool
        ensures { result ≡ access_keeps self.now.runnables.now access }
    {
        match access.kind {
            AccessKind::ACall => self.is_called_once((access.port, access.item)),
            AccessKind::TakeResult => self.is_left((access.port, access.item)),
            _ => true,
        }
    }

    fn event_keeps(&self, kind: EventKind) -> bool
        ensures { result ≡ event_keeps self.now.runnables.now kind }
    {
        match kind {
            EventKind::CallReturns { port, operation } => self.is_left((port, operation)),
            _ => true,
        }
    }

    #[tactic(auto, using(plan_definitions::proofs::Turns::first_more, plan_definitions::proofs::Turns::first_here, plan_definitions::proofs::Turns::first_none))]
    fn mixed_among(&self, runnable: usize, accesses: &[Access]) -> Option<Spot>
        ensures { result ≡ mixed_among self.now.runnables.now runnable accesses.now }
    {
        for (access, found) in accesses.iter().enumerate() {
            if !self.access_keeps(*found) {
                return Some(Spot::Access { runnable, access });
            }
        }
        None
    }

    #[tactic(auto, using(plan_definitions::proofs::Turns::first_more, plan_definitions::proofs::Turns::first_here, plan_definitions::proofs::Turns::first_none))]
    fn mixed_access(&self) -> Option<Spot>
        ensures { result ≡ mixed_access self.now.runnables.now }
    {
        for (position, runnable) in self.runnables.iter().enumerate() {
            if let Some(spot) = self.mixed_among(position, runnable.accesses.items()) {
                return Some(spot);
            }
        }
        None
    }

    #[tactic(auto, using(plan_definitions::proofs::Turns::first_more, plan_definitions::proofs::Turns::first_here, plan_definitions::proofs::Turns::first_none))]
    fn mixed_event(&self, events: &[Event]) -> Option<Spot>
        ensures { result ≡ mixed_event self.now.runnables.now events.now }
    {
        for (position, event) in events.iter().enumerate() {
            if !self.event_keeps(event.kind) {
                return Some(Spot::Event(position));
            }
        }
        None
    }

    /// The first access that breaks the rule, or else the first event.
    fn first_mixed(&self, events: &[Event]) -> Option<Spot>
        ensures { result ≡ option_or (mixed_access self.now.runnables.now) (mixed_event self.now.runnables.now events.now) }
    {
        match self.mixed_access() {
            Some(spot) => Some(spot),
            None => self.mixed_event(events),
        }
    }
}

/// The first access of a component that calls without waiting what another access calls, or takes a result of what nobody calls
/// so; or else the first event that would come with such a result.
pub fn mixed(alloc: Global, component: &Component) -> Result<Option<Spot>, Memory>
    ensures { IfOk result (λ spot. spot ≡ mixed component.now) }
{
    let runnables = component.behavior.runnables.items();
    let calls = Calls::new(alloc, runnables)?;
    let spot = calls.first_mixed(component.behavior.events.items());
    drop(calls);
    Ok(spot)
}
