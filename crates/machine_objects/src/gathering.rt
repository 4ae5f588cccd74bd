//! The events that each machine starts or disables.

ghost use Rattle.std.specs.Prelude.{◌≡◌, ℕ, ◌<◌, ◌^◌, ◌++◌, ◌==◌, [], ◌∷◌, length, IfOk, OnOk, if◌then◌else◌};
ghost use Rattle.bus_semantics.specs.Common.{plan_of, disabler_of};
ghost use Rattle.object_kinds.specs.Gathered.{listed_at};
ghost use Rattle.machine_objects.specs.Layout.{machine_events, machine_for, matters};
ghost use Rattle.machine_objects.specs.Plans.{AreTheirs};

use crate::Memory;
use bus_semantics::{BusPlan, EventKind};
use std::alloc::Global;

/// An empty list for each of so many.
fn empty_lists(alloc: Global, count: usize) -> Result<Vec<Vec<u32>>, Memory>
    ensures long { IfOk result (λ lists. length lists.items ≡ count) }
    ensures empty { IfOk result (λ lists. (machine : ℕ) → listed_at lists.items machine ≡ []) }
{
    let mut lists = Vec::new(alloc);
    for _ in 0..count {
        lists.push(Vec::new(alloc))?;
    }
    Ok(lists)
}

/// Appends an event to the list of a machine.
fn append_to(lists: &mut Vec<Vec<u32>>, machine: u32, event: u32) -> Result<(), Memory>
    requires { machine < length lists.old.items }
    ensures long { length lists.new.items ≡ length lists.old.items }
    ensures appended { OnOk result ((other : ℕ) → listed_at lists.new.items other ≡ (if machine == other then listed_at lists.old.items other ++ event ∷ [] else listed_at lists.old.items other)) }
{
    lists[machine as usize].push(event)?;
    Ok(())
}

/// The machine that disables an event.
fn disabler_of(p: &BusPlan, event: u32) -> Option<u32>
    ensures { result ≡ disabler_of (plan_of p.now) event }
{
    match p.events.items().get(event as usize) {
        Some(found) => match &found.disabled {
            Some(disabling) => Some(disabling.machine),
            None => None,
        },
        None => None,
    }
}

/// The machine that starts an event, or else the one that disables it.
fn machine_for(p: &BusPlan, event: u32) -> Option<u32>
    ensures { result ≡ machine_for (plan_of p.now) event }
{
    match p.kind_of(event) {
        EventKind::ModeSwitch { machine, .. } | EventKind::Ack(machine) => Some(machine),
        _ => disabler_of(p, event),
    }
}

/// Appends an event to the list of the machine that starts or disables it.
fn add_event(p: &BusPlan, lists: &mut Vec<Vec<u32>>, event: u32) -> Result<(), Memory>
    requires theirs { AreTheirs (plan_of p.now) }
    requires lists { length lists.old.items ≡ length p.now.machines }
    ensures long { length lists.new.items ≡ length lists.old.items }
    ensures added { OnOk result ((machine : ℕ) → listed_at lists.new.items machine ≡ (if matters (plan_of p.now) machine event then listed_at lists.old.items machine ++ event ∷ [] else listed_at lists.old.items machine)) }
{
    match machine_for(p, event) {
        Some(machine) => append_to(lists, machine, event),
        None => Ok(()),
    }
}

/// For each machine the events that it starts or disables, in rising order.
pub fn mattering_events(alloc: Global, p: &BusPlan) -> Result<Vec<Vec<u32>>, Memory>
    requires theirs { AreTheirs (plan_of p.now) }
    requires events { length p.now.events < 2 ^ 32 }
    ensures long { IfOk result (λ lists. length lists.items ≡ length p.now.machines) }
    ensures mattering { IfOk result (λ lists. (machine : ℕ) → listed_at lists.items machine ≡ machine_events (plan_of p.now) machine) }
{
    let mut lists = empty_lists(alloc, p.machines.len())?;
    for event in 0..p.events.len() as u32 {
        add_event(p, &mut lists, event)?;
    }
    Ok(lists)
}
