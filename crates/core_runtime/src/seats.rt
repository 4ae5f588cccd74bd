//! Where the events stand on the cores.

ghost use Rattle.std.specs.Prelude.{◌≡◌, ◌<◌, ℕ, List, [], All, IfOk, OnOk, Some, length, map, slice_get};
ghost use Rattle.bus_semantics.specs.declared.script.Mapping.{Mapping};
ghost use Rattle.bus_semantics.specs.Plan.{plan_of};
ghost use Rattle.task_machine.specs.declared.instr.TaskSet.{TaskSet};
ghost use Rattle.task_slots.specs.Slots.{events_of_slot};
ghost use Rattle.core_runtime.specs.Turns.{AreReady};
ghost use Rattle.core_runtime.specs.Watching.{Adds, AreSeated, IsOfTask, IsOfCore, tables_of};

use crate::Memory;
use bus_semantics::BusPlan;
use core_turn::Core;
use std::alloc::Global;

/// A place of an event in a task of a core.
#[derive(Clone, Copy)]
pub(crate) struct Seat {
    /// The number of the core.
    pub core: usize,
    /// The place of the task among those of the core.
    pub slot: usize,
    /// The place of the event among those of the task.
    pub place: usize,
}

/// Adds the seats of a task, whose events each have a list.
fn seat_task(
    seats: &mut Vec<Vec<Seat>>,
    events: &[u32],
    core: usize,
    slot: usize,
) -> Result<(), Memory>
    requires { All (λ e. e < length seats.old.items) events.now }
    ensures { OnOk result (Adds (IsOfTask events.now core slot) seats.old.items seats.new.items) }
{
    for place in 0..events.len() {
        seats[events[place] as usize].push(Seat { core, slot, place })?;
    }
    Ok(())
}

/// Adds the seats of a core, whose events each have a list.
fn seat_core(seats: &mut Vec<Vec<Seat>>, core: &Core, number: usize) -> Result<(), Memory>
    requires { (i : ℕ) (events : List ℕ) → slice_get (map events_of_slot core.now.slots) i ≡ Some events
        → All (λ e. e < length seats.old.items) events }
    ensures { OnOk result (Adds (IsOfCore (map events_of_slot core.now.slots) number) seats.old.items seats.new.items) }
{
    for slot in 0..core.slots() {
        seat_task(seats, core.events(slot), number, slot)?;
    }
    Ok(())
}

/// A list without seats for each event.
fn no_seats(alloc: Global, count: usize) -> Result<Vec<Vec<Seat>>, Memory>
    ensures count { IfOk result (λ seats. length seats.items ≡ count) }
    ensures none { IfOk result (λ seats. AreSeated [] seats.items) }
{
    let mut seats = Vec::new(alloc);
    for event in 0..count {
        seats.push(Vec::new(alloc))?;
    }
    Ok(seats)
}

/// For each event of the plan, by number, its seats. The only error is that there is no memory.
pub(crate) fn seats_of(alloc: Global, p: &BusPlan, cores: &[Core]) -> Result<Vec<Vec<Seat>>, Memory>
    requires { (m : Mapping) × (t : TaskSet) × AreReady (plan_of p.now) m t cores.now }
    ensures { IfOk result (λ seats. AreSeated (tables_of cores.now) seats.items) }
{
    let mut seats = no_seats(alloc, p.events.items().len())?;
    for number in 0..cores.len() {
        seat_core(&mut seats, &cores[number], number)?;
    }
    Ok(seats)
}
