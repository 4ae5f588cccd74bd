//! The slots of a new core.

ghost use Rattle.std.specs.Prelude.{◌≡◌, ◌==◌, ◌++◌, ◌<◌, ◌^◌, IfOk, OnOk, List, map, length};
ghost use Rattle.task_slots.specs.Slots.{Table};
ghost use Rattle.bus_semantics.specs.Plan.{plan_of, positions};
ghost use Rattle.task_slots.specs.declared.slot.Slot.TheVariants as of;
ghost use Rattle.core_turn.specs.Cores.{task_tables, tables_of_core};
ghost use Rattle.core_turn.specs.Made.{AreNew};

use crate::Memory;
use bus_semantics::{BusPlan, Mapping};
use std::alloc::Global;
use task_machine::TaskSet;
use task_slots::{Slot, TaskSlot};

/// A slot for each of the tasks of a core, in their order.
fn slots_of_tasks(alloc: Global, m: &Mapping, t: &TaskSet, number: u32) -> Result<Vec<Slot>, Memory>
    ensures { IfOk result (λ slots. AreNew t.now (task_tables m.now number) slots.items) }
{
    let mut slots = Vec::new(alloc);
    for task in m.tasks.items() {
        if task.core == number {
            let slot = TaskSlot::new(alloc, t, task)?;
            slots.push(Slot::Task(slot))?;
        }
    }
    Ok(slots)
}

/// Adds a slot for each of so many mode machines, in their order.
fn add_machines(slots: &mut Vec<Slot>, count: u32) -> Result<(), Memory>
    ensures { OnOk result (slots.new.items ≡ slots.old.items ++ map of.Machine (positions count)) }
{
    for number in 0..count {
        slots.push(Slot::Machine(number))?;
    }
    Ok(())
}

/// A slot for each of the tasks of a core, and behind them on core 0 one for each mode machine.
pub(crate) fn slots_of(
    alloc: Global,
    p: &BusPlan,
    m: &Mapping,
    t: &TaskSet,
    number: u32,
) -> Result<Vec<Slot>, Memory>
    ensures new { IfOk result (λ slots. (tables : List Table) × AreNew t.now tables slots.items) }
    ensures listed { IfOk result (λ slots. length p.now.machines < 2 ^ 32 → AreNew t.now (tables_of_core (plan_of p.now) m.now number) slots.items) }
{
    let mut slots = slots_of_tasks(alloc, m, t, number)?;
    if number == 0 {
        add_machines(&mut slots, p.machines.len().min(u32::MAX as usize) as u32)?;
    }
    Ok(slots)
}
