//! Which events start each runnable.

ghost use Rattle.std.specs.Prelude.{◌≡◌, ◌<◌, ◌^◌, ℕ, IfOk, OnOk, length};
ghost use Rattle.bus_semantics.specs.Plan.{plan_of, runnable_of_event};
ghost use Rattle.core_runtime.specs.Watching.{AreStarters, IsStarter};

use crate::Memory;
use bus_semantics::BusPlan;
use std::alloc::Global;

/// The runnable that an event starts.
fn runnable_of(p: &BusPlan, event: u32) -> Option<u32>
    ensures { result ≡ runnable_of_event (plan_of p.now) event }
{
    match p.events.items().get(event as usize) {
        Some(plan) => Some(plan.runnable),
        None => None,
    }
}

/// An empty list for each of so many runnables.
fn no_starters(alloc: Global, count: usize) -> Result<Vec<Vec<u32>>, Memory>
    ensures { IfOk result (λ lists. length lists.items ≡ count) }
{
    let mut lists = Vec::new(alloc);
    for _ in 0..count {
        lists.push(Vec::new(alloc))?;
    }
    Ok(lists)
}

/// Appends an event to the list of the runnable that it starts.
fn add_starter(p: &BusPlan, lists: &mut Vec<Vec<u32>>, event: u32) -> Result<(), Memory>
    ensures { OnOk result (IsStarter (plan_of p.now) event lists.old.items lists.new.items) }
{
    if let Some(runnable) = runnable_of(p, event) {
        if (runnable as usize) < lists.len() {
            lists[runnable as usize].push(event)?;
        }
    }
    Ok(())
}

/// For each runnable of the plan, by number, the events that start it. The only error is that there is no memory.
pub(crate) fn starters_of(alloc: Global, p: &BusPlan) -> Result<Vec<Vec<u32>>, Memory>
    requires { length p.now.events < 2 ^ 32 }
    ensures { IfOk result (λ lists. AreStarters (plan_of p.now) lists.items) }
{
    let mut lists = no_starters(alloc, p.runnables.items().len())?;
    for event in 0..p.events.items().len() as u32 {
        add_starter(p, &mut lists, event)?;
    }
    Ok(lists)
}
