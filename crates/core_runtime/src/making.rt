//! The cores of a new node.

ghost use Rattle.std.specs.Prelude.{◌≡◌, IfOk, length};
ghost use Rattle.bus_semantics.specs.Plan.{plan_of};
ghost use Rattle.core_runtime.specs.Nodes.{AreNewCores, IsNewCore};

use crate::Memory;
use bus_semantics::{BusPlan, Mapping};
use core_turn::Core;
use std::alloc::Global;
use task_machine::TaskSet;

/// The core of a number, with room for an entry.
fn core_of(
    alloc: Global,
    p: &BusPlan,
    m: &Mapping,
    t: &TaskSet,
    number: u32,
) -> Result<Core, Memory>
    ensures { IfOk result (IsNewCore (plan_of p.now) m.now t.now number) }
{
    let mut core = Core::new(alloc, p, m, t, number)?;
    core.make_room(alloc, 1)?;
    Ok(core)
}

/// The cores of a mapping, each with room for an entry.
pub(crate) fn cores_of(
    alloc: Global,
    p: &BusPlan,
    m: &Mapping,
    t: &TaskSet,
) -> Result<Vec<Core>, Memory>
    ensures count { IfOk result (λ cores. length cores.items ≡ m.now.cores) }
    ensures cores { IfOk result (λ cores. AreNewCores (plan_of p.now) m.now t.now cores.items) }
{
    let mut cores = Vec::new(alloc);
    for number in 0..m.cores {
        cores.push(core_of(alloc, p, m, t, number)?)?;
    }
    Ok(cores)
}
