//! What a node begins with. Each function owns one thing of it when it may want memory, and lends it to the next.

ghost use Rattle.std.specs.Prelude.{◌≡◌, ◌<◌, ◌^◌, ℕ, List, None, Some, IfOk, length, slice_get};
ghost use Rattle.bus_semantics.specs.declared.script.Mapping.{Mapping};
ghost use Rattle.bus_semantics.specs.Common.{plan_of, IsSound};
ghost use Rattle.port_objects.specs.declared.object.Object.{Object};
ghost use Rattle.port_objects.specs.Plans.{HasObjects};
ghost use Rattle.task_machine.specs.declared.instr.TaskSet.{TaskSet};
ghost use Rattle.core_turn.specs.Cores.{CoreState};
ghost use Rattle.core_runtime.specs.Beginning.{IsBeginning};
ghost use Rattle.core_runtime.specs.Nodes.{AreNewCores};
ghost use Rattle.core_runtime.specs.Turns.{AreReady};
ghost use Rattle.core_runtime.specs.Watching.{IsWatch};

use crate::Memory;
use crate::guessing::guesses_of;
use crate::making::cores_of;
use crate::parts::Upkeep;
use crate::watch::Watch;
use bus_semantics::{BusPlan, Mapping};
use core_turn::Core;
use cross_core_table::Spare;
use port_objects::{Object, make_objects};
use std::alloc::Global;
use task_machine::TaskSet;

/// The cores and the objects of a new node, each by number, and what it keeps beside them.
#[derive(Drop)]
pub(crate) struct Beginning {
    pub cores: Vec<Core>,
    pub objects: Vec<Object>,
    pub kept: Upkeep,
}

/// What is kept beside these cores, each at its number: all of them is awake. The only error, as in what follows, is that there is no
/// memory.
fn upkeep_of(alloc: Global, p: &BusPlan, cores: &[Core]) -> Result<Upkeep, Memory>
    requires ready { (m : Mapping) × (t : TaskSet) × AreReady (plan_of p.now) m t cores.now }
    requires events { length p.now.events < 2 ^ 32 }
    requires numbers { (i : ℕ) (c : CoreState) → slice_get cores.now i ≡ Some c → c.number ≡ i }
    ensures { IfOk result (λ kept. (t : TaskSet) (objects : List Object) → IsWatch (plan_of p.now) t objects None cores.now kept.watch) }
{
    let watch = Watch::new(alloc, p, cores)?;
    let guesses = guesses_of(alloc, p, cores, &watch)?;
    Ok(Upkeep {
        watch,
        guesses,
        spare: Spare::none(alloc),
    })
}

/// The cores of a mapping, and what is kept beside them.
fn watched_cores(
    alloc: Global,
    p: &BusPlan,
    m: &Mapping,
    t: &TaskSet,
) -> Result<(Vec<Core>, Upkeep), Memory>
    requires { IsSound (plan_of p.now) m.now }
    ensures count { IfOk result (λ made. length made.0.items ≡ m.now.cores) }
    ensures cores { IfOk result (λ made. AreNewCores (plan_of p.now) m.now t.now made.0.items) }
    ensures watched { IfOk result (λ made. (objects : List Object) → IsWatch (plan_of p.now) t.now objects None made.0.items made.1.watch) }
{
    let cores = cores_of(alloc, p, m, t)?;
    let kept = upkeep_of(alloc, p, cores.as_slice())?;
    Ok((cores, kept))
}

/// Cores and objects of a node to which nothing has happened.
pub(crate) fn begin(
    alloc: Global,
    p: &BusPlan,
    m: &Mapping,
    t: &TaskSet,
) -> Result<Beginning, Memory>
    requires sound { IsSound (plan_of p.now) m.now }
    requires objects { HasObjects (plan_of p.now) }
    ensures { IfOk result (IsBeginning (plan_of p.now) m.now t.now) }
{
    let objects = make_objects(alloc, p)?;
    let (cores, kept) = watched_cores(alloc, p, m, t)?;
    Ok(Beginning {
        cores,
        objects,
        kept,
    })
}
