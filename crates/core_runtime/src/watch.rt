//! What of the cores may step, and where the events stand on them.

ghost use Rattle.std.specs.Prelude.{◌≡◌, ◌<◌, ◌^◌, ℕ, List, None, Some, IfOk, length, slice_get};
ghost use Rattle.bus_semantics.specs.declared.script.Mapping.{Mapping};
ghost use Rattle.bus_semantics.specs.Plan.{Plan, plan_of};
ghost use Rattle.port_objects.specs.declared.object.Object.{Object};
ghost use Rattle.task_machine.specs.declared.instr.TaskSet.{TaskSet};
ghost use Rattle.core_turn.specs.Cores.{CoreState};
ghost use Rattle.core_runtime.specs.Turns.{AreReady};
ghost use Rattle.core_runtime.specs.Watching.{IsWatch, AllWatched, AreShaped, HaveSameTasks};

use crate::Memory;
use crate::seats::{Seat, seats_of};
use crate::starters::starters_of;
use bus_semantics::BusPlan;
use core_turn::{Awake, Core};
use std::alloc::Global;

/// What of each core may step, and for each event, by number, its places on the cores.
#[derive(Drop)]
pub(crate) struct Watch {
    pub awake: Vec<Awake>,
    pub seats: Vec<Vec<Seat>>,
    /// For each runnable, by number, the events that start it.
    pub starters: Vec<Vec<u32>>,
}

/// All that the cores have, awake.
fn awake_of(alloc: Global, cores: &[Core]) -> Result<Vec<Awake>, Memory>
    ensures { IfOk result (λ awake. AllWatched cores.now awake.items) }
{
    let mut awake = Vec::new(alloc);
    for core in cores {
        awake.push(Awake::all(alloc, core)?)?;
    }
    Ok(awake)
}

/// All that these cores have is awake. It was made for cores with the same tasks.
pub(crate) fn rouse_all(awake: &mut Vec<Awake>, cores: &[Core])
    requires { (before : List CoreState) × AreShaped before awake.old.items × HaveSameTasks before cores.now }
    ensures { AllWatched cores.now awake.new.items }
{
    for number in 0..awake.len() {
        awake[number].wake_all(&cores[number]);
    }
}

impl Watch {
    /// Over these cores, each at its number, all is awake. The only error is that there is no memory; no other call takes any.
    pub fn new(alloc: Global, p: &BusPlan, cores: &[Core]) -> Result<Watch, Memory>
        requires ready { (m : Mapping) × (t : TaskSet) × AreReady (plan_of p.now) m t cores.now }
        requires events { length p.now.events < 2 ^ 32 }
        requires numbers { (i : ℕ) (c : CoreState) → slice_get cores.now i ≡ Some c → c.number ≡ i }
        ensures { IfOk result (λ w. (t : TaskSet) (objects : List Object) → IsWatch (plan_of p.now) t objects None cores.now w) }
    {
        let awake = awake_of(alloc, cores)?;
        let seats = seats_of(alloc, p, cores)?;
        let starters = starters_of(alloc, p)?;
        Ok(Watch {
            awake,
            seats,
            starters,
        })
    }

    /// What the cores did was not watched: all is awake. They have the tasks that they had. It takes no memory.
    pub fn wake_all(&mut self, cores: &[Core])
        requires { (p : Plan) × (t : TaskSet) × (objects : List Object) × (before : List CoreState) × IsWatch p t objects None before self.old × HaveSameTasks before cores.now }
        ensures { (p : Plan) (t : TaskSet) (objects later : List Object) (before : List CoreState) →
            IsWatch p t objects None before self.old → HaveSameTasks before cores.now → IsWatch p t later None cores.now self.new }
    {
        rouse_all(&mut self.awake, cores);
    }
}
