//! What an entry wakes of the mode machines.

ghost use Rattle.std.specs.Prelude.{◌≡◌, ◌<◌, ◌+◌, ℕ, List, true, false, length, Some, IfSome, slice_get, slice_index_or};
ghost use Rattle.bus_semantics.specs.Common.{Noted, touched_by, first_machine, plan_of};
ghost use Rattle.port_objects.specs.declared.object.Object.{Object};
ghost use Rattle.task_machine.specs.declared.instr.TaskSet.{TaskSet};
ghost use Rattle.core_turn.specs.Cores.{CoreState};
ghost use Rattle.core_turn.specs.Awake.{AwakeState};
ghost use Rattle.core_runtime.specs.Watching.{AreBehind, AreEven, AreRoused, AreWatched, AreWoken, IsEven, IsWoken, owners_of};

use bus_semantics::BusPlan;
use core_turn::Awake;
use port_objects::machine_of;

/// The slot of the machine whose object this is, on a core with so many slots. Machines stand behind the tasks.
fn slot_of_machine(p: &BusPlan, object: u32, slots: usize) -> Option<usize>
    ensures within { IfSome result (λ at. at < slots) }
    ensures slot { (machine at : ℕ) → object ≡ first_machine (plan_of p.now) + machine
        → at + length p.now.machines ≡ slots + machine → at < slots → result ≡ Some at }
{
    let machines = p.machines.len();
    match machine_of(p, object) {
        Some(machine) => {
            if machine < machines && machines - machine <= slots {
                Some(slots - (machines - machine))
            } else {
                None
            }
        }
        None => None,
    }
}

/// Wakes the slot of the machine whose object this is.
fn rouse_machine(p: &BusPlan, object: u32, core: &mut Awake)
    requires even { IsEven core.old }
    ensures woken { IsWoken core.old core.new }
    ensures awake { (machine at : ℕ) → object ≡ first_machine (plan_of p.now) + machine → at + length p.now.machines ≡ length core.old.slots + machine
        → at < length core.old.slots → slice_index_or core.new.slots at false ≡ true }
{
    let count = core.count();
    if let Some(slot) = slot_of_machine(p, object, count) {
        core.rouse(slot);
    }
}

/// Wakes the slot of the machine that an entry touches, which is the object `touched` if it is one's: its next phase may come now
/// (SWS_RTE: mode switch procedure). No other entry changes what a phase waits for.
pub(crate) fn wake_machine(p: &BusPlan, touched: Option<u32>, awake: &mut Vec<Awake>)
    requires even { AreEven awake.old.items }
    ensures woken { AreWoken awake.old.items awake.new.items }
    ensures roused { (n : Noted) (t : TaskSet) (objects : List Object) (cores : List CoreState) → touched ≡ touched_by (plan_of p.now) n
        → AreBehind (plan_of p.now) (owners_of cores) → AreWatched (plan_of p.now) t objects cores awake.old.items → AreRoused (plan_of p.now) n cores awake.new.items }
{
    if awake.is_empty() {
        return;
    }
    match touched {
        Some(object) => rouse_machine(p, object, &mut awake[0]),
        None => {}
    }
}
