//! What an entry wakes of the activations that wait at exclusive areas.

ghost use Rattle.std.specs.Prelude.{◌≡◌, List, None};
ghost use Rattle.bus_semantics.specs.Common.{Noted, touched_by, Plan};
ghost use Rattle.port_objects.specs.declared.object.Object.{Object};
ghost use Rattle.port_objects.specs.Waking.{is_leave};
ghost use Rattle.task_machine.specs.declared.instr.TaskSet.{TaskSet};
ghost use Rattle.core_turn.specs.Cores.{CoreState};
ghost use Rattle.core_runtime.specs.Watching.{AreEven, AreWaiting, AreWatched, AreWokenAt, IsAfter};

use bus_semantics::Deed;
use core_turn::{Awake, waiters_sleep_on};

/// Whether an entry of this deed leaves an area.
fn leaves(deed: &Deed) -> bool
    ensures { result ≡ is_leave deed.now }
{
    match deed {
        Deed::Leave { .. } => true,
        _ => false,
    }
}

/// Wakes on each core the first that waits at the area which is this object. If it may not enter, nobody else of its core may.
fn wake_first_of_each(object: u32, awake: &mut Vec<Awake>)
    requires { AreEven awake.old.items }
    ensures { AreWokenAt object awake.old.items awake.new.items }
{
    for number in 0..awake.len() {
        awake[number].wake_first(object);
    }
}

/// Wakes who may enter an area that an entry of this deed left, which is the object that it touched (SWS_RTE: Rte_Exit). No other
/// entry lets anybody in.
pub(crate) fn wake_waiting(deed: &Deed, touched: Option<u32>, awake: &mut Vec<Awake>)
    requires even { AreEven awake.old.items }
    ensures starts { (p : Plan) (t : TaskSet) (objects : List Object) (cores : List CoreState)
        → AreWatched p t objects cores awake.old.items → AreWatched p t objects cores awake.new.items }
    ensures waiting { (p : Plan) (n : Noted) (t : TaskSet) (cores : List CoreState) (before later : List Object)
        → n.entry.deed ≡ deed.now → touched ≡ touched_by p n → IsAfter p before later n
        → AreWaiting p t before touched cores awake.old.items → AreWaiting p t later None cores awake.new.items }
{
    waiters_sleep_on();
    if !leaves(deed) {
        return;
    }
    match touched {
        Some(object) => wake_first_of_each(object, awake),
        None => {}
    }
}
