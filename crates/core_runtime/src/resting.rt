//! Events that have started, and sleep until something makes them due again.

ghost use Rattle.std.specs.Prelude.{◌≡◌, ℕ, List, None, Option, Some, slice_get};
ghost use Rattle.bus_semantics.specs.Common.{Noted, Plan, kind_of, object_of_kind, start_try, touched_by};
ghost use Rattle.port_objects.specs.declared.object.Object.{Object};
ghost use Rattle.task_machine.specs.declared.instr.TaskSet.{TaskSet};
ghost use Rattle.task_slots.specs.Common.{AllHeld};
ghost use Rattle.core_turn.specs.Cores.{CoreState};
ghost use Rattle.core_runtime.specs.Watching.{AreWaiting, AreWatched, IsAt, IsOverAt, IsThere, IsWatch};

use crate::seats::Seat;
use crate::watch::Watch;
use bus_semantics::Deed;
use core_turn::Awake;
use port_objects::{Object, held_starts_lead_nowhere, may_start};

/// Puts the event at a seat to sleep.
fn rest_seat(seat: &Seat, awake: &mut Vec<Awake>)
    requires there { IsThere awake.old.items seat.now }
    ensures watched { (p : Plan) (t : TaskSet) (objects : List Object) (cores : List CoreState) → IsOverAt p objects cores seat.now
        → AreWatched p t objects cores awake.old.items → AreWatched p t objects cores awake.new.items }
    ensures waiting { (p : Plan) (t : TaskSet) (objects : List Object) (touched : Option ℕ) (cores : List CoreState) →
        AreWaiting p t objects touched cores awake.old.items → AreWaiting p t objects touched cores awake.new.items }
{
    awake[seat.core].rest(seat.slot, seat.place);
}

/// Puts the event at the first of these seats to sleep.
fn rest_first(seats: &[Seat], awake: &mut Vec<Awake>)
    requires there { (k : ℕ) (s : Seat) → slice_get seats.now k ≡ Some s → IsThere awake.old.items s }
    ensures watched { (p : Plan) (t : TaskSet) (objects : List Object) (cores : List CoreState) →
        ((k : ℕ) (s : Seat) → slice_get seats.now k ≡ Some s → IsOverAt p objects cores s)
        → AreWatched p t objects cores awake.old.items → AreWatched p t objects cores awake.new.items }
    ensures waiting { (p : Plan) (t : TaskSet) (objects : List Object) (touched : Option ℕ) (cores : List CoreState) →
        AreWaiting p t objects touched cores awake.old.items → AreWaiting p t objects touched cores awake.new.items }
{
    if let Some(seat) = seats.get(0) {
        rest_seat(seat, awake);
    }
}

/// Puts an event to sleep at its seat: a sound plan maps it to one place of one task.
fn rest_event(event: u32, w: &mut Watch)
    requires there { (e : ℕ) (s : Seat) → IsAt w.old.seats.items e s → IsThere w.old.awake.items s }
    ensures { (p : Plan) (t : TaskSet) (objects : List Object) (touched : Option ℕ) (cores : List CoreState) → AllHeld p objects (start_try p event)
        → IsWatch p t objects touched cores w.old → IsWatch p t objects touched cores w.new }
{
    if let Some(seats) = w.seats.get(event as usize) {
        rest_first(seats.as_slice(), &mut w.awake);
    }
}

/// Puts an event to sleep, unless a start by it may come on the object of this number.
fn rest_if_over(event: u32, touched: Option<u32>, objects: &[Object], w: &mut Watch)
    requires there { (e : ℕ) (s : Seat) → IsAt w.old.seats.items e s → IsThere w.old.awake.items s }
    ensures { (p : Plan) (t : TaskSet) (cores : List CoreState) → touched ≡ object_of_kind p (kind_of p event)
        → IsWatch p t objects.now None cores w.old → IsWatch p t objects.now None cores w.new }
{
    held_starts_lead_nowhere();
    if let Some(number) = touched {
        if let Some(object) = objects.get(number as usize) {
            if !may_start(object, event) {
                rest_event(event, w);
            }
        }
    }
}

/// Puts the event of a start to sleep, which touched the object of this number and after which the objects are these, unless it may start
/// again now. It costs less than a look that finds this out.
pub(crate) fn rest_started(deed: &Deed, touched: Option<u32>, objects: &[Object], w: &mut Watch)
    requires there { (e : ℕ) (s : Seat) → IsAt w.old.seats.items e s → IsThere w.old.awake.items s }
    ensures { (p : Plan) (n : Noted) (t : TaskSet) (cores : List CoreState) → n.entry.deed ≡ deed.now → touched ≡ touched_by p n
        → IsWatch p t objects.now None cores w.old → IsWatch p t objects.now None cores w.new }
{
    if let Deed::Start { event, .. } = deed {
        rest_if_over(*event, touched, objects, w);
    }
}
