//! What an entry wakes.

ghost use Rattle.std.specs.Prelude.{◌≡◌, ℕ, List, true, false, None, Some, IfSome, slice_get};
ghost use Rattle.bus_semantics.specs.Common.{Contains, Noted, touched_by, IsObject, Plan, clock, plan_of};
ghost use Rattle.port_objects.specs.declared.object.Object.{Object};
ghost use Rattle.port_objects.specs.Common.{kept_of, tick_of_env};
ghost use Rattle.task_machine.specs.declared.instr.TaskSet.{TaskSet};
ghost use Rattle.core_turn.specs.Cores.{CoreState};
ghost use Rattle.core_runtime.specs.declared.watch.Watch.{Watch};
ghost use Rattle.core_runtime.specs.Watching.{AreAnswered, AreRoused, AreSeated, AreWatched, AreWoken, IsAfter, IsAt, IsSeen, IsThere, IsWatch, is_quiet, tables_of};

use crate::callers::wake_caller;
use crate::machines::wake_machine;
use crate::resting::rest_started;
use crate::seats::Seat;
use crate::waiting::wake_waiting;
use crate::watch::Watch;
use bus_semantics::{BusPlan, Deed, Entry};
use core_turn::{Awake, waiters_sleep_on};
use port_objects::{
    Object, answers_go_by_flags, held_starts_lead_nowhere, may_start, other_entries_wake_nothing,
    touched_object, wakes, woken,
};

/// Wakes an event at a seat, if it sleeps and may start now.
fn wake_seat(object: &Object, event: u32, seat: &Seat, awake: &mut Vec<Awake>)
    requires there { IsThere awake.old.items seat.now }
    ensures woken { AreWoken awake.old.items awake.new.items }
    ensures seen { IsSeen (kept_of object.now) awake.new.items event seat.now }
{
    let core = &mut awake[seat.core];
    if !core.is_awake(seat.slot, seat.place) && may_start(object, event) {
        core.wake(seat.slot, seat.place);
    }
}

/// Wakes the event at each of these seats, if it sleeps there and may start now.
fn wake_seats(object: &Object, event: u32, seats: &[Seat], awake: &mut Vec<Awake>)
    requires there { (k : ℕ) (s : Seat) → slice_get seats.now k ≡ Some s → IsThere awake.old.items s }
    ensures woken { AreWoken awake.old.items awake.new.items }
    ensures seen { (k : ℕ) (s : Seat) → slice_get seats.now k ≡ Some s → IsSeen (kept_of object.now) awake.new.items event s }
{
    for seat in seats {
        wake_seat(object, event, seat, awake);
    }
}

/// Wakes an event at each of its seats, if it sleeps there and may start now.
fn wake_event(object: &Object, event: u32, w: &mut Watch)
    requires there { (e : ℕ) (s : Seat) → IsAt w.old.seats.items e s → IsThere w.old.awake.items s }
    ensures seats { w.new.seats ≡ w.old.seats }
    ensures starters { w.new.starters ≡ w.old.starters }
    ensures woken { AreWoken w.old.awake.items w.new.awake.items }
    ensures seen { (s : Seat) → IsAt w.old.seats.items event s → IsSeen (kept_of object.now) w.new.awake.items event s }
{
    if let Some(seats) = w.seats.get(event as usize) {
        wake_seats(object, event, seats.as_slice(), &mut w.awake);
    }
}

/// Wakes each of these events at each of its seats, if it sleeps there and may start now.
fn wake_events(object: &Object, events: &[u32], w: &mut Watch)
    requires there { (e : ℕ) (s : Seat) → IsAt w.old.seats.items e s → IsThere w.old.awake.items s }
    ensures seats { w.new.seats ≡ w.old.seats }
    ensures starters { w.new.starters ≡ w.old.starters }
    ensures woken { AreWoken w.old.awake.items w.new.awake.items }
    ensures seen { (e : ℕ) (s : Seat) → Contains events.now e → IsAt w.old.seats.items e s
        → IsSeen (kept_of object.now) w.new.awake.items e s }
{
    for event in events {
        wake_event(object, *event, w);
    }
}

/// Wakes what an entry of this deed, which touched the object of this number and after which the objects are these, may make start.
fn wake_starts(deed: &Deed, touched: Option<u32>, objects: &[Object], w: &mut Watch)
    requires there { (e : ℕ) (s : Seat) → IsAt w.old.seats.items e s → IsThere w.old.awake.items s }
    ensures seats { w.new.seats ≡ w.old.seats }
    ensures starters { w.new.starters ≡ w.old.starters }
    ensures woken { AreWoken w.old.awake.items w.new.awake.items }
    ensures starts { (p : Plan) (n : Noted) (t : TaskSet) (cores : List CoreState) (before : List Object)
        → n.entry.deed ≡ deed.now → touched ≡ touched_by p n → IsAfter p before objects.now n
        → AreRoused p n cores w.old.awake.items → AreAnswered p t before objects.now n cores w.old.awake.items
        → AreSeated (tables_of cores) w.old.seats.items → AreWatched p t before cores w.old.awake.items → AreWatched p t objects.now cores w.new.awake.items }
{
    held_starts_lead_nowhere();
    answers_go_by_flags();
    other_entries_wake_nothing();
    if !wakes(deed) {
        return;
    }
    if let Some(number) = touched {
        if let Some(object) = objects.get(number as usize) {
            wake_events(object, woken(object), w);
        }
    }
}

/// Whether an entry of this deed wakes nobody: it takes a value or a mode as it stands, drops a value or enters an area.
fn is_quiet(deed: &Deed) -> bool
    ensures { result ≡ is_quiet deed.now }
{
    match deed {
        Deed::Fetch { .. }
        | Deed::Read { .. }
        | Deed::IsUpdated { .. }
        | Deed::Invalidate { .. }
        | Deed::Receive { .. }
        | Deed::FetchAll { .. }
        | Deed::Enter { .. }
        | Deed::Mode { .. } => true,
        _ => false,
    }
}

/// After such an entry what sleeps may sleep on: no start, phase or answer came by it, and nobody may enter an area who could not before.
fn quiet_entries_wake_nobody()
    ensures { (p : Plan) (n : Noted) (t : TaskSet) (cores : List CoreState) (before later : List Object) (w : Watch)
        → is_quiet n.entry.deed ≡ true → IsAfter p before later n → IsWatch p t before (touched_by p n) cores w → IsWatch p t later None cores w }
{
    held_starts_lead_nowhere();
    answers_go_by_flags();
    other_entries_wake_nothing();
    waiters_sleep_on();
}

/// Wakes what an entry, after which the objects are these, may make come: the next phase of the machine that it touches, the Answer of
/// the caller to whose point it returned, starts, and after a Leave those who may enter the area. The event of a start that may not come
/// again sleeps.
/// `event` is the one that started the activation, for an admission and an end that touch an object.
pub(crate) fn wake_after(
    p: &BusPlan,
    entry: &Entry,
    event: Option<u32>,
    objects: &[Object],
    w: &mut Watch,
)
    requires within { IfSome (touched_by (plan_of p.now) (record { entry = entry.now; event = event })) (IsObject (plan_of p.now)) }
    requires watched { (t : TaskSet) × (cores : List CoreState) × (before : List Object)
        × AreWatched (plan_of p.now) t before cores w.old.awake.items × AreSeated (tables_of cores) w.old.seats.items }
    ensures { (t : TaskSet) (cores : List CoreState) (before : List Object)
        → IsAfter (plan_of p.now) before objects.now (record { entry = entry.now; event = event })
        → IsWatch (plan_of p.now) t before (touched_by (plan_of p.now) (record { entry = entry.now; event = event })) cores w.old
        → IsWatch (plan_of p.now) t objects.now None cores w.new }
{
    if is_quiet(&entry.deed) {
        quiet_entries_wake_nobody();
        return;
    }
    let touched = touched_object(p, entry, event);
    wake_machine(p, touched, &mut w.awake);
    wake_caller(p, touched, objects, w);
    wake_starts(&entry.deed, touched, objects, w);
    wake_waiting(&entry.deed, touched, &mut w.awake);
    rest_started(&entry.deed, touched, objects, w);
}

/// Wakes what a tick of the clock, which is the object of this number and after which the objects are these, made due (SWS_RTE:
/// TimingEvent). It wakes no machine, no caller and nobody who waits at an area, since a tick touches none of their objects.
pub(crate) fn wake_ticked(number: u32, objects: &[Object], w: &mut Watch)
    requires there { (e : ℕ) (s : Seat) → IsAt w.old.seats.items e s → IsThere w.old.awake.items s }
    ensures { (p : Plan) (t : TaskSet) (cores : List CoreState) (before : List Object) → number ≡ clock p
        → IsAfter p before objects.now (record { entry = tick_of_env; event = None })
        → IsWatch p t before (Some (clock p)) cores w.old → IsWatch p t objects.now None cores w.new }
{
    waiters_sleep_on();
    wake_starts(&Deed::Tick, Some(number), objects, w);
}
