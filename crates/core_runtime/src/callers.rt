//! What an entry wakes of the activations that wait for answers.

ghost use Rattle.std.specs.Prelude.{◌≡◌, ℕ, List, true, Some, slice_get};
ghost use Rattle.bus_semantics.specs.Common.{Contains, Noted, touched_by, plan_of, caller_of};
ghost use Rattle.port_objects.specs.declared.object.Object.{Object};
ghost use Rattle.task_machine.specs.declared.instr.TaskSet.{TaskSet};
ghost use Rattle.core_turn.specs.Cores.{CoreState};
ghost use Rattle.core_runtime.specs.Watching.{AreAnswered, AreSeated, AreStarters, AreWoken, IsAt, IsListed, IsThere, IsUp, tables_of};

use crate::seats::Seat;
use crate::watch::Watch;
use bus_semantics::BusPlan;
use core_turn::Awake;
use port_objects::{Object, heard};

/// Wakes the slot of a seat.
fn rouse_seat(seat: &Seat, awake: &mut Vec<Awake>)
    requires there { IsThere awake.old.items seat.now }
    ensures woken { AreWoken awake.old.items awake.new.items }
    ensures up { IsUp awake.new.items seat.now }
{
    awake[seat.core].rouse(seat.slot);
}

/// Wakes the slots of these seats.
fn rouse_seats(seats: &[Seat], awake: &mut Vec<Awake>)
    requires there { (k : ℕ) (s : Seat) → slice_get seats.now k ≡ Some s → IsThere awake.old.items s }
    ensures woken { AreWoken awake.old.items awake.new.items }
    ensures up { (k : ℕ) (s : Seat) → slice_get seats.now k ≡ Some s → IsUp awake.new.items s }
{
    for seat in seats {
        rouse_seat(seat, awake);
    }
}

/// Wakes the slots in which an event stands.
fn rouse_event(seats: &[Vec<Seat>], event: u32, awake: &mut Vec<Awake>)
    requires there { (e : ℕ) (s : Seat) → IsAt seats.now e s → IsThere awake.old.items s }
    ensures woken { AreWoken awake.old.items awake.new.items }
    ensures up { (s : Seat) → IsAt seats.now event s → IsUp awake.new.items s }
{
    if let Some(row) = seats.get(event as usize) {
        rouse_seats(row.as_slice(), awake);
    }
}

/// Wakes the slots in which one of these events stands.
pub(crate) fn rouse_events(seats: &[Vec<Seat>], events: &[u32], awake: &mut Vec<Awake>)
    requires there { (e : ℕ) (s : Seat) → IsAt seats.now e s → IsThere awake.old.items s }
    ensures woken { AreWoken awake.old.items awake.new.items }
    ensures up { (e : ℕ) (s : Seat) → Contains events.now e → IsAt seats.now e s → IsUp awake.new.items s }
{
    for event in events {
        rouse_event(seats, *event, awake);
    }
}

/// The runnable that calls at a point.
fn caller_of(p: &BusPlan, point: u32) -> Option<u32>
    ensures { result ≡ caller_of (plan_of p.now) point }
{
    match p.points.items().get(point as usize) {
        Some(plan) => plan.runnable,
        None => None,
    }
}

/// Wakes the caller at a point: each slot in which an event of its runnable stands.
fn rouse_caller(p: &BusPlan, point: u32, w: &mut Watch)
    requires there { (e : ℕ) (s : Seat) → IsAt w.old.seats.items e s → IsThere w.old.awake.items s }
    ensures seats { w.new.seats ≡ w.old.seats }
    ensures starters { w.new.starters ≡ w.old.starters }
    ensures woken { AreWoken w.old.awake.items w.new.awake.items }
    ensures up { (runnable event : ℕ) (s : Seat) → caller_of (plan_of p.now) point ≡ Some runnable → IsListed w.old.starters.items runnable event
        → IsAt w.old.seats.items event s → IsUp w.new.awake.items s }
{
    if let Some(runnable) = caller_of(p, point) {
        if let Some(events) = w.starters.get(runnable as usize) {
            rouse_events(w.seats.as_slice(), events.as_slice(), &mut w.awake);
        }
    }
}

/// Wakes the caller to whose point an entry returned that touched the object of this number, after which the objects are these
/// (SWS_RTE: Rte_Call).
pub(crate) fn wake_caller(p: &BusPlan, touched: Option<u32>, objects: &[Object], w: &mut Watch)
    requires there { (e : ℕ) (s : Seat) → IsAt w.old.seats.items e s → IsThere w.old.awake.items s }
    ensures seats { w.new.seats ≡ w.old.seats }
    ensures starters { w.new.starters ≡ w.old.starters }
    ensures woken { AreWoken w.old.awake.items w.new.awake.items }
    ensures answered { (n : Noted) (t : TaskSet) (cores : List CoreState) (before : List Object) → touched ≡ touched_by (plan_of p.now) n → AreSeated (tables_of cores) w.old.seats.items
        → AreStarters (plan_of p.now) w.old.starters.items → AreAnswered (plan_of p.now) t before objects.now n cores w.new.awake.items }
{
    if let Some(number) = touched {
        if let Some(object) = objects.get(number as usize) {
            if let Some(point) = heard(object) {
                rouse_caller(p, point, w);
            }
        }
    }
}
