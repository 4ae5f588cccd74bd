//! Where the cores of a node look first, if they run at the same time.

use crate::Memory;
use crate::seats::Seat;
use crate::watch::Watch;
use bus_semantics::{BusPlan, EventKind, PointPlan};
use core_lanes::{Guesses, Spot};
use core_turn::Core;
use std::alloc::Global;

/// The object of a server: those of servers stand behind those of bundles.
fn server_object(p: &BusPlan, server: u32) -> usize {
    p.bundles.len().saturating_add(server as usize)
}

/// The object of a mode machine: those of machines stand behind those of bundles, servers and areas.
fn machine_object(p: &BusPlan, machine: usize) -> usize {
    let before = p.bundles.len().saturating_add(p.servers.len());
    let first = before.saturating_add(p.areas.len());
    first.saturating_add(machine)
}

/// The object of the server to which a point is joined, if it is joined to one.
fn called_object(p: &BusPlan, point: &PointPlan) -> Option<usize> {
    match point.server {
        Some(server) => Some(server_object(p, server)),
        None => None,
    }
}

/// The object at which another core may make an entry that starts an event of this kind. A tick comes before a round, and an InitEvent at the
/// start, so no core tells of them. An event that a return starts is heard of by its point.
fn starting_object(p: &BusPlan, kind: &EventKind) -> Option<usize> {
    match kind {
        EventKind::Timing(_) | EventKind::Init | EventKind::Returns(_) => None,
        EventKind::DataReceived(element) => match p.bundle_of(*element) {
            Some(bundle) => Some(bundle as usize),
            None => None,
        },
        EventKind::Invoked(server) => Some(server_object(p, *server)),
        EventKind::ModeSwitch { machine, .. } | EventKind::Ack(machine) => {
            Some(machine_object(p, *machine as usize))
        }
    }
}

/// The spot of an event.
fn spot_of(seat: &Seat) -> Spot {
    Spot {
        core: seat.core,
        slot: seat.slot,
        place: Some(seat.place),
    }
}

/// Adds the places of an event to those of an object. The only error, as in what follows, is that there is no memory.
fn add_event(guesses: &mut Guesses, object: usize, seats: &[Seat]) -> Result<(), Memory> {
    for seat in seats {
        guesses.add(object, spot_of(seat))?;
    }
    Ok(())
}

/// Adds the places of an event to those of a point.
fn add_at_point(guesses: &mut Guesses, point: usize, seats: &[Seat]) -> Result<(), Memory> {
    for seat in seats {
        guesses.add_at_point(point, spot_of(seat))?;
    }
    Ok(())
}

/// Adds the places of each event to those of the object that starts it, or of the point whose return does, and of the machine in whose modes it
/// is disabled.
fn add_starts(guesses: &mut Guesses, p: &BusPlan, w: &Watch) -> Result<(), Memory> {
    let events = p.events.items();
    for number in 0..events.len().min(w.seats.len()) {
        let event = &events[number];
        let seats = w.seats[number].as_slice();
        guesses.place_event(seats.first().map(spot_of))?;
        if let Some(object) = starting_object(p, &event.kind) {
            add_event(guesses, object, seats)?;
        }
        if let EventKind::Returns(point) = &event.kind {
            add_at_point(guesses, *point as usize, seats)?;
        }
        if let Some(disabling) = &event.disabled {
            add_event(
                guesses,
                machine_object(p, disabling.machine as usize),
                seats,
            )?;
        }
    }
    Ok(())
}

/// Adds the places of each of these events to those of a point.
fn add_events(
    guesses: &mut Guesses,
    point: usize,
    seats: &[Vec<Seat>],
    events: &[u32],
) -> Result<(), Memory> {
    for event in events {
        if let Some(seats) = seats.get(*event as usize) {
            add_at_point(guesses, point, seats.as_slice())?;
        }
    }
    Ok(())
}

/// Adds to a point, whose number is this, the events that start the caller (SWS_RTE: Rte_Call).
fn add_caller(
    guesses: &mut Guesses,
    number: usize,
    point: &PointPlan,
    w: &Watch,
) -> Result<(), Memory> {
    let Some(caller) = point.runnable else {
        return Ok(());
    };
    match w.starters.get(caller as usize) {
        Some(events) => add_events(guesses, number, w.seats.as_slice(), events.as_slice()),
        None => Ok(()),
    }
}

/// Adds so the callers at all points, each of which is told where its server is.
fn add_callers(alloc: Global, guesses: &mut Guesses, p: &BusPlan, w: &Watch) -> Result<(), Memory> {
    let points = p.points.items();
    for number in 0..points.len() {
        let point = &points[number];
        guesses.place_point(alloc, called_object(p, point))?;
        add_caller(guesses, number, point, w)?;
    }
    Ok(())
}

/// Tells of each mode machine its place behind the tasks of core 0, which has so many slots (SWS_RTE: mode switch procedure).
fn set_machines(guesses: &mut Guesses, p: &BusPlan, slots: usize) {
    let tasks = slots.saturating_sub(p.machines.len());
    for machine in 0..p.machines.len() {
        let spot = Spot {
            core: 0,
            slot: tasks.saturating_add(machine),
            place: None,
        };
        guesses.set_machine(machine_object(p, machine), spot);
    }
}

/// Adds the places of all that may start, of those who call, and of the mode machines.
fn add_all(
    alloc: Global,
    guesses: &mut Guesses,
    p: &BusPlan,
    cores: &[Core],
    w: &Watch,
) -> Result<(), Memory> {
    add_callers(alloc, guesses, p, w)?;
    add_starts(guesses, p, w)?;
    if let Some(first) = cores.first() {
        set_machines(guesses, p, first.slots());
    }
    Ok(())
}

/// For each object the places of the events that an entry at the object may start, and of the mode machine that it is, and for each call
/// point those of the caller and of the events that a return starts; none for a single core, whose turns are watched. The only error is that there is no memory.
pub(crate) fn guesses_of(
    alloc: Global,
    p: &BusPlan,
    cores: &[Core],
    w: &Watch,
) -> Result<Guesses, Memory> {
    if cores.len() == 1 {
        return Guesses::none(alloc, 0, 0, 0);
    }
    let points = p.points.items().len();
    let mut guesses = Guesses::none(alloc, cores.len(), p.objects as usize, points)?;
    match add_all(alloc, &mut guesses, p, cores, w) {
        Ok(()) => Ok(guesses),
        Err(memory) => {
            drop(guesses);
            Err(memory)
        }
    }
}
