//! How cores get their seats, and how they are taken apart again.

ghost use Rattle.std.specs.Prelude.{◌≡◌, ◌≤◌, ◌<◌, ◌++◌, [], length, map};
ghost use Rattle.bus_semantics.specs.Common.{flat_map, vec_capacity};
ghost use Rattle.live_lanes.specs.Lanes.{core_in, seats_in, with_seat};
ghost use Rattle.live_lanes.specs.Workers.{AreCores, lane_in};

use crate::lanes::Lane;
use crate::workers::Worker;
use core_turn::Core;
use cross_core_table::CoreSeat;
use crossbeam_utils::sync::Parker;

/// A lane for each core, with the seat and the parker at the core's place.
pub(crate) fn seat_all(
    cores: Vec<Core>,
    seats: Vec<CoreSeat>,
    parkers: Vec<Parker>,
    workers: Vec<Worker>,
) -> Vec<Worker>
    requires seats { length seats.items ≡ length cores.items }
    requires parkers { length parkers.items ≡ length cores.items }
    requires empty { workers.items ≡ [] }
    requires space { length cores.items ≤ vec_capacity workers }
    ensures cores { AreCores cores.items seats.items result.items }
    ensures space { vec_capacity result ≡ vec_capacity workers }
{
    let mut workers = workers;
    let mut seats = seats.into_iter();
    let mut parkers = parkers.into_iter();
    for core in cores {
        let Some(seat) = seats.next() else {
            unreachable!()
        };
        let Some(parker) = parkers.next() else {
            unreachable!()
        };
        workers.push_reserved(Worker::Core(Lane {
            core,
            seat: Some(seat),
            parker,
        }));
    }
    workers
}

/// Adds a seat, if there is one.
pub(crate) fn keep(seats: &mut Vec<CoreSeat>, seat: Option<CoreSeat>)
    requires { length seats.old.items < vec_capacity seats.old }
    ensures items { seats.new.items ≡ seats.old.items ++ with_seat seat [] }
    ensures capacity { vec_capacity seats.new ≡ vec_capacity seats.old }
{
    match seat {
        Some(seat) => seats.push_reserved(seat),
        None => {}
    }
}

/// Adds a core and its seat, if this is a core.
fn part(worker: Worker, cores: &mut Vec<Core>, seats: &mut Vec<CoreSeat>)
    requires cores { length cores.old.items < vec_capacity cores.old }
    requires seats { length seats.old.items < vec_capacity seats.old }
    ensures cores { cores.new.items ≡ cores.old.items ++ map core_in (lane_in worker) }
    ensures seats { seats.new.items ≡ seats.old.items ++ seats_in (lane_in worker) }
    ensures cores_space { vec_capacity cores.new ≡ vec_capacity cores.old }
    ensures seats_space { vec_capacity seats.new ≡ vec_capacity seats.old }
{
    match worker {
        Worker::Core(lane) => {
            let Lane {
                core,
                seat,
                parker: _,
            } = lane;
            cores.push_reserved(core);
            keep(seats, seat);
        }
        Worker::Pump(_) => {}
        Worker::Feeder(_) => {}
    }
}

/// The cores and the seats of these, in their order.
pub(crate) fn part_all(workers: Vec<Worker>, cores: &mut Vec<Core>, seats: &mut Vec<CoreSeat>)
    requires cores { (cores.old.items ≡ []) × (length workers.items ≤ vec_capacity cores.old) }
    requires seats { (seats.old.items ≡ []) × (length workers.items ≤ vec_capacity seats.old) }
    ensures cores { cores.new.items ≡ map core_in (flat_map lane_in workers.items) }
    ensures seats { seats.new.items ≡ seats_in (flat_map lane_in workers.items) }
    ensures space { vec_capacity seats.new ≡ vec_capacity seats.old }
{
    for worker in workers {
        part(worker, cores, seats);
    }
}
