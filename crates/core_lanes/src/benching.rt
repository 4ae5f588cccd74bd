//! How cores get their seats, and how they are taken apart again.

ghost use Rattle.std.specs.Prelude.{◌≡◌, ◌≤◌, ◌<◌, ◌++◌, [], length, map};
ghost use Rattle.std.specs.Vec.{vec_capacity};
ghost use Rattle.core_lanes.specs.Guiding.{AreFitting, AreRooms};
ghost use Rattle.core_lanes.specs.Lanes.{lanes_of, core_in, with_seat, seats_in};

use crate::guided::Guided;
use crate::lanes::Lane;
use crate::stay::Stay;
use bus_semantics::Stamped;
use core_turn::{Awake, Core};
use cross_core_table::CoreSeat;

/// A lane for each core, with what of it may step, room for an entry and the seat, each at the core's place.
pub(crate) fn seat_all(
    cores: Vec<Core>,
    awake: Vec<Awake>,
    rooms: Vec<Vec<Stamped>>,
    seats: Vec<CoreSeat>,
    lanes: Vec<Lane>,
) -> Vec<Lane>
    requires fit { AreFitting cores.items awake.items }
    requires rooms { AreRooms (length cores.items) rooms.items }
    requires empty { lanes.items ≡ [] }
    requires space { length cores.items ≤ vec_capacity lanes }
    ensures { result.items ≡ lanes_of cores.items seats.items }
{
    let mut lanes = lanes;
    let mut awake = awake.into_iter();
    let mut rooms = rooms.into_iter();
    let mut seats = seats.into_iter();
    for core in cores {
        let Some(flags) = awake.next() else {
            unreachable!()
        };
        let Some(room) = rooms.next() else {
            unreachable!()
        };
        let core = Guided::of(core, flags, room);
        let seat = seats.next();
        lanes.push_reserved(Lane {
            core,
            seat,
            stay: Stay::new(),
        });
    }
    lanes
}

/// Adds a seat, if there is one.
fn keep(seats: &mut Vec<CoreSeat>, seat: Option<CoreSeat>)
    requires { length seats.old.items < vec_capacity seats.old }
    ensures items { seats.new.items ≡ seats.old.items ++ with_seat seat [] }
    ensures capacity { vec_capacity seats.new ≡ vec_capacity seats.old }
{
    match seat {
        Some(seat) => seats.push_reserved(seat),
        None => {}
    }
}

/// The cores of these lanes, what of them may step, and the seats, in their order.
pub(crate) fn part_all(
    lanes: Vec<Lane>,
    cores: &mut Vec<Core>,
    awake: &mut Vec<Awake>,
    seats: &mut Vec<CoreSeat>,
)
    requires cores { (cores.old.items ≡ []) × (length lanes.items ≤ vec_capacity cores.old) }
    requires awake { (awake.old.items ≡ []) × (length lanes.items ≤ vec_capacity awake.old) }
    requires seats { (seats.old.items ≡ []) × (length lanes.items ≤ vec_capacity seats.old) }
    ensures cores { cores.new.items ≡ map core_in lanes.items }
    ensures fit { AreFitting cores.new.items awake.new.items }
    ensures seats { seats.new.items ≡ seats_in lanes.items }
{
    for lane in lanes {
        let Lane {
            core,
            seat,
            stay: _,
        } = lane;
        let (core, flags) = core.into_parts();
        cores.push_reserved(core);
        awake.push_reserved(flags);
        keep(seats, seat);
    }
}
