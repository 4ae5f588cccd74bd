//! The memory of a round, and how its seats are given.

ghost use Rattle.std.specs.Prelude.{◌≡◌, ◌≤◌, ◌<◌, ◌^◌, ℕ, suc, [], IfOk};
ghost use Rattle.std.specs.Vec.{vec_capacity};
ghost use Rattle.cross_core_table.specs.Plays.{first_view};
ghost use Rattle.cross_core_table.specs.Opened.{HasSpace, AreRooms, AreGiven};

use crate::plays::Give;
use crate::seats::CoreSeat;
use crate::space::Space;
use crate::spare::Spare;
use crate::steps::{Place, Top, place_of};
use bus_semantics::Stamped;
use port_objects::{Memory, Object};
use std::alloc::Global;

/// Takes the memory of a round with so many objects and cores, and room for so many entries of each core. Spare room is used
/// first.
pub(crate) fn take_space(
    alloc: Global,
    objects: usize,
    cores: u32,
    room: u32,
    spare: Spare,
) -> Result<Space, Memory>
    requires { (objects < 2 ^ 32) × (cores ≤ 8) }
    ensures { IfOk result (HasSpace objects cores room) }
{
    let Spare {
        entries: list,
        rooms: lists,
    } = spare;
    let words = Vec::from_elem(alloc, 0u64, place_of(objects))?;
    let seats = Vec::with_capacity(alloc, cores as usize)?;
    let entries = emptied(list, cores as usize * room as usize)?;
    let returned = Vec::with_capacity(alloc, objects)?;
    let rooms = take_rooms(alloc, cores, room, lists)?;
    Ok(Space {
        words,
        rooms,
        seats,
        entries,
        returned,
    })
}

/// Makes a list empty, with room for so many entries.
fn emptied(list: Vec<Stamped>, room: usize) -> Result<Vec<Stamped>, Memory>
    ensures { IfOk result (λ v. (v.items ≡ []) × (room ≤ vec_capacity v)) }
{
    let mut list = list;
    list.clear();
    list.reserve(room)?;
    Ok(list)
}

/// Takes room for so many entries of a core, in the last spare list if there is one.
fn take_room(
    alloc: Global,
    spare: &mut Vec<Vec<Stamped>>,
    room: u32,
) -> Result<Vec<Stamped>, Memory>
    ensures { IfOk result (λ v. (v.items ≡ []) × (room ≤ vec_capacity v)) }
{
    match spare.pop() {
        Some(list) => emptied(list, room as usize),
        None => Vec::with_capacity(alloc, room as usize),
    }
}

/// Takes room for so many entries of each core, in spare lists as far as there are some.
fn take_rooms(
    alloc: Global,
    cores: u32,
    room: u32,
    spare: Vec<Vec<Stamped>>,
) -> Result<Vec<Vec<Stamped>>, Memory>
    ensures rooms { IfOk result (λ v. AreRooms cores room v.items) }
    ensures space { IfOk result (λ v. cores ≤ vec_capacity v) }
{
    let mut spare = spare;
    let mut rooms = Vec::with_capacity(alloc, cores as usize)?;
    for _core in 0..cores {
        let made = take_room(alloc, &mut spare, room)?;
        rooms.push_reserved(made);
    }
    Ok(rooms)
}

/// Gives a seat to each core: the first one is that of core 0, and gives the others.
pub(crate) fn give_seats(
    top: &Top,
    first: Place,
    rooms: &mut Vec<Vec<Stamped>>,
    seats: &mut Vec<CoreSeat>,
    cores: u32,
)
    requires table { first.table_id ≡ top.now.table_id }
    requires words { 0 < top.now.table_id.words }
    requires seat { first.me ≡ (first_view top.now.key, []) }
    requires cores { (1 ≤ cores) × (cores ≤ 8) }
    requires rooms { AreRooms cores top.now.key.room rooms.old.items }
    requires seats { (seats.old.items ≡ []) × (cores ≤ vec_capacity seats.old) }
    ensures rooms { (rooms.new.items ≡ []) × (vec_capacity rooms.new ≡ vec_capacity rooms.old) }
    ensures seats { AreGiven top.now.table_id top.now.key cores seats.new.items }
{
    let Some(made) = rooms.pop() else {
        unreachable!()
    };
    seats.push_reserved(CoreSeat {
        place: first,
        made,
        core: 0,
    });
    for core in 1..cores {
        let Some(made) = rooms.pop() else {
            unreachable!()
        };
        give_next(top, seats, made, core);
    }
}

/// Gives the next core its seat.
fn give_next(top: &Top, seats: &mut Vec<CoreSeat>, made: Vec<Stamped>, core: u32)
    requires words { 0 < top.now.table_id.words }
    requires core { (1 ≤ core) × (core < 8) }
    requires seats { AreGiven top.now.table_id top.now.key core seats.old.items }
    requires space { core < vec_capacity seats.old }
    requires made { (made.items ≡ []) × (top.now.key.room ≤ vec_capacity made) }
    ensures seats { AreGiven top.now.table_id top.now.key (suc core) seats.new.items }
    ensures space { vec_capacity seats.new ≡ vec_capacity seats.old }
{
    let place = top.split_seat::<Give>(&mut seats[0].place);
    seats.push_reserved(CoreSeat { place, made, core });
}
