//! How a round is closed.

ghost use Rattle.std.specs.Prelude.{◌≡◌, ◌≤◌, ◌<◌, ◌++◌, List, [], ◌∷◌, length, map, Some};
ghost use Rattle.std.specs.Vec.{vec_capacity};
ghost use Rattle.cross_core_table.specs.declared.seats.CoreSeat.{CoreSeat};
ghost use Rattle.cross_core_table.specs.Seats.{IsSeatOf, AreSeatsOf, made_of};
ghost use Rattle.cross_core_table.specs.Closing.{IsClosed};
ghost use Rattle.cross_core_table.specs.Taking.{round_at, TakenIn};
ghost use Rattle.cross_core_table.specs.Ordering.{items_of};
ghost use Rattle.std.specs.Slots.{slots_items, slots_len, IsFull};

use crate::laws::rounds_end_whole;
use crate::ordering::in_order;
use crate::plays::TakeIn;
use crate::round::Round;
use crate::seats::CoreSeat;
use crate::steps::{Place, Top};
use bus_semantics::Stamped;
use port_objects::Object;
use std::alloc::Global;

/// What a closed round gives back.
#[derive(Drop)]
pub struct Closed {
    /// The objects, each at its number.
    pub objects: Vec<Object>,
    /// What all cores made, in order of stamps.
    pub entries: Vec<Stamped>,
    /// The lists of the cores, whose room a later round may take.
    pub rooms: Vec<Vec<Stamped>>,
}

/// Takes in each seat of a round by the first one, and keeps what each core made.
fn take_in_all(
    top: &Top,
    seats: Vec<CoreSeat>,
    parts: &mut Vec<Vec<Stamped>>,
    cores: u32,
) -> Option<Place>
    requires words { 0 < top.now.table_id.words }
    requires seats { AreSeatsOf (round_at top.now.table_id top.now.key cores) seats.items }
    requires parts { (parts.old.items ≡ []) × (cores ≤ vec_capacity parts.old) }
    ensures taken { TakenIn (round_at top.now.table_id top.now.key cores) seats.items result }
    ensures parts { items_of parts.new.items ≡ map made_of seats.items }
{
    let mut first = None;
    for seat in seats {
        first = Some(take_in(top, first, seat, parts, cores));
    }
    first
}

/// Takes in one seat by the first, or makes it the first, and keeps what its core made.
fn take_in(
    top: &Top,
    first: Option<Place>,
    seat: CoreSeat,
    parts: &mut Vec<Vec<Stamped>>,
    cores: u32,
) -> Place
    requires words { 0 < top.now.table_id.words }
    requires taken { (done : List CoreSeat) × TakenIn (round_at top.now.table_id top.now.key cores) done first × IsSeatOf (round_at top.now.table_id top.now.key cores) (length done) seat × (length done < cores) }
    requires space { length parts.old.items < vec_capacity parts.old }
    ensures taken { (done : List CoreSeat) → TakenIn (round_at top.now.table_id top.now.key cores) done first → IsSeatOf (round_at top.now.table_id top.now.key cores) (length done) seat
        → TakenIn (round_at top.now.table_id top.now.key cores) (done ++ seat ∷ []) (Some result) }
    ensures parts { items_of parts.new.items ≡ items_of parts.old.items ++ made_of seat ∷ [] }
    ensures space { vec_capacity parts.new ≡ vec_capacity parts.old }
{
    let CoreSeat {
        place,
        made,
        core: _,
    } = seat;
    parts.push_reserved(made);
    match first {
        None => place,
        Some(mut first) => {
            top.join_seat::<TakeIn>(&mut first, place);
            first
        }
    }
}

impl Round {
    /// Closes a round, with all its seats in the order of their cores: gives back the objects, and what the cores made, in order of
    /// stamps. It takes no memory. The entries are an interleaving of what each core made. Whatever entries an object stood for at
    /// the opening, it stands for these and its entries of the round, each of which is what the bus answers after those before it.
    pub fn close(self, seats: Vec<CoreSeat>) -> Closed
        requires seats { AreSeatsOf self seats.items }
        ensures { IsClosed self.opening (map made_of seats.items) result.objects.items result.entries.items }
    {
        rounds_end_whole();
        let Round {
            table,
            entries,
            mut rooms,
            returned,
            cores,
        } = self;
        let Some(first) = take_in_all(&table.shared, seats, &mut rooms, cores) else {
            unreachable!()
        };
        let closed = table.close_with(first);
        let count = closed.word(0) as usize;
        let entries = in_order(entries, rooms.as_slice(), count);
        Closed {
            objects: take_objects(closed, returned),
            entries,
            rooms,
        }
    }
}

/// The objects of a table that was closed, each at its number, put into a list that has room for them.
fn take_objects(closed: atomic_table::Closed<Object, Global>, objects: Vec<Object>) -> Vec<Object>
    requires full { IsFull closed.slots }
    requires empty { objects.items ≡ [] }
    requires space { slots_len closed.slots ≤ vec_capacity objects }
    ensures { result.items ≡ slots_items closed.slots }
{
    let mut closed = closed;
    let mut objects = objects;
    for i in 0..closed.slot_count() {
        objects.push_reserved(closed.take(i));
    }
    closed.free();
    objects
}
