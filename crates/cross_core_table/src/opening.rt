//! How a round is opened.

ghost use Rattle.std.specs.Prelude.{◌≡◌, ◌≤◌, length};
ghost use Rattle.bus_semantics.specs.Plan.{plan_of};
ghost use Rattle.port_objects.specs.Common.{ArePlans, HasObjects};
ghost use Rattle.cross_core_table.specs.Opened.{HasSpace};
ghost use Rattle.cross_core_table.specs.Openings.{Opens};

use crate::giving::{give_seats, take_space};
use crate::opened::Opened;
use crate::round::Round;
use crate::space::Space;
use crate::spare::Spare;
use crate::views::Opening;
use atomic_table::{Refused, Table};
use bus_semantics::BusPlan;
use port_objects::Object;
use std::alloc::Global;
use std::snapshot::Snapshot;

impl Round {
    /// Opens a round of 1 to 8 cores over the objects of a plan, each at its number, with room for so many entries of each core. This
    /// takes all memory of the round, what is spare before any other. If there is no memory, what is spare is freed. The objects
    /// then come back unchanged. That no later call of a round takes memory is read in the code: each list has the room that its
    /// invariant tells, and what is pushed is pushed into that.
    pub fn open(
        alloc: Global,
        p: &BusPlan,
        objects: Vec<Object>,
        cores: u32,
        room: u32,
        spare: Spare,
    ) -> Opened
        requires sound { HasObjects (plan_of p.now) }
        requires planned { ArePlans (plan_of p.now) objects.items }
        requires cores { (1 ≤ cores) × (cores ≤ 8) }
        ensures { Opens (plan_of p.now) objects.items cores room result }
    {
        let _objects = p.objects;
        match take_space(alloc, objects.len(), cores, room, spare) {
            Ok(space) => open_in(alloc, p, objects, cores, room, space),
            Err(_) => Opened::Memory(objects),
        }
    }
}

/// Opens a round in memory that was taken for it.
fn open_in(
    alloc: Global,
    p: &BusPlan,
    objects: Vec<Object>,
    cores: u32,
    room: u32,
    space: Space,
) -> Opened
    requires sound { HasObjects (plan_of p.now) }
    requires planned { ArePlans (plan_of p.now) objects.items }
    requires cores { (1 ≤ cores) × (cores ≤ 8) }
    requires space { HasSpace (length objects.items) cores room space }
    ensures { Opens (plan_of p.now) objects.items cores room result }
{
    let opening = Opening {
        plan: Snapshot::of(p),
        objects: Snapshot::of(&objects),
        room,
    };
    let Space {
        words,
        mut rooms,
        mut seats,
        entries,
        returned,
    } = space;
    match Table::new(alloc, words.as_slice(), objects, &opening) {
        Ok((table, first)) => {
            give_seats(&table.shared, first, &mut rooms, &mut seats, cores);
            Opened::Ready(
                Round {
                    table,
                    entries,
                    rooms,
                    returned,
                    cores,
                },
                seats,
            )
        }
        Err(Refused { slots }) => Opened::Memory(slots),
    }
}
