//! Turns of several cores at the same time.

ghost use Rattle.std.specs.Prelude.{◌≡◌, ◌≤◌, List, IfOk, length};
ghost use Rattle.bus_semantics.specs.declared.script.Mapping.{Mapping};
ghost use Rattle.bus_semantics.specs.Plan.{plan_of};
ghost use Rattle.port_objects.specs.declared.object.Object.{Object};
ghost use Rattle.port_objects.specs.Common.{ArePlans, HasObjects};
ghost use Rattle.task_generator.specs.Promise.{AsksAsPlanned};
ghost use Rattle.core_lanes.specs.Guiding.{AreFitting};
ghost use Rattle.core_lanes.specs.Rooms.{HaveRoom};
ghost use Rattle.core_lanes.specs.Together.{AllReady, HasPlaces, HasBegun, HasRun, RunTogether};

use crate::benching::{part_all, seat_all};
use crate::guesses::Guesses;
use crate::guided::rooms_of;
use crate::lanes::{Lane, go_all};
use crate::laws::rounds_on_threads_keep_the_law;
use bus_semantics::{BusPlan, Stamped};
use core_turn::{Awake, Core};
use cross_core_table::{CoreSeat, Opened, Round, Spare};
use port_objects::Object;
use rte_text::Gate;
use std::alloc::{AllocError, Global};
use std::thread::Threads;
use task_machine::TaskSet;

/// What turns change: cores and objects, each at its number, what of each core may step, as far as it is known, and the room that one
/// round leaves for the next.
#[derive(Drop)]
pub struct Changing {
    pub cores: Vec<Core>,
    pub objects: Vec<Object>,
    pub awake: Vec<Awake>,
    pub spare: Spare,
}

/// What came of turns of cores at the same time.
#[derive(Drop)]
pub enum Together {
    /// They made their turns. The cores and the objects as they are now, and what was made, in order of stamps. Its list is spare
    /// for the next round once it has been read.
    Ran(Changing, Vec<Stamped>),
    /// There was no memory, and no core made a turn. These are the cores and the objects, unchanged. What was spare may be freed.
    Memory(Changing),
}

/// Room for the entry of each core's turn, for the lanes of a round, and for its cores and seats when they are taken apart.
#[derive(Drop)]
pub(crate) struct Places {
    pub rooms: Vec<Vec<Stamped>>,
    pub lanes: Vec<Lane>,
    pub cores: Vec<Core>,
    pub awake: Vec<Awake>,
    pub seats: Vec<CoreSeat>,
    /// Without room: what a round leaves in place of the list that it gives away.
    pub entries: Vec<Stamped>,
}

/// Cores with a round that is open, in which none has made a turn.
#[derive(Drop)]
pub(crate) struct Begun {
    pub round: Round,
    pub seats: Vec<CoreSeat>,
    pub cores: Vec<Core>,
    pub awake: Vec<Awake>,
    pub places: Places,
}

/// Takes room for so many cores.
fn take_places(alloc: Global, count: usize) -> Result<Places, AllocError>
    requires { count ≤ 8 }
    ensures { IfOk result (HasPlaces count) }
{
    let rooms = rooms_of(alloc, count)?;
    let lanes = Vec::with_capacity(alloc, count)?;
    let cores = Vec::with_capacity(alloc, count)?;
    let awake = Vec::with_capacity(alloc, count)?;
    let seats = Vec::with_capacity(alloc, count)?;
    Ok(Places {
        rooms,
        lanes,
        cores,
        awake,
        seats,
        entries: Vec::new(alloc),
    })
}

/// Cores, 1 to 8 and each at its number, make turns at the same time over the objects of a plan: each in a thread of its own, by its
/// seat of a round, until it leaves, after 1,024 entries of its own or 64 turns in a row without one. A core passes the gate before
/// each turn. All memory is taken before the round is open. What of a core may step is a guess, as it comes and as it goes back, and
/// `guesses` tells what wakes of it. For every history for which
/// the cores and the objects were lawful, they are lawful for it and the entries made, which come in order of stamps. None of
/// these is the environment's, and each core has room again for an entry. If there was no memory, no core made a turn, and cores
/// and objects are unchanged.
pub fn run_together<R: Threads + Sync, G: Gate>(
    rt: &R,
    alloc: Global,
    p: &BusPlan,
    t: &TaskSet,
    changing: Changing,
    guesses: &Guesses,
    gate: &G,
) -> Together
    requires count { (1 ≤ length changing.cores.items) × (length changing.cores.items ≤ 8) }
    requires sound { HasObjects (plan_of p.now) }
    requires planned { ArePlans (plan_of p.now) changing.objects.items }
    requires bodies { AsksAsPlanned (plan_of p.now) t.now }
    requires ready { (m : Mapping) × AllReady (plan_of p.now) m t.now changing.cores.items }
    requires room { HaveRoom changing.cores.items }
    requires fit { AreFitting changing.cores.items changing.awake.items }
    ensures { RunTogether (plan_of p.now) t.now changing result }
{
    let places = match take_places(alloc, changing.cores.len()) {
        Ok(places) => places,
        Err(_) => return Together::Memory(changing),
    };
    let Changing {
        cores,
        objects,
        awake,
        spare,
    } = changing;
    match Round::open(alloc, p, objects, cores.len() as u32, 1024, spare) {
        Opened::Ready(round, seats) => {
            let begun = Begun {
                round,
                seats,
                cores,
                awake,
                places,
            };
            let (changing, entries) = run_begun(rt, p, t, begun, guesses, gate);
            Together::Ran(changing, entries)
        }
        Opened::Memory(objects) => Together::Memory(Changing {
            cores,
            objects,
            awake,
            spare: Spare::none(alloc),
        }),
    }
}

/// The cores of a round that is open make their turns, and the round is closed. It takes no memory, and has no allocator.
fn run_begun<R: Threads + Sync, G: Gate>(
    rt: &R,
    p: &BusPlan,
    t: &TaskSet,
    begun: Begun,
    guesses: &Guesses,
    gate: &G,
) -> (Changing, Vec<Stamped>)
    requires count { (1 ≤ length begun.cores.items) × (length begun.cores.items ≤ 8) }
    requires begun { (objects : List Object) × HasBegun (plan_of p.now) objects begun × ArePlans (plan_of p.now) objects }
    requires bodies { AsksAsPlanned (plan_of p.now) t.now }
    requires ready { (m : Mapping) × AllReady (plan_of p.now) m t.now begun.cores.items }
    requires room { HaveRoom begun.cores.items }
    requires fit { AreFitting begun.cores.items begun.awake.items }
    ensures fit { AreFitting result.0.cores.items result.0.awake.items }
    ensures run { (objects : List Object) → HasBegun (plan_of p.now) objects begun → ArePlans (plan_of p.now) objects → HasRun (plan_of p.now) t.now begun.cores.items result.0.cores.items objects result.0.objects.items result.1.items }
{
    rounds_on_threads_keep_the_law();
    let Begun {
        round,
        seats,
        cores,
        awake,
        places,
    } = begun;
    let Places {
        rooms,
        lanes,
        cores: mut back,
        awake: mut watched,
        seats: mut returned,
        entries: none,
    } = places;
    let mut lanes = seat_all(cores, awake, rooms, seats, lanes);
    go_all(rt, p, t, &round, guesses, lanes.as_mut_slice(), gate);
    part_all(lanes, &mut back, &mut watched, &mut returned);
    let closed = round.close(returned);
    let changing = Changing {
        cores: back,
        objects: closed.objects,
        awake: watched,
        spare: Spare {
            entries: none,
            rooms: closed.rooms,
        },
    };
    (changing, closed.entries)
}
