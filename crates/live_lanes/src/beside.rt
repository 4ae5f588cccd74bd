//! Turns of cores beside calls of the environment.

ghost use Rattle.std.specs.Prelude.{◌≡◌, ◌≤◌, ◌+◌, ◌++◌, suc, List, [], length};
ghost use Rattle.bus_semantics.specs.Common.{vec_capacity, Plan, plan_of};
ghost use Rattle.port_objects.specs.declared.object.Object.{Object};
ghost use Rattle.port_objects.specs.Objects.{ArePlans};
ghost use Rattle.task_machine.specs.declared.instr.TaskSet.{TaskSet};
ghost use Rattle.task_generator.specs.Promise.{AsksAsPlanned};
ghost use Rattle.core_turn.specs.Cores.{CoreState};
ghost use Rattle.core_lanes.specs.Rooms.{HaveRoom};
ghost use Rattle.feed_queue.specs.declared.feeds.Feeds.{Feeds};
ghost use Rattle.feed_queue.specs.Given.{lengths_of};
ghost use Rattle.live_lanes.specs.Beside.{IsGoing, HasBegun, IsDone, HasServed, RunBeside};
ghost use Rattle.live_lanes.specs.declared.caller.Caller.{Caller};
ghost use Rattle.live_lanes.specs.declared.lanes.Lane.{Lane};
ghost use Rattle.live_lanes.specs.Drawn.{AreWished};
ghost use Rattle.live_lanes.specs.Workers.{all_outside, cores_of, with_pump};

use crate::caller::Caller;
use crate::ground::Ground;
use crate::places::{Places, lengths, take_places, total};
use crate::seating::{keep, part_all, seat_all};
use crate::workers::{Worker, work_all};
use bus_semantics::{BusPlan, Stamped};
use core_lanes::rounds_on_threads_keep_the_law;
use core_turn::Core;
use cross_core_table::{Closed, CoreSeat, Opened, Round, Spare};
use feed_queue::{FeedQueue, Feeder, Feeding, Feeds, Pump, Queued};
use port_objects::{Object, sound_plans_have_objects};
use rte_text::Gate;
use std::alloc::{AllocError, Global};
use std::marker::Brand;
use std::sync::Wait;
use std::thread::Threads;
use task_machine::TaskSet;

/// So many entries each core makes at most, and the environment.
pub(crate) const MOST_ENTRIES: u32 = 65_536;

/// What turns and calls change: cores and objects, each at its number.
#[derive(Drop)]
pub struct Work {
    pub cores: Vec<Core>,
    pub objects: Vec<Object>,
}

/// What turns beside calls have made.
#[derive(Drop)]
pub struct Made {
    /// The cores and the objects as they are now.
    pub work: Work,
    /// The entries, in order of stamps.
    pub entries: Vec<Stamped>,
    /// It names the feeds in the order in which their wishes came.
    pub pump: Pump,
}

/// What came of turns beside calls.
#[derive(Drop)]
pub enum Beside {
    /// The pump has made the calls of all feeds, and the cores have left.
    Ran(Made),
    /// There was no memory, and nothing was made. These are the cores and the objects, unchanged.
    Memory(Work),
}

/// Cores with a round that is open, and a queue for the feeds. Nothing was made or pushed.
#[derive(Drop)]
pub(crate) struct Begun<F: Feeding> {
    pub round: Round,
    pub seats: Vec<CoreSeat>,
    pub cores: Vec<Core>,
    pub queued: Queued<F>,
    pub places: Places,
}

/// Cores, 1 to 7 and each at its number, make turns over the objects of a plan while the wishes of four feeds arrive: each core in a thread
/// of its own by its seat of a round, which has one seat more. By that the pump makes the environment's calls, one for each wish of the
/// feeds. Each seat has room for 65,536 entries. A core stays until its seat has no more room, or all calls were made. All memory is taken
/// before the round is open. A core passes the gate of its number before each turn; the pump, whose gate comes next, before each pop; and
/// each feeder, whose gates come behind that, before each push.
///
/// Nothing is said of when: a core may make no entry, and feeds may come one after the other.
pub fn run_beside<R: Threads + Wait + Sync, G: Gate>(
    rt: &R,
    alloc: Global,
    p: &BusPlan,
    t: &TaskSet,
    work: Work,
    feeds: &Feeds,
    gate: &G,
) -> Beside
    requires count { (1 ≤ length work.cores.items) × (length work.cores.items ≤ 7) }
    requires planned { ArePlans (plan_of p.now) work.objects.items }
    requires bodies { AsksAsPlanned (plan_of p.now) t.now }
    requires lawful { IsGoing (plan_of p.now) t.now work.cores.items work.objects.items }
    requires room { HaveRoom work.cores.items }
    requires feeds { AreWished (plan_of p.now) feeds.now }
    ensures { RunBeside (plan_of p.now) t.now feeds.now work result }
{
    run_over::<Brand, R, G>(rt, alloc, p, t, work, feeds, gate)
}

/// The same where the type names how long the feeds are.
fn run_over<F: Feeding + Send + Sync, R: Threads + Wait + Sync, G: Gate>(
    rt: &R,
    alloc: Global,
    p: &BusPlan,
    t: &TaskSet,
    work: Work,
    feeds: &Feeds,
    gate: &G,
) -> Beside
    requires lengths { F.lengths ≡ lengths_of feeds.now }
    requires count { (1 ≤ length work.cores.items) × (length work.cores.items ≤ 7) }
    requires planned { ArePlans (plan_of p.now) work.objects.items }
    requires bodies { AsksAsPlanned (plan_of p.now) t.now }
    requires lawful { IsGoing (plan_of p.now) t.now work.cores.items work.objects.items }
    requires room { HaveRoom work.cores.items }
    requires feeds { AreWished (plan_of p.now) feeds.now }
    ensures { RunBeside (plan_of p.now) t.now feeds.now work result }
{
    sound_plans_have_objects();
    let places = match take_places(alloc, work.cores.len()) {
        Ok(places) => places,
        Err(_) => return Beside::Memory(work),
    };
    let queued = match FeedQueue::<F>::new(alloc, lengths(feeds)) {
        Ok(queued) => queued,
        Err(_) => return Beside::Memory(work),
    };
    let Work { cores, objects } = work;
    let seats = cores.len() as u32 + 1;
    match Round::open(alloc, p, objects, seats, MOST_ENTRIES, Spare::none(alloc)) {
        Opened::Ready(round, seats) => {
            let begun = Begun {
                round,
                seats,
                cores,
                queued,
                places,
            };
            Beside::Ran(run_begun(rt, p, t, begun, feeds, gate))
        }
        Opened::Memory(objects) => Beside::Memory(Work { cores, objects }),
    }
}

/// Cores of a round that is open make their turns beside the calls of the feeds, and the round is closed. It takes no memory, and has no
/// allocator.
fn run_begun<F: Feeding + Send + Sync, R: Threads + Wait + Sync, G: Gate>(
    rt: &R,
    p: &BusPlan,
    t: &TaskSet,
    begun: Begun<F>,
    feeds: &Feeds,
    gate: &G,
) -> Made
    requires lengths { F.lengths ≡ lengths_of feeds.now }
    requires count { (1 ≤ length begun.cores.items) × (length begun.cores.items ≤ 7) }
    requires begun { (objects : List Object) × HasBegun F.lengths (plan_of p.now) objects begun × ArePlans (plan_of p.now) objects × IsGoing (plan_of p.now) t.now begun.cores.items objects }
    requires bodies { AsksAsPlanned (plan_of p.now) t.now }
    requires room { HaveRoom begun.cores.items }
    requires feeds { AreWished (plan_of p.now) feeds.now }
    ensures { (objects : List Object) → HasBegun F.lengths (plan_of p.now) objects begun → ArePlans (plan_of p.now) objects → HasServed (plan_of p.now) t.now feeds.now begun.cores.items objects result }
{
    let Begun {
        round,
        mut seats,
        cores,
        queued,
        places,
    } = begun;
    let Queued {
        queue,
        feeders,
        pump,
    } = queued;
    let Places {
        parkers,
        yard,
        workers,
        cores: back,
        seats: returned,
    } = places;
    let count = cores.len();
    let caller = Caller {
        pump,
        seat: seats.pop(),
        wishes: total(&lengths(feeds)),
    };
    let workers = seat_all(cores, seats, parkers, workers);
    let mut workers = join_all(workers, caller, feeders);
    let ground = Ground {
        plan: p,
        bodies: t,
        feeds,
        round: &round,
        queue: &queue,
        yard: &yard,
        gate,
        cores: count as u32,
    };
    work_all(rt, &ground, workers.as_mut_slice());
    workers.truncate(count + 1);
    close(round, workers, back, returned)
}

/// All who run, in order: behind the cores the pump, and then the feeders. The list has room for them.
fn join_all(workers: Vec<Worker>, caller: Caller, feeders: [Feeder; 4]) -> Vec<Worker>
    requires { length workers.items + 5 ≤ vec_capacity workers }
    ensures all { result.items ≡ workers.items ++ all_outside caller feeders }
    ensures count { length result.items ≡ length workers.items + 5 }
{
    let mut workers = workers;
    let [first, second, third, fourth] = feeders;
    workers.push_reserved(Worker::Pump(caller));
    workers.push_reserved(Worker::Feeder(first));
    workers.push_reserved(Worker::Feeder(second));
    workers.push_reserved(Worker::Feeder(third));
    workers.push_reserved(Worker::Feeder(fourth));
    workers
}

/// Takes the pump from behind the cores.
fn take_caller(workers: &mut Vec<Worker>) -> Caller
    requires { (lanes : List Lane) × (c : Caller) × (workers.old.items ≡ with_pump lanes c) }
    ensures { (lanes : List Lane) (c : Caller) → workers.old.items ≡ with_pump lanes c → (result ≡ c) × (workers.new.items ≡ cores_of lanes) }
{
    match workers.pop() {
        Some(Worker::Pump(caller)) => caller,
        _ => unreachable!(),
    }
}

/// Takes cores and the pump behind them apart, and closes their round. The lists have room for the cores, and for one seat more.
fn close(
    round: Round,
    mut workers: Vec<Worker>,
    mut cores: Vec<Core>,
    mut seats: Vec<CoreSeat>,
) -> Made
    requires cores { (cores.items ≡ []) × (length workers.items ≤ suc (vec_capacity cores)) }
    requires seats { (seats.items ≡ []) × (length workers.items ≤ vec_capacity seats) }
    requires done { (p : Plan) × (t : TaskSet) × (feeds : Feeds) × (old : List CoreState) × (lanes : List Lane) × (c : Caller) × IsDone p t feeds round old lanes c × (workers.items ≡ with_pump lanes c) }
    ensures { (p : Plan) (t : TaskSet) (feeds : Feeds) (old : List CoreState) (lanes : List Lane) (c : Caller) → IsDone p t feeds round old lanes c → workers.items ≡ with_pump lanes c
        → ArePlans p round.opening.objects.value.items → HasServed p t feeds old round.opening.objects.value.items result }
{
    rounds_on_threads_keep_the_law();
    let Caller {
        pump,
        seat,
        wishes: _,
    } = take_caller(&mut workers);
    part_all(workers, &mut cores, &mut seats);
    keep(&mut seats, seat);
    let Closed {
        objects,
        entries,
        rooms: _,
    } = round.close(seats);
    Made {
        work: Work { cores, objects },
        entries,
        pump,
    }
}
