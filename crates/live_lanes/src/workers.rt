//! All who run at the same time.

ghost use Rattle.std.specs.Prelude.{◌<◌, ◌≤◌, length};
ghost use Rattle.bus_semantics.specs.Plan.{plan_of};
ghost use Rattle.live_lanes.specs.Grounds.{IsGround};
ghost use Rattle.live_lanes.specs.Workers.{WillWork, HasWorked, WillAllWork, HaveWorked};

use crate::caller::Caller;
use crate::feeding::feed;
use crate::ground::Ground;
use crate::lanes::Lane;
use crate::threads::is_shared;
use crate::yard::Yard;
use cross_core_table::Round;
use feed_queue::{FeedQueue, Feeder, Feeding, Feeds};
use rte_text::Gate;
use std::sync::Wait;
use std::thread;
use std::thread::Threads;

/// Who runs in a thread of its own: a core, the pump, or a feeder.
#[derive(Drop)]
pub(crate) enum Worker {
    Core(Lane),
    Pump(Caller),
    Feeder(Feeder),
}

impl Worker {
    /// A core makes its turns, the pump its calls, or a feeder its pushes, from the first to the last.
    fn work<F: Feeding, R: Wait, G: Gate>(&mut self, rt: &R, ground: &Ground<F, G>, number: usize)
        requires ground { IsGround F.lengths (plan_of ground.now.plan.now) ground.now.bodies.now ground.now.feeds.now ground.now.round.now }
        requires number { number < 12 }
        requires ready { WillWork F.lengths (plan_of ground.now.plan.now) ground.now.bodies.now ground.now.round.now ground.now.queue.now number self.old }
        ensures { HasWorked (plan_of ground.now.plan.now) ground.now.bodies.now ground.now.feeds.now ground.now.round.now number self.old self.new }
    {
        match self {
            Worker::Core(lane) => lane.go(rt, ground, number),
            Worker::Pump(caller) => caller.go(rt, ground, number),
            Worker::Feeder(feeder) => feed(rt, ground, feeder),
        }
    }
}

/// All of them work at the same time, each in a thread of its own. It takes no memory.
pub(crate) fn work_all<F: Feeding + Send + Sync, R: Threads + Wait + Sync, G: Gate>(
    rt: &R,
    ground: &Ground<F, G>,
    workers: &mut [Worker],
)
    requires ground { IsGround F.lengths (plan_of ground.now.plan.now) ground.now.bodies.now ground.now.feeds.now ground.now.round.now }
    requires few { (0 < length workers.old) × (length workers.old ≤ 12) }
    requires ready { WillAllWork F.lengths (plan_of ground.now.plan.now) ground.now.bodies.now ground.now.round.now ground.now.queue.now workers.old }
    ensures { HaveWorked (plan_of ground.now.plan.now) ground.now.bodies.now ground.now.feeds.now ground.now.round.now workers.old workers.new }
{
    is_shared::<Feeds>();
    is_shared::<Round>();
    is_shared::<FeedQueue<F>>();
    is_shared::<Yard>();
    is_shared::<u32>();
    let plan = ground.plan;
    let bodies = ground.bodies;
    let feeds = ground.feeds;
    let round = ground.round;
    let queue = ground.queue;
    let yard = ground.yard;
    let gate = ground.gate;
    let cores = ground.cores;
    let count = workers.len();
    thread::for_each_mut(
        rt,
        workers,
        count,
        &|number: usize, worker: &mut Worker|
            requires ground { IsGround F.lengths (plan_of plan.now) bodies.now feeds.now round.now }
            requires number { number < 12 }
            requires ready { WillWork F.lengths (plan_of plan.now) bodies.now round.now queue.now number worker.old }
            ensures { HasWorked (plan_of plan.entry.now) bodies.entry.now feeds.entry.now round.entry.now number worker.old worker.new }
        {
            let ground = Ground {
                plan,
                bodies,
                feeds,
                round,
                queue,
                yard,
                gate,
                cores,
            };
            worker.work(rt, &ground, number);
        },
    );
}
