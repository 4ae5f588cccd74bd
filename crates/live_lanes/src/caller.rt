//! The environment's seat, and the pump.

ghost use Rattle.std.specs.Prelude.{◌≡◌, ◌<◌, Some, length, slice_get, sum, true};
ghost use Rattle.bus_semantics.specs.Common.{plan_of, wanted_of};
ghost use Rattle.feed_queue.specs.Feeds.{length_of};
ghost use Rattle.feed_queue.specs.Passes.{IsPumpOf, order_of};
ghost use Rattle.feed_queue.specs.Given.{lengths_of};
ghost use Rattle.live_lanes.specs.Drawn.{wanted_at};
ghost use Rattle.live_lanes.specs.Callers.{WillCall, AreCalls, AreAllCalls, HasCalledAll};
ghost use Rattle.live_lanes.specs.Grounds.{IsGround};

use crate::calling::call;
use crate::ground::Ground;
use bus_semantics::Wish;
use cross_core_table::{CoreSeat, SeatBench};
use feed_queue::{Feeding, Feeds, Pump};
use rte_text::Gate;
use std::sync::Wait;
use std::thread;

/// The pump, with the environment's seat in a round. It is worked on by one thread.
#[derive(Drop)]
pub(crate) struct Caller {
    pub pump: Pump,
    /// None only while the pump works.
    pub seat: Option<CoreSeat>,
    /// How many wishes the feeds have in all.
    pub wishes: usize,
}

/// The wish of a feed of this number.
fn wish_at(feeds: &Feeds, feed: u8, number: u32) -> &Wish
    requires { number < length_of (lengths_of feeds.now) feed }
    ensures { slice_get (wanted_at feeds.now feed) number ≡ Some (wanted_of result.now) }
{
    &feeds.wishes[feed as usize][number as usize]
}

impl Caller {
    /// The pump makes the calls of all feeds, and tells the cores when it has ended.
    pub fn go<F: Feeding, R: Wait, G: Gate>(&mut self, rt: &R, ground: &Ground<F, G>, number: usize)
        requires ground { IsGround F.lengths (plan_of ground.now.plan.now) ground.now.bodies.now ground.now.feeds.now ground.now.round.now }
        requires calls { WillCall F.lengths ground.now.round.now ground.now.queue.now number self.old }
        ensures { HasCalledAll (plan_of ground.now.plan.now) ground.now.feeds.now ground.now.round.now number self.new }
    {
        let Some(seat) = self.seat.take() else {
            return;
        };
        let mut bench = ground.round.bench(ground.plan, seat);
        call_all(rt, ground, &mut bench, &mut self.pump, self.wishes);
        self.seat = Some(bench.leave());
        ground.yard.end();
    }
}

/// Whether the pump has popped so many numbers.
fn has_popped(pump: &Pump, wishes: usize) -> bool
    ensures { result ≡ true → length (order_of pump.now) ≡ wishes }
{
    pump.order().len() == wishes
}

/// The pump pops the number of each wish of the feeds, and makes its call. It passes its gate before each pop.
fn call_all<F: Feeding, R: Wait, G: Gate>(
    rt: &R,
    ground: &Ground<F, G>,
    bench: &mut SeatBench,
    pump: &mut Pump,
    wishes: usize,
)
    requires ground { IsGround F.lengths (plan_of ground.now.plan.now) ground.now.bodies.now ground.now.feeds.now ground.now.round.now }
    requires wishes { wishes ≡ sum F.lengths }
    requires round { bench.old.round ≡ ground.now.round.now }
    requires pump { IsPumpOf F.lengths ground.now.queue.now pump.old }
    requires calls { AreCalls (plan_of ground.now.plan.now) ground.now.feeds.now (order_of pump.old) bench.old.view.made }
    ensures round { bench.new.round ≡ bench.old.round }
    ensures number { bench.new.core ≡ bench.old.core }
    ensures calls { AreAllCalls (plan_of ground.now.plan.now) ground.now.feeds.now (order_of pump.new) bench.new.view.made }
{
    for _ in rt.forever() {
        if has_popped(pump, wishes) {
            return;
        }
        ground.gate.pass(ground.cores);
        call_next(rt, ground, bench, pump);
    }
    unreachable!()
}

/// The pump pops the number of a wish, if it finds one, makes its call, and wakes the cores.
fn call_next<F: Feeding, R: Wait, G: Gate>(
    rt: &R,
    ground: &Ground<F, G>,
    bench: &mut SeatBench,
    pump: &mut Pump,
)
    requires ground { IsGround F.lengths (plan_of ground.now.plan.now) ground.now.bodies.now ground.now.feeds.now ground.now.round.now }
    requires round { bench.old.round ≡ ground.now.round.now }
    requires pump { IsPumpOf F.lengths ground.now.queue.now pump.old }
    requires calls { AreCalls (plan_of ground.now.plan.now) ground.now.feeds.now (order_of pump.old) bench.old.view.made }
    ensures round { bench.new.round ≡ bench.old.round }
    ensures number { bench.new.core ≡ bench.old.core }
    ensures pump { IsPumpOf F.lengths ground.now.queue.now pump.new }
    ensures calls { AreCalls (plan_of ground.now.plan.now) ground.now.feeds.now (order_of pump.new) bench.new.view.made }
{
    match pump.next(rt, ground.queue) {
        Some((feed, number)) => {
            let wish = wish_at(ground.feeds, feed, number);
            call(rt, ground.plan, bench, wish);
            ground.yard.wake_all();
        }
        None => thread::yield_now(),
    }
}
