//! Lanes: a core with its seat in a round, and where it parks.

ghost use Rattle.std.specs.Prelude.{◌<◌};
ghost use Rattle.bus_semantics.specs.Plan.{plan_of};
ghost use Rattle.live_lanes.specs.Grounds.{IsGround};
ghost use Rattle.live_lanes.specs.Lanes.{IsSeated, HasGone};

use crate::ground::Ground;
use crate::post::Post;
use crate::turns::make_turns;
use core_turn::Core;
use cross_core_table::CoreSeat;
use crossbeam_utils::sync::Parker;
use feed_queue::Feeding;
use rte_text::Gate;
use std::sync::Wait;

/// A core with its seat in a round, and where it parks. It is worked on by one thread.
#[derive(Drop)]
pub(crate) struct Lane {
    pub core: Core,
    /// None only while the core is at its bench.
    pub seat: Option<CoreSeat>,
    pub parker: Parker,
}

impl Lane {
    /// The core sits down at its bench, makes its turns, and leaves with its seat.
    pub fn go<F: Feeding, R: Wait, G: Gate>(&mut self, rt: &R, ground: &Ground<F, G>, number: usize)
        requires ground { IsGround F.lengths (plan_of ground.now.plan.now) ground.now.bodies.now ground.now.feeds.now ground.now.round.now }
        requires number { number < 12 }
        requires seated { IsSeated (plan_of ground.now.plan.now) ground.now.bodies.now ground.now.round.now number self.old }
        ensures { HasGone (plan_of ground.now.plan.now) ground.now.bodies.now ground.now.round.now number self.old.core self.new }
    {
        let Some(seat) = self.seat.take() else {
            return;
        };
        let mut bench = ground.round.bench(ground.plan, seat);
        let mut post = Post::new(ground.gate, ground.yard, &self.parker, number as u32);
        make_turns(
            rt,
            ground.plan,
            ground.bodies,
            &mut self.core,
            &mut bench,
            &mut post,
        );
        self.seat = Some(bench.leave());
    }
}
