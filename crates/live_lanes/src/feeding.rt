//! Feeders at work.

ghost use Rattle.bus_semantics.specs.Plan.{plan_of};
ghost use Rattle.live_lanes.specs.Feeders.{WillFeed};
ghost use Rattle.live_lanes.specs.Grounds.{IsGround};

use crate::ground::Ground;
use feed_queue::{Feeder, Feeding};
use rte_text::Gate;
use std::sync::Wait;

/// A feeder pushes the numbers of all wishes of its feed, in order. It passes its gate before each push.
pub(crate) fn feed<F: Feeding, R: Wait, G: Gate>(rt: &R, ground: &Ground<F, G>, feeder: &mut Feeder)
    requires ground { IsGround F.lengths (plan_of ground.now.plan.now) ground.now.bodies.now ground.now.feeds.now ground.now.round.now }
    requires feeder { WillFeed F.lengths ground.now.queue.now feeder.old }
{
    let feed = feeder.feed();
    let gate = ground.cores.saturating_add(1).saturating_add(feed as u32);
    let Some(wishes) = ground.feeds.wishes.get(feed as usize) else {
        return;
    };
    for number in 0..wishes.len() {
        ground.gate.pass(gate);
        feeder.push(rt, ground.queue, number as u32);
    }
}
