//! The passes of a queue, as they are handed out: one for each feeder, and the pump's.
ghost use Rattle.std.specs.Prelude.{◌≡◌};
ghost use Rattle.crossbeam_queue.specs.Passes.{view};
ghost use Rattle.feed_queue.specs.Views.{IsFeeding, IsPumping};

use crate::views::{Item, View};
use crossbeam_queue::Pass;

/// What pushes the numbers of one feed. It may be sent to another thread.
#[derive(Drop)]
pub struct Feeder {
    pub(crate) feed: u8,
    pub(crate) pass: Pass<Item, View>,
    ghost feeds: { IsFeeding feed (view pass) },
}

/// What pops numbers, and keeps the feeds of all that it popped. It may be sent to another thread.
#[derive(Drop)]
pub struct Pump {
    pub(crate) order: Vec<u8>,
    pub(crate) pass: Pass<Item, View>,
    ghost pumps: { IsPumping order.items (view pass) },
}
