//! What threads share.

use crate::yard::Yard;
use bus_semantics::BusPlan;
use cross_core_table::Round;
use feed_queue::{FeedQueue, Feeding, Feeds};
use rte_text::Gate;
use task_machine::TaskSet;

/// What cores, the pump and the feeders share while they run.
#[derive(Drop)]
pub(crate) struct Ground<'a, F: Feeding, G: Gate> {
    pub plan: &'a BusPlan,
    pub bodies: &'a TaskSet,
    pub feeds: &'a Feeds,
    pub round: &'a Round,
    pub queue: &'a FeedQueue<F>,
    pub yard: &'a Yard,
    pub gate: &'a G,
    /// How many cores there are. Their gates are numbered from 0; the pump's gate comes next, and then that of each feeder.
    pub cores: u32,
}
