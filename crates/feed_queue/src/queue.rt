//! The queue.

use crate::passes::{Feeder, Pump};
use crate::rule::{Fed, Feeding};
use crate::views::{Item, View};
use crossbeam_queue::RuledArrayQueue;

/// A queue with a place for every number of four feeds, whose lengths the type names. Threads share it.
#[derive(Drop)]
pub struct FeedQueue<F: Feeding> {
    pub(crate) line: RuledArrayQueue<Item, View, Fed<F>>,
}

/// A new queue with all who use it.
#[derive(Drop)]
pub struct Queued<F: Feeding> {
    pub queue: FeedQueue<F>,
    /// The feeders, each at the number of its feed.
    pub feeders: [Feeder; 4],
    pub pump: Pump,
}
