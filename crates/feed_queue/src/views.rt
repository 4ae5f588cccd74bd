//! What goes through the queue, and what its passes know.

use std::collections::LinkedList;

/// What a feeder hands to the pump.
#[derive(Clone, Copy)]
pub struct Item {
    /// The feed, from 0 to 3.
    pub feed: u8,
    /// How many items of this feed were pushed before.
    pub number: u32,
}

/// What a pass knows. No value of this type is made.
pub enum View {
    /// The pass of a feeder: its feed, and how many numbers it has pushed.
    Feeds { feed: u64, pushed: u64 },
    /// The pass of the pump: how many feeders there are, and the feeds of all items popped, in the order of the pops.
    Pumps { feeders: u64, order: LinkedList<u8> },
}
