//! Feeds.

use bus_semantics::Wish;

/// What the environment wishes while a node runs, in four feeds.
#[derive(Drop)]
pub struct Feeds {
    /// The wishes of each feed, at its number, in their order.
    pub wishes: Vec<Vec<Wish>>,
}
