//! Queued data elements: a queue for each receiver, and a pool of blocks for values of more than one word. No call takes memory once these
//! are made.
//!
//! # Decisions
//!
//! **Where does a value lie that waits in a queue?** One of one word lies in the queue itself, any other in a block of a pool that
//! the queues of a group share (`Pool`). The pool has a block for each place of these queues, so a queue that is not full
//! finds one.
#![tactic(auto)]

mod block;
mod block_threads;
mod lanes;
mod payload;
mod pool;
mod queues;
mod received;
mod threads;

pub use block::Block;
pub use pool::Pool;
pub use queues::Queues;
pub use received::Received;

/// There was no memory for what a call makes.
pub type Memory = std::alloc::AllocError;
