//! Cores that make turns while stimuli arrive: each core in a thread of its own over its seat of a round, beside four feeders, and a pump
//! that makes the environment's calls in the order in which their feeds came.
//!
//! # Decisions
//!
//! **Why do the feeders stand last among those who run, and the cores first?** `for_each_mut` halves its list: it gives the first half to a
//! new thread, or calls it last if none can be made. So without threads the feeders run to their end, then the pump, and then the cores,
//! which find that it has ended. The other way round a core would wait for a pump that never begins.
//!
//! **Which cores wake when an entry is made?** All: a wake that is not needed costs 64 turns, and one that is missed would stop a node.
#![tactic(auto)]

mod beside;
mod caller;
mod calling;
mod feeding;
mod ground;
mod lanes;
mod places;
mod post;
mod seating;
mod threads;
mod turns;
mod workers;
mod yard;

pub use beside::{Beside, Made, Work, run_beside};
