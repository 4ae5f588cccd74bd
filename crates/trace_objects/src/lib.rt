//! The objects of a bus along a given trace: an entry is made on the object that it touches, if it is the one that may come.
//!
//! # Decisions
//!
//! **What does the word `idle` cost in a checked trace?** What came since the last one, and a look at one word for each 4,096
//! events and machines. The events and the machines are kept of which a start or a phase may come (`Unrest` of `trace_objects`):
//! all at first; then an entry adds what its object tells of it, and its machine. A word `idle` tries only these, and takes out
//! what does not come. So at rest none is left, and the next word `idle` does not go through all events of the bus again.
#![tactic(auto)]

mod came;
mod clauses;
mod going;
mod making;
mod resting;
mod unrest;

pub use clauses::one_clause_speaks;
pub use going::{go_on, tick};
pub use making::make;
pub use resting::may_rest;
pub use unrest::Unrest;
