//! The clock as an object of the bus.
#![tactic(auto)]

mod events;
mod laws;
mod making;
mod threads;
mod ticks;

pub use laws::{
    first_clock_stands_for_nothing, leads_are_legal, leads_miss_nothing,
    other_entries_wake_nothing, starts_go_by_flags,
};
pub use ticks::Ticks;

/// There was no memory for what a call makes.
pub type Memory = std::alloc::AllocError;
