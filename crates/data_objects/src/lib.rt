//! Groups of unqueued data elements, and inter-runnable variables, as objects of the bus: the last value, and who has seen it.
//!
//! # Decisions
//!
//! **Why does a write set all flags of its group?** A joined group has one provider's value for all. So each receiver is updated,
//! and each event of the group is pending, at whatever receiver it is.
//!
//! **Why do `write`, `publish` and `tick` stand beside calls that tell?** The plain calls take a value or nothing, as the calls of
//! a component do. `write_and_tell`, `publish_and_tell` and `tick_and_tell` do the same, and append the name of each event that
//! they made pending to a list, so that a node wakes these and looks at no others. The caller gives the list, with room for all,
//! so that no call takes memory.
//!
//! **Why can ports and the clock tell whether an event is pending?** `is_due`, `is_timing_due` and `is_init_due` change nothing. A
//! node asks by them whether an event may start, and must not take its flag away by asking.
#![tactic(auto)]

mod events;
mod filling;
mod flags;
mod group;
mod laws;
mod making;
mod threads;
mod unqueued;
mod value_threads;

pub use group::Group;
pub use laws::{
    first_group_stands_for_nothing, leads_are_legal, leads_miss_nothing,
    other_entries_wake_nothing, starts_go_by_flags,
};
pub use unqueued::Unqueued;

/// There was no memory for what a call makes.
pub type Memory = std::alloc::AllocError;
