//! Groups of queued data elements as objects of the bus.
#![tactic(auto)]

mod elements;
mod filling;
mod laws;
mod making;
mod queue_group;
mod threads;

pub use laws::{
    first_queues_stand_for_nothing, leads_are_legal, leads_miss_nothing,
    other_entries_wake_nothing, queued_groups_of_sound_plans, queues_hold_what_was_not_taken,
    starts_go_by_flags, values_are_received_in_order,
};
pub use queue_group::QueueGroup;

/// There was no memory for what a call makes.
pub type Memory = std::alloc::AllocError;
