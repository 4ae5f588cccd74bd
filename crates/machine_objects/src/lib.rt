//! Mode machines as objects of the bus.
#![tactic(auto)]

mod events;
mod gathering;
mod laws;
mod machine_object;
mod making;
mod threads;

pub use gathering::mattering_events;
pub use laws::{
    first_machine_stands_for_nothing, leads_are_legal, leads_miss_nothing, machines_of_sound_plans,
    other_entries_wake_nothing, phases_go_by_may_move, starts_go_by_flags,
};
pub use machine_object::MachineObject;

/// There was no memory for what a call makes.
pub type Memory = std::alloc::AllocError;
