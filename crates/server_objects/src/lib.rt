//! Servers with the points that call them, as objects of the bus.
#![tactic(auto)]

mod acting;
mod filling;
mod gathering;
mod laws;
mod making;
mod server_object;
mod threads;

pub use gathering::{joined_points, return_events};
pub use laws::{
    answers_give_the_return_of_their_own_request, first_servers_stand_for_nothing, leads_are_legal,
    leads_miss_nothing, other_entries_wake_nothing, servers_of_sound_plans, starts_go_by_flags,
};
pub use server_object::ServerObject;

/// There was no memory for what a call makes.
pub type Memory = std::alloc::AllocError;
