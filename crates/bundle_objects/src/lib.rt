//! Bundles as objects of the bus: groups of unqueued data elements that coherent access lists connect, so that several of them are
//! read, or published, at one moment.
#![tactic(auto)]

mod bundle;
mod laws;
mod lists;
mod making;
mod splitting;
mod threads;

pub use bundle::Bundle;
pub use laws::{
    first_bundle_stands_for_nothing, leads_are_legal, leads_miss_nothing,
    other_entries_wake_nothing, starts_go_by_flags,
};

/// There was no memory for what a call makes.
pub type Memory = std::alloc::AllocError;
