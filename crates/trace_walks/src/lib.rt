//! Activations gone through along a trace: what each key wants next, by its program and the answers before.
#![tactic(auto)]

mod runners;
mod walk;
mod walks;

pub use runners::Runners;
pub use walk::Walk;
pub use walks::Walks;

/// There was no memory for what a call makes.
pub type Memory = std::alloc::AllocError;
