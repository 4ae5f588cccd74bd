//! Sets of places.
#![tactic(auto)]

mod bits;
mod set;
mod threads;

pub use set::PlaceSet;

/// There was no memory for what a call makes.
pub type Memory = std::alloc::AllocError;
