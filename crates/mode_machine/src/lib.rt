//! Mode machines: the mode switch procedure, what its phases owe, and who may run in a mode.
//!
//! # Decisions
//!
//! **What does a phase cost?** What it makes pending, and what the last one did. The events of a machine lie in chains, one for
//! each moment at which they occur: an exit, a transition or an entry (`mode_machine`). A phase goes through the chain of its
//! moment and through that of the last phase. No other event is due, left or begun, since no phase comes while an event is left.
//! The first event that is left is kept, and so is the first event that holds Exit back. Until the next phase both only move on.
//! So all starts and ends together look once at each event of the chain, and at each event of which an admitted activation runs.
#![tactic(auto)]

mod chains;
mod disabling;
mod machine;
mod owed;
mod telling;
mod threads;
mod tracked;

pub use disabling::Admitted;
pub use machine::{Advanced, Machine};
pub use owed::{ModeEvent, OwedEvent};

/// There was no memory for what a call makes.
pub type Memory = std::alloc::AllocError;
