//! Flags in groups: those of a group are set all at once, and each is cleared alone.
//!
//! # Decisions
//!
//! **How are flags set without a look at each?** By lists of those that are clear (`latches`). A write sets the update flag of
//! each receiver and the pending flag of each event. A complete period sets the pending flag of each of its TimingEvents. A list
//! has those that were read or started since. So setting costs no more than the reads and starts did, except for the first time,
//! when all are clear; and what it sets can be told.
#![tactic(auto)]

mod flag;
mod latches;
mod making;
mod setting;
mod threads;

pub use latches::Latches;

/// There was no memory for what a call makes.
pub type Memory = std::alloc::AllocError;
