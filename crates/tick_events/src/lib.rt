//! The events of the clock: TimingEvents and InitEvents.
//!
//! # Decisions
//!
//! **What does a tick cost?** One addition, and a way through a tree for each distinct period that is complete. TimingEvents of
//! one period share a countdown, which is kept by the tick at which it ends, counted modulo 2^64; since no more than a period is
//! ever left, that is exact for ever. The countdown with least left is at the root of a tree of winners: a list of numbers, of
//! which is said for one node at a time what it keeps.
#![tactic(auto)]

mod clock;
mod countdown;
mod countdowns;
mod ringing;
mod threads;
mod winners;

pub use clock::Clock;

/// There was no memory for what a call makes.
pub type Memory = std::alloc::AllocError;
