//! No run stalls: a legal history of a sound plan that is at rest is quiet.
#![tactic(auto)]

mod laws;

pub use laws::no_history_stalls;
