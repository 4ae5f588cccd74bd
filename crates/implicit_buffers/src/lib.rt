//! What each runnable fetches at its start and publishes at its end.
//!
//! # Decisions
//!
//! **What do buffers list, elements or lists?** Elements, since these have the slots (`BufferPlan`): so a statement is compiled as
//! if there were no lists. What is asked for at once is a list apart, made for a runnable when its code is (`fetches_of`,
//! `publications_of`), and an instruction that fetches or publishes a coherent list names the slots of its elements.
#![tactic(auto)]

mod fetchings;
mod laws;
mod planning;

pub use fetchings::{Fetching, fetches_of, publications_of};
pub use laws::{
    programs_leave_what_was_fetched, runnables_fetch_in_declared_order,
    runnables_publish_in_declared_order,
};
pub use planning::{BufferPlan, is_read_early, is_written_late, plan_buffers};

/// There was no memory for what a call makes.
pub type Memory = std::alloc::AllocError;
