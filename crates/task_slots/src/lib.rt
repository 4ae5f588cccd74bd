//! One slot of a core: a task with what runs in it, or a mode machine, which tries its next entry over any bench.
//!
//! # Decisions
//!
//! **What does a turn answer without an object?** An end; and at a point that is not joined an ask and a result, with the code 134
//! (`free_deed`). A start by an event that returns from such a point is never due, so it is held without a look at any bench. That
//! no activation hears an answer there is known of its answers so far: none of its asks was accepted (`is_answered`).
#![tactic(auto)]

mod asking;
mod direct;
mod going;
mod hints;
mod inside;
mod look;
mod looking;
mod making;
mod phasing;
mod slot;
mod starting;
mod trying;
mod waiting;

pub use hints::{All, Hints};
pub use look::Looks;
pub use looking::look_at;
pub use slot::{Activity, Call, Slot, TaskSlot};
pub use waiting::{area_tried, is_free, point_tried};

/// There was no memory for what a call makes.
pub type Memory = std::alloc::AllocError;
