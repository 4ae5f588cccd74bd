//! Client-server calls: the requests of call points, and what was returned to them.
#![tactic(auto)]

mod point;
mod queue;
mod server;
mod threads;

pub use point::{Outcome, Point, Request, Stage};
pub use server::Server;

/// There was no memory for what a call makes.
pub type Memory = std::alloc::AllocError;
