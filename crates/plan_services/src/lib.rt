//! The machines, servers, points, events and runnables of a plan.
//!
//! # Decisions
//!
//! **When is a server direct?** When the event of its number is not mapped.
#![tactic(auto)]

mod arguments;
mod callings;
mod events;
mod invoked;
mod kinds;
mod listed_callings;
mod machines;
mod points;
mod runnables;
mod served;
mod servers;
mod signatures;
mod targets;
mod users;

pub use events::event_plans;
pub use invoked::invoked_by;
pub use listed_callings::Callings;
pub use machines::{machine_plans, mode_port_plans};
pub use points::point_plans;
pub use runnables::runnable_plans;
pub use servers::server_plans;
