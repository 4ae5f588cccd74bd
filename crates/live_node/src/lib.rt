//! A node that runs while stimuli arrive from four feeds.
//!
//! `serve` makes the entries. `put_live` puts them, and goes on from them to rest.
#![tactic(auto)]

mod printing;
mod serving;

pub use feed_queue::{Feeds, Pump};
pub use printing::put_live;
pub use serving::{Report, Served, serve};
