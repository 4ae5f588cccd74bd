//! The top call over a sink that gathers output: what was put and not yet written is written at the end.
//!
//! No clause says that `run_gathered` calls `rte_top`, or which bytes it took: the sink tells none. It is read in its few lines.
#![tactic(auto)]

mod running;

pub use running::run_gathered;
