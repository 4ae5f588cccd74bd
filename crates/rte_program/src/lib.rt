//! What the program does: the top call, which carries out a command over any files and any output.
//!
//! # Decisions
//!
//! **Why does `rte_top` take a runtime and a gate?** Its signature is the final one, so that callers and tests stay. So are those
//! of `run_script` and `run_round`. The gate is passed before each turn; the runtime starts the threads of a round.
//!
//! **Why does `rte_quiet` take an allocator?** Each call that can take memory takes one first. It takes no runtime, since it waits
//! for nobody.
//!
//! **Why has `soak N` one put?** The nine lines are made together in a `LineBuf`, and none is of use without the others.
#![tactic(auto)]

mod carry;
mod check;
mod header;
mod laws;
mod live;
mod pair;
mod plan;
mod quiet;
mod run;
mod soak;
mod top;

pub use commands::Status;
pub use laws::runs_are_legal_traces;
pub use pair::run_linked;
pub use quiet::rte_quiet;
pub use top::rte_top;
