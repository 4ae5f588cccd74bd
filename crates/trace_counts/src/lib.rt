//! How many things a trace tells: what is counted of its text is what the session did that the text is of.
//!
//! `CountingSink` takes a trace byte by byte and keeps its numbers alone. The text itself exists in proofs.
//!
//! # Decisions
//!
//! **How are the numbers of `soak N` tied to the run?** The script is run by `run_script` into a sink that counts, so the contract
//! of `run_script` says what the sink was told: the text of a session. The numbers of that sink are a function of the bytes told,
//! and a law says that over a sound plan they are those of the session (`texts_have_the_numbers_of_their_session`). So nothing in
//! the runner knows of counting, and what is counted is what would have been printed. The other way, a runner that hands out
//! entries in place of text, would have changed each contract of `script_run`.
//!
//! **How can a sink tell bytes that it does not keep?** `Told` of `trace_counts` is a list of bytes that exists in proofs alone:
//! its two functions do nothing at run time, and are proved by hand. Nothing is claimed by it that a caller could not see: a fact
//! of `CountingSink` ties its numbers to it.
#![tactic(auto)]

mod begun;
mod laws;
mod numbers;
mod sink;
mod tally;
mod told;

pub use laws::texts_have_the_numbers_of_their_session;
pub use numbers::Numbers;
pub use sink::CountingSink;
