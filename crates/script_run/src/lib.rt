//! Running a script on a node: what its lines ask for, in order, with the trace of what comes of it.
//!
//! A node goes on from whatever has happened to it: the trace that is put is the text of a session that follows that
//! history.
//!
//! # Decisions
//!
//! **How are lines put?** One put for each line, from a buffer of fixed room. So a fault cuts within a known line, and running a
//! script takes no memory of its own.
//!
//! **Why is the line of a tick not written by `write_entry`?** It is the same in every version and over every plan
//! (`trace_text::tick_line`), and scripts have many ticks.
//!
//! **What does a script go on from?** `run_script` speaks of each history for which the node is lawful, so that a node can go on
//! after other calls. The program gives it a new node, and the history is empty.
//!
//! **When is a run line given up?** After the first round and serial pass with which it has at least 100,000 entries, if the pass
//! made one. A pass without an entry closes the line with `idle`, however many there were. A history alone does not tell which of
//! the two it was: the last entry may be of the round or of the pass. So this is no clause of `run_script`, which speaks of what
//! was put, but one of `put_lap`, which makes one round and one pass and knows what the pass made.
//!
//! **Why do calls of a script say what they add to a session, and not what was put since the script began?** If two nodes write
//! one trace, lines of the other stand between, so a text that goes back to the header is nobody's. A session and the lines of
//! what a call adds to it can be said of each node alone. For the same reason a line is put behind a prefix, which says whose it
//! is, by a put of its own; without a prefix it is one put, as ever. A sink that adds prefixes would not do: a sink may be given
//! any piece, and can't know where a line begins.
//!
//! **Why does a run say that its items fit?** A legal trace asks for it. That an entry fits follows from the run; that its numbers
//! have 32 bits, its codes 8 and its words 64 does not, since an entry of a definition may hold any number. `run_script` shows it
//! of the entries that it puts, by the types that they have in the code.
#![tactic(auto)]

mod laps;
mod laws;
mod lines;
mod script;
mod sizes;
mod writing;

pub use laps::{Lap, put_lap, put_run};
pub use laws::{runs_from_nothing_are_runs, what_is_added_is_a_session};
pub use lines::put_entry;
pub use script::{ScriptRun, make_call, put_ticks, run_line, run_script};
pub use script_reading::{ScriptRead, read_script};
pub use writing::{Writing, put_behind};
