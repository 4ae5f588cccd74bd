//! The check of a given trace against a bus and a script.
//!
//! # Decisions
//!
//! **What does the check of a trace keep?** The objects of the bus and the bodies of its runnables, as a run has them; a frame for
//! each activation that runs; what is left of the script; and whether a run line is open, with how many entries it has. An entry
//! is made on its one object, and nothing goes over the trace behind it.
//!
//! **Up to what are the entries of a run line counted?** Up to 100,000, since `unsettled` asks for no more. So no count is too
//! great, however long the trace is.
//!
//! **How are lines read?** To find what a line names takes longer than to write a line. So first each line is compared with the text of what
//! its actor asks for next, made on its object: what the program of its activation wants, the next call of the script, the next phase
//! of a machine, or a start by the event that is guessed. A tick for which the script asks is made without an entry, since all ticks have
//! one line. If all lines are so, the trace is legal. If one is not, the whole trace is checked anew, and each line is read before
//! anything is made. So a trace with a fault takes twice the time at most.
#![tactic(auto)]

mod bus_state;
mod check;
mod lines;
mod orders;
mod quick;
mod rules;
mod script;
mod seen;
mod trace;

pub use trace::check_trace;
pub use trace_reading::Checked;
