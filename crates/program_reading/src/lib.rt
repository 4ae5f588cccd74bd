//! The programs of runnables, read from JSON.
//!
//! `read_program` gives the program that a value is. The names of ports, items, modes, areas and inter-runnable variables
//! become positions in the component around; the program's own variables are numbered by their first place in its text,
//! after those whose names come first (in a server, the arguments of its operation and `error`). A reading is there for
//! every value (`specs/Programs.antt`), with defaults if the rules of shape leave nothing to be read.
//!
//! # Decisions
//!
//! **How are a program's variables numbered?** By their first place in the program's text, an array's parts in their order; in a
//! server, after the arguments of its operation and `error`. A server is a runnable that an OperationInvokedEvent names, and the
//! first such event says of which operation.
#![tactic(auto)]

mod expression_reading;
mod in_program;
mod keywords;
mod program_reading;
mod simple_reading;
mod statement_reading;
mod variables;
mod words;

pub use program_reading::read_program;
pub use words::access_kind_of;
