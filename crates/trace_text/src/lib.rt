//! Traces: the line of each entry, and the lines that stand between entries.
//!
//! A line is written into a `LineBuf` of 2,048 bytes. If the names of a plan are as short as a sound plan's, no
//! line is longer, so it always fits.
//!
//! # Decisions
//!
//! **What has `write_entry` to know of an entry?** Nothing. It has to know that the plan's names are short (`names_fit`) and its
//! coherent lists sound (`lists_sound`), as in a sound plan: then every line fits, and a list's place among those of its runnable
//! is a difference of two numbers. An entry that does not fit the plan has a line too, by the defaults of `look`.
//!
//! **Who writes the lines that are no entries?** `trace_text`, by `header`, `run_line`, `idle_line` and `unsettled_line`, so that
//! each text of a trace is made in one crate. The line of a tick stands there too (`tick_line`), since it is the same in every version
//! and over every plan, and scripts have very many.
#![tactic(auto)]

mod actors;
mod deeds;
mod fields;
mod lines;
mod lists;
mod names;

pub use lines::{header, idle_line, run_line, tick_line, unsettled_line, write_entry};
