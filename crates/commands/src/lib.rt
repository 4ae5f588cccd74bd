//! The commands: the words that give each, the files that it reads, what it may find of them, and the text and the status that say so.
//!
//! # Decisions
//!
//! **Which refusal comes first?** Words, the files in the order of the words, the description, the script. All files are fetched
//! before the description is judged, so that `not read` does not depend on what a file holds. For the same reason `live` takes its stimuli
//! whole, behind the description, before it judges any of them.
//!
//! **Which number is behind `not read`?** That of the first file that could not be read, among those that the command reads, from 1. So it
//! is the place of its word, but for the stimuli of `live`, which are file 2 and have no word. The files are fetched in this order, and a
//! shelf that tells its files counts its fetches: so the number is by how much that count rose in the call, as long as it does not come
//! near 2^64.
//!
//! **Is `done` a verdict of each command?** Yes, and what is then put is the command's own (`SaysDone`). `legal` is the `done` of
//! `check`. A refusal has its text by an equation, so `report` is one function for all of them.
#![tactic(auto)]

mod command;
mod feeding;
mod fetch;
mod laws;
mod pairing;
mod preparing;
mod reporting;
mod status;
mod stop;

pub use command::{Command, command_in};
pub use feeding::{PreparedFeeds, judge_live};
pub use fetch::fetch_all;
pub use laws::verdicts_are_one;
pub use pairing::{LinkedScript, PlannedPair, PreparedPair, judge_pair};
pub use preparing::{Prepared, judge, plan_bytes};
pub use reporting::{put_text, report};
pub use status::Status;
pub use stop::{Finding, Stop};
