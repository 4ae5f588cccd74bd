//! What rows of the table of cases are made of: how a row is written, the edits of a description, what lines of a trace are read as,
//! what a row shows of what was told, and what benches, frames and pipes tell, which no command reaches. The rows themselves are tried: nothing is
//! claimed of this crate but that it is safe.
#![tactic(auto)]

mod counting;
mod edit;
mod fault;
mod frames;
mod notation;
mod numbers;
mod pipes;
mod readings;
mod row;
mod seats;
mod summary;
mod turns;

pub use edit::edited;
pub use fault::Fault;
pub use frames::turns_shown;
pub use notation::{HashSign, expanded};
pub use numbers::{numbers_of, pairs_of};
pub use pipes::{calls_shown, cuts_of, pipe_of};
pub use readings::{read_back, read_lines};
pub use row::Row;
pub use seats::seats_told;
pub use summary::{Shown, summarized};
pub use turns::turns_told;
