//! Why nothing is carried out.

use rte_text::{Refusal, Text};
use trace_reading::Checked;

/// Why the files of a command are refused.
#[derive(Drop)]
pub enum Finding {
    /// The description breaks a rule.
    Refused(Refusal),
    /// A line of the script or of the stimuli is refused: its number, counted from 1, and the cause.
    Script { line: u64, cause: u8 },
    /// The trace is refused: the first line that is, with the clause that it breaks if it has a reading.
    Trace(Checked),
    /// No component has the name.
    NoComponent,
    /// Two different calls of the component have this name.
    Clash(Text),
    /// One of two descriptions breaks a rule: `which` is its place, 1 or 2.
    RefusedOf { refusal: Refusal, which: u8 },
    /// No element of two nodes is linked.
    NoLink,
    /// The description has more cores than may run while stimuli arrive.
    TooManyCores,
}

/// Why nothing is carried out.
#[derive(Drop)]
pub enum Stop {
    /// The words are no command.
    Words,
    /// A file could not be read. `place` is its place among those that the command reads, counted from 1.
    NotRead { place: u8 },
    /// The files are refused.
    Found(Finding),
    /// There was no memory.
    Memory,
}
