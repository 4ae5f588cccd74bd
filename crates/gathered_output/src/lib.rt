//! Output that is gathered before it is written, 64 KiB at a time.
//!
//! What was taken is what the writer has and then what is left to be written. Claims on bytes speak of a writer whose bytes are
//! known; those of standard output are not. Claims on what is left and on faults hold of every writer. No clause says when a
//! writer of the system fails: that a fault is counted only if a write fails or takes nothing, or a flush fails, is read in
//! `counting.rt`.
//!
//! # Decisions
//!
//! **When is a put line written?** At a terminal at once (`StdSink`). Elsewhere output is gathered (`GatheringSink`, which holds
//! 64 KiB): one write to the system for each line cost half of the time of a run. A put that was answered Done then means that the
//! sink has the bytes. `run_gathered` has it write the rest at the end, and ends with status 4 if that fails. So status 0 means
//! that the system took every byte, as before, and the clauses on puts are word for word what they were. The library's `BufWriter`
//! does the same, but its contracts say neither what it took nor why it failed after an error. So the room is a `Vec` of our own
//! over a writer that counts its faults: then no fault can be made up, and no byte is written twice after one.
#![tactic(auto)]

mod counting;
mod gathering;

pub use counting::CountedWriter;
pub use gathering::GatheringSink;
