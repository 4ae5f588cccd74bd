//! Threads that one thread starts, one after the other.
//!
//! # Decisions
//!
//! **Why does the calling thread start all others?** `for_each_mut` of the library halves its list, so that one new thread starts another while
//! the first starts the next. The system put two that were started at once on one processor, where the second waited for a round's time.
//! Each start costs the caller some 15 microseconds. Where no thread can be made, the last core goes first, as with `for_each_mut`.
#![tactic(auto)]

mod starting;

pub use starting::start_each;
