//! Values on a link of bytes between two nodes: the links, the frame of a value, and the values of frames that come in any
//! pieces. Only making a pipe takes memory.
//!
//! A good frame is one of a value that its link takes: as many words as the link has, each within its limits. Only making a pipe
//! takes memory: no other call lends an allocator. (No clause can say so.) The rows `turned` turn each byte of a frame to each value,
//! and compare where a bad frame is found with a table that is made by hand.
//!
//! # Decisions
//!
//! **When is a frame bad?** At the first byte with which no good frame begins, and not when all of its bytes came: else a damaged
//! number of words would have the unframer wait for bytes that never come. So a word is judged with each of its bytes: those that
//! came leave an interval of words, in which no sign changes, and the limits have to reach it.
//!
//! **What comes behind a bad frame?** Bad frames alone. The frame has no end that could be looked for, and a value that was made
//! of what stands behind it would be a guess.
//!
//! **Does a link say that it never fails?** It can (`never_fails`), since a call that is generic in its link forgets which one it
//! had. Without it nothing would show that a pipe to which no failing call was given does not fail.
//!
//! **Does a call that fails count as one of a pipe?** Yes, in both counts: the calls that fail are numbered over all calls, and
//! the cuts over all calls of `receive`.
//!
//! **Why has a link no word for its limits being words?** They are: its fields have the type of words. A law has no code that
//! reads them, so `frames_are_one` and `answers_are_one` have the premise `AreOfWords`. No clause of a call has it.
#![tactic(auto)]

mod advancing;
mod carrying;
mod frame_buf;
mod header;
mod laws;
mod link;
mod link_elem;
mod part;
mod payload;
mod pipe_link;
mod threads;
mod unframer;
mod word_head;

pub use carrying::{Arrived, carry};
pub use frame_buf::{FRAME_LIMIT, FrameBuf, frame};
pub use laws::{answers_are_one, cut_frames_show_more, frames_are_one, pieces_are_all_one};
pub use link::{Got, Link, Sent};
pub use link_elem::LinkElem;
pub use pipe_link::PipeLink;
pub use unframer::{Fed, Found, Unframer};

/// There was no memory for what a call makes.
pub type Memory = std::alloc::AllocError;
