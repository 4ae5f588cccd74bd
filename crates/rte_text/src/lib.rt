//! What the program stands on: files and output with their faults, and small texts, lists and lines.
#![tactic(auto)]

mod gate;
mod line;
mod memory_shelf;
mod memory_sink;
mod real;
mod refusal;
mod seq;
mod shelf;
mod sink;
mod text;
mod threads;

pub use gate::{Gate, OpenGate};
pub use line::{LINE_LIMIT, LineBuf};
pub use memory_shelf::MemoryShelf;
pub use memory_sink::MemorySink;
pub use real::{FileShelf, StdSink};
pub use refusal::{Refusal, Refused};
pub use seq::Seq;
pub use shelf::{FILE_LIMIT, Fetched, Shelf};
pub use sink::{Put, Sink};
pub use text::Text;

/// There was no memory for what a call makes.
pub type Memory = std::alloc::AllocError;
