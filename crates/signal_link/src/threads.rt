//! What passes between threads.

use crate::{Arrived, Fed, FrameBuf, LinkElem, PipeLink, Unframer};

/// Is called only if values of the type may be moved to and shared with other threads.
fn passes<T: Send + Sync>() {}

/// Links, frames, unframers, what they answer, and values that arrived pass.
fn show_what_passes() {
    passes::<LinkElem>();
    passes::<FrameBuf>();
    passes::<Fed>();
    passes::<Arrived>();
    passes::<Unframer>();
    passes::<PipeLink>();
}
