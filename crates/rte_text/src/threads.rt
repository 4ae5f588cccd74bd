//! What passes between threads.

use crate::{LineBuf, OpenGate, Refused, Seq, Text};

/// Is called only if values of the type may be moved to and shared with other threads.
fn passes<T: Send + Sync>() {}

/// Texts, lists of what passes, lines, refusals and the open gate pass.
fn show_what_passes<T: Send + Sync>() {
    passes::<Text>();
    passes::<Seq<T>>();
    passes::<LineBuf>();
    passes::<Refused>();
    passes::<OpenGate>();
}
