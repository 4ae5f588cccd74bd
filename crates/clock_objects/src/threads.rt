//! What passes between threads.

use crate::Ticks;

/// Is called only if values of the type may be moved to and shared with other threads.
fn passes<T: Send + Sync>() {}

/// The clock passes.
fn show_what_passes() {
    passes::<Ticks>();
}
