//! What passes between threads.

use crate::Latches;

/// Is called only if values of the type may be moved to and shared with other threads.
fn passes<T: Send + Sync>() {}

/// The flags pass.
fn show_what_passes() {
    passes::<Latches>();
}
