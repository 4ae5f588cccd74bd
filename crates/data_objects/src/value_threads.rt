//! What passes between threads.

use crate::Unqueued;

/// Is called only if values of the type may be moved to and shared with other threads.
fn passes<T: Send + Sync>() {}

/// What groups keep passes.
fn show_what_passes() {
    passes::<Unqueued>();
}
