//! What passes between threads.

use crate::{Queues, Received};

/// Is called only if values of the type may be moved to and shared with other threads.
fn passes<T: Send + Sync>() {}

/// Queues and what a receive finds pass.
fn show_what_passes() {
    passes::<Queues>();
    passes::<Received>();
}
