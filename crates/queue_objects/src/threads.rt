//! What passes between threads.

use crate::QueueGroup;

/// Is called only if values of the type may be moved to and shared with other threads.
fn passes<T: Send + Sync>() {}

/// Groups pass.
fn show_what_passes() {
    passes::<QueueGroup>();
}
