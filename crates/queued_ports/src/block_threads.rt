//! What passes between threads.

use crate::{Block, Pool};

/// Is called only if values of the type may be moved to and shared with other threads.
fn passes<T: Send + Sync>() {}

/// Pools and blocks pass.
fn show_what_passes() {
    passes::<Block>();
    passes::<Pool>();
}
