//! What passes between threads.

use crate::{Awake, Core, Turned};

/// Is called only if values of the type may be moved to and shared with other threads.
fn passes<T: Send + Sync>() {}

/// Cores, what is awake of them, and answers pass.
fn show_what_passes() {
    passes::<Core>();
    passes::<Awake>();
    passes::<Turned>();
}
