//! What passes between threads.

use crate::{Area, AreaObject, Entered};

/// Is called only if values of the type may be moved to and shared with other threads.
fn passes<T: Send + Sync>() {}

/// Areas, what entering one comes to, and areas as objects pass.
fn show_what_passes() {
    passes::<Area>();
    passes::<Entered>();
    passes::<AreaObject>();
}
