//! What passes between threads.

use crate::PlaceSet;

/// Is called only if values of the type may be moved to and shared with other threads.
fn passes<T: Send + Sync>() {}

/// The set passes.
fn show_what_passes() {
    passes::<PlaceSet>();
}
