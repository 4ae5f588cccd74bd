//! What passes between threads.

use crate::{Acted, Answered, Benched, Filled, Object, Shown};

/// Is called only if values of the type may be moved to and shared with other threads.
fn passes<T: Send + Sync>() {}

/// Objects and answers pass.
fn show_what_passes() {
    passes::<Object>();
    passes::<Shown>();
    passes::<Acted>();
    passes::<Filled>();
    passes::<Benched>();
    passes::<Answered>();
}
