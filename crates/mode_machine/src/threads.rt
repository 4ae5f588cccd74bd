//! What passes between threads.

use crate::{Admitted, Advanced, Machine};

/// Is called only if values of the type may be moved to and shared with other threads.
fn passes<T: Send + Sync>() {}

/// Machines and what they answer pass.
fn show_what_passes() {
    passes::<Admitted>();
    passes::<Advanced>();
    passes::<Machine>();
}
