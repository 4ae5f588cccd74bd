//! What passes between threads.

use crate::{Outcome, Request, Server};

/// Is called only if values of the type may be moved to and shared with other threads.
fn passes<T: Send + Sync>() {}

/// Servers and what passes through them pass.
fn show_what_passes() {
    passes::<Outcome>();
    passes::<Request>();
    passes::<Server>();
}
