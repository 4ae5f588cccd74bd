//! What passes between threads.

use crate::{CoreSeat, Round};

/// Is called only if values of the type may be moved to another thread.
fn passes<T: Send>() {}

/// Is called only if values of the type may be shared with other threads.
fn is_shared<T: Sync>() {}

/// Seats pass, and the round is shared.
fn show_what_passes() {
    passes::<CoreSeat>();
    passes::<Round>();
    is_shared::<Round>();
}
