//! What passes between threads.

use crate::{FeedQueue, Feeder, Feeding, Pump};
use std::marker::Brand;

/// Is called only if values of the type may be moved to another thread.
fn passes<T: Send>() {}

/// Is called only if values of the type may be shared with other threads.
fn is_shared<T: Sync>() {}

/// Feeders and the pump pass, and the queue is shared.
fn show_what_passes<F: Feeding + Send + Sync>() {
    passes::<Feeder>();
    passes::<Pump>();
    passes::<FeedQueue<F>>();
    is_shared::<FeedQueue<F>>();
}

/// So it is where a call picks how long the feeds are.
fn show_what_passes_at_a_pick() {
    show_what_passes::<Brand>();
}
