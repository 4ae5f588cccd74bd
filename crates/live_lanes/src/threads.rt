//! What passes between threads.

ghost use Rattle.std.specs.Thread.{IsSync};

use crate::workers::Worker;

/// Is called only where values of the type may be moved to another thread.
fn passes<T: Send>() {}

/// Values of the type may be shared with other threads.
pub(crate) fn is_shared<T: Sync>()
    ensures { IsSync T.row }
{}

/// All who run pass.
fn show_what_passes() {
    passes::<Worker>();
}
