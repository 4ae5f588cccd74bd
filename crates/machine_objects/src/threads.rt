//! What passes between threads.

use crate::MachineObject;

/// Is called only if values of the type may be moved to and shared with other threads.
fn passes<T: Send + Sync>() {}

/// Machines pass.
fn show_what_passes() {
    passes::<MachineObject>();
}
