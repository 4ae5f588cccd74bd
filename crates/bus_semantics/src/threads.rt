//! What passes between threads.

use crate::{BusPlan, Deed, Mapping, Script, Stamped, Wish};

/// Is called only if values of the type may be moved to and shared with other threads.
fn passes<T: Send + Sync>() {}

/// Mappings, scripts, entries and wishes pass.
fn show_what_passes() {
    passes::<Mapping>();
    passes::<Script>();
    passes::<Deed>();
    passes::<Stamped>();
    passes::<Wish>();
}

/// Plans pass.
fn show_that_plans_pass() {
    passes::<BusPlan>();
}
