//! What passes between threads.

ghost use Rattle.std.specs.Thread.{IsSync};

use crate::guesses::Guesses;
use crate::lanes::Lane;
use bus_semantics::BusPlan;
use cross_core_table::Round;
use task_machine::TaskSet;

/// Is called only if values of the type may be moved to another thread.
fn passes<T: Send>() {}

/// Values of the type may be shared with other threads.
pub(crate) fn is_shared<T: Sync>()
    ensures { IsSync T.row }
{}

/// Lanes pass, and what they work on is shared.
fn show_what_passes() {
    passes::<Lane>();
    is_shared::<BusPlan>();
    is_shared::<TaskSet>();
    is_shared::<Round>();
    is_shared::<Guesses>();
}
