//! The events of a group.

ghost use Rattle.std.specs.Prelude.{◌≡◌};
ghost use Rattle.bus_semantics.specs.Plan.{plan_of, kind_of};
ghost use Rattle.object_kinds.specs.Layout.{element_in};

use bus_semantics::{BusPlan, EventKind};

/// The element of a DataReceivedEvent; 0 for another event.
pub(crate) fn element_at(p: &BusPlan, event: u32) -> u32
    ensures { result ≡ element_in (kind_of (plan_of p.now) event) }
{
    match p.kind_of(event) {
        EventKind::DataReceived(elem) => elem,
        _ => 0,
    }
}
