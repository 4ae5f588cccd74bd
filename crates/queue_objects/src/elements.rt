//! The elements and events of a group.

ghost use Rattle.std.specs.Prelude.{◌≡◌};
ghost use Rattle.bus_semantics.specs.Common.{plan_of, kind_of, places_at};
ghost use Rattle.object_kinds.specs.Layout.{element_in};
ghost use Rattle.queue_objects.specs.Layout.{is_joined_at, is_receiver_at, waits_for_receiver, words_at};

use bus_semantics::{BusPlan, EventKind};

/// Whether an element has a join.
pub(crate) fn is_joined(p: &BusPlan, elem: u32) -> bool
    ensures { result ≡ is_joined_at (plan_of p.now) elem }
{
    match p.elements.items().get(elem as usize) {
        Some(element) => element.joined,
        None => false,
    }
}

/// Whether an element is a receiver of a group.
pub(crate) fn is_receiver(p: &BusPlan, group: u32, elem: u32) -> bool
    ensures { result ≡ is_receiver_at (plan_of p.now) group elem }
{
    match p.elements.items().get(elem as usize) {
        Some(element) => (element.joined && !element.provided) && element.group == group,
        None => false,
    }
}

/// The length of an element's queue.
pub(crate) fn length_at(p: &BusPlan, elem: u32) -> u32
    ensures { result ≡ places_at (plan_of p.now) elem }
{
    match p.elements.items().get(elem as usize) {
        Some(element) => element.queue_length,
        None => 0,
    }
}

/// How many words a value of an element has.
pub(crate) fn words_at(p: &BusPlan, elem: u32) -> u8
    ensures { result ≡ words_at (plan_of p.now) elem }
{
    match p.elements.items().get(elem as usize) {
        Some(element) => element.words,
        None => 0,
    }
}

/// The element of a DataReceivedEvent; 0 for another event.
pub(crate) fn element_at(p: &BusPlan, event: u32) -> u32
    ensures { result ≡ element_in (kind_of (plan_of p.now) event) }
{
    match p.kind_of(event) {
        EventKind::DataReceived(elem) => elem,
        _ => 0,
    }
}

/// Whether an event waits for a receiver of a group.
pub(crate) fn awaits_receiver(p: &BusPlan, group: u32, event: u32) -> bool
    ensures { result ≡ waits_for_receiver (plan_of p.now) group (kind_of (plan_of p.now) event) }
{
    match p.kind_of(event) {
        EventKind::DataReceived(elem) => is_receiver(p, group, elem),
        _ => false,
    }
}
