//! The events of a bundle, each for its group.

ghost use Rattle.std.specs.Prelude.{◌≡◌, ◌<◌, ◌==◌, ℕ, IfOk, filter, length, map, true};
ghost use Rattle.bus_semantics.specs.Plan.{plan_of, group_of, kind_of};
ghost use Rattle.object_kinds.specs.Common.{listed_at, element_in, is_rising};
ghost use Rattle.bundle_objects.specs.Layout.{place_among};

use crate::Memory;
use bus_semantics::{BusPlan, EventKind};
use object_kinds::{append_to, empty_lists, find};
use std::alloc::Global;

/// The group of the element of a DataReceivedEvent.
fn awaited_group(p: &BusPlan, event: u32) -> Option<u32>
    ensures { result ≡ group_of (plan_of p.now) (element_in (kind_of (plan_of p.now) event)) }
{
    match p.kind_of(event) {
        EventKind::DataReceived(elem) => p.group_of(elem),
        _ => p.group_of(0),
    }
}

/// The place of the group that an event waits for, among groups in rising order.
fn place_among(p: &BusPlan, numbers: &[u32], event: u32) -> u32
    requires { is_rising numbers.now ≡ true }
    ensures { result ≡ place_among (plan_of p.now) numbers.now event }
{
    match awaited_group(p, event) {
        Some(group) => find(numbers, group).unwrap_or(0),
        None => 0,
    }
}

/// For each event the place of its group.
pub(crate) fn places_of(
    alloc: Global,
    p: &BusPlan,
    numbers: &[u32],
    events: &[u32],
) -> Result<Vec<u32>, Memory>
    requires { is_rising numbers.now ≡ true }
    ensures { IfOk result (λ places. places.items ≡ map (place_among (plan_of p.now) numbers.now) events.now) }
{
    let mut places = Vec::new(alloc);
    for event in events {
        places.push(place_among(p, numbers, *event))?;
    }
    Ok(places)
}

/// For each group those of the events that wait for it, in their order. There is a group.
pub(crate) fn split_events(
    alloc: Global,
    p: &BusPlan,
    numbers: &[u32],
    events: &[u32],
) -> Result<Vec<Vec<u32>>, Memory>
    requires rise { is_rising numbers.now ≡ true }
    requires some { 0 < length numbers.now }
    ensures long { IfOk result (λ lists. length lists.items ≡ length numbers.now) }
    ensures waiting { IfOk result (λ lists. (place : ℕ) → listed_at lists.items place ≡ filter (λ e. place_among (plan_of p.now) numbers.now e == place) events.now) }
{
    let mut lists = empty_lists(alloc, numbers.len())?;
    for event in events {
        append_to(&mut lists, place_among(p, numbers, *event), *event)?;
    }
    Ok(lists)
}
