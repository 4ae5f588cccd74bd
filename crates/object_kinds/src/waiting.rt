//! The events that wait for the data of each bundle.

ghost use Rattle.std.specs.Prelude.{◌≡◌, ℕ, ◌<◌, ◌≤◌, ◌^◌, ◌++◌, ◌==◌, [], ◌∷◌, length, true, Some, IfOk, OnOk, if◌then◌else◌};
ghost use Rattle.bus_semantics.specs.Common.{same_number, plan_of, kind_of, bundles_fit};
ghost use Rattle.object_kinds.specs.Layout.{events_of, waits_in_bundle};
ghost use Rattle.object_kinds.specs.Gathered.{listed_at};

use crate::Memory;
use bus_semantics::{BusPlan, EventKind};
use std::alloc::Global;
use std::mem;

/// So many empty lists, in one list.
pub fn empty_lists(alloc: Global, count: usize) -> Result<Vec<Vec<u32>>, Memory>
    ensures long { IfOk result (λ lists. length lists.items ≡ count) }
    ensures empty { IfOk result (λ lists. (group : ℕ) → listed_at lists.items group ≡ []) }
{
    let mut lists = Vec::new(alloc);
    for _ in 0..count {
        lists.push(Vec::new(alloc))?;
    }
    Ok(lists)
}

/// Appends an event to one of the lists.
pub fn append_to(lists: &mut Vec<Vec<u32>>, group: u32, event: u32) -> Result<(), Memory>
    requires { group < length lists.old.items }
    ensures long { length lists.new.items ≡ length lists.old.items }
    ensures appended { OnOk result ((other : ℕ) → listed_at lists.new.items other ≡ (if group == other then listed_at lists.old.items other ++ event ∷ [] else listed_at lists.old.items other)) }
{
    lists[group as usize].push(event)?;
    Ok(())
}

/// The bundle whose data an event waits for.
fn awaited_bundle(p: &BusPlan, event: u32) -> Option<u32>
    ensures { (bundle : ℕ) → waits_in_bundle (plan_of p.now) bundle (kind_of (plan_of p.now) event) ≡ same_number result (Some bundle) }
{
    match p.kind_of(event) {
        EventKind::DataReceived(elem) => p.bundle_of(elem),
        _ => None,
    }
}

/// Appends an event to the list of the bundle whose data it waits for.
fn add_in_bundle(p: &BusPlan, lists: &mut Vec<Vec<u32>>, event: u32) -> Result<(), Memory>
    requires bundles { bundles_fit (plan_of p.now) ≡ true }
    requires lists { length lists.old.items ≡ length p.now.bundles }
    ensures long { length lists.new.items ≡ length lists.old.items }
    ensures added { OnOk result ((bundle : ℕ) → listed_at lists.new.items bundle ≡ (if waits_in_bundle (plan_of p.now) bundle (kind_of (plan_of p.now) event) then listed_at lists.old.items bundle ++ event ∷ [] else listed_at lists.old.items bundle)) }
{
    match awaited_bundle(p, event) {
        Some(bundle) => append_to(lists, bundle, event),
        None => Ok(()),
    }
}

/// For each bundle the events that wait for its data, in rising order.
pub fn bundle_events(alloc: Global, p: &BusPlan) -> Result<Vec<Vec<u32>>, Memory>
    requires bundles { bundles_fit (plan_of p.now) ≡ true }
    requires events { length p.now.events < 2 ^ 32 }
    ensures long { IfOk result (λ lists. length lists.items ≡ length p.now.bundles) }
    ensures waiting { IfOk result (λ lists. (bundle : ℕ) → listed_at lists.items bundle ≡ events_of (plan_of p.now) (waits_in_bundle (plan_of p.now) bundle)) }
{
    let mut lists = empty_lists(alloc, p.bundles.len())?;
    for event in 0..p.events.len() as u32 {
        add_in_bundle(p, &mut lists, event)?;
    }
    Ok(lists)
}

/// Takes the list of a bundle out of the others.
pub fn take_list(alloc: Global, lists: &mut Vec<Vec<u32>>, group: u32) -> Vec<u32>
    requires { group < length lists.old.items }
    ensures long { length lists.new.items ≡ length lists.old.items }
    ensures taken { result.items ≡ listed_at lists.old.items group }
    ensures others { (other : ℕ) → group < other → listed_at lists.new.items other ≡ listed_at lists.old.items other }
{
    mem::replace(&mut lists[group as usize], Vec::new(alloc))
}
