//! A bundle of a plan, made.

ghost use Rattle.std.specs.Prelude.{◌≡◌, ◌<◌, ◌≤◌, ◌^◌, ℕ, IfOk, OnOk, get_or, length, map, sum_by, true, [], Some, slice_get};
ghost use Rattle.bus_semantics.specs.Common.{plan_of, groups_fit, bundles_fit, groups_at};
ghost use Rattle.object_kinds.specs.Common.{listed_at, events_of, waits_for_data, waits_in_bundle};
ghost use Rattle.data_objects.specs.Kept as groups;
ghost use Rattle.data_objects.specs.Kept.{GroupState};
ghost use Rattle.data_objects.specs.Layout.{IsUnqueuedGroup};
ghost use Rattle.bundle_objects.specs.Kept.{opening};
ghost use Rattle.bundle_objects.specs.Layout.{IsBundle};
ghost use Rattle.bundle_objects.specs.Plans.{IsOfPlan};

use crate::Memory;
use crate::bundle::Bundle;
use crate::splitting::{places_of, split_events};
use bus_semantics::BusPlan;
use data_objects::Group;
use object_kinds::take_list;
use std::alloc::Global;

impl Bundle {
    /// The bundle of this number, of which no element is queued and for whose groups these events of the plan wait. Nothing has happened
    /// to it yet. The only error is that there is no memory for it; no later call takes any.
    pub fn new(alloc: Global, p: &BusPlan, bundle: u32, events: Vec<u32>) -> Result<Bundle, Memory>
        requires groups { groups_fit (plan_of p.now) ≡ true }
        requires bundles { bundles_fit (plan_of p.now) ≡ true }
        requires few { length p.now.groups < 2 ^ 32 }
        requires bundle { IsBundle (plan_of p.now) bundle }
        requires waiting { events.items ≡ events_of (plan_of p.now) (waits_in_bundle (plan_of p.now) bundle) }
        ensures kept { IfOk result (λ b. b.kept ≡ opening (plan_of p.now) bundle) }
        ensures planned { IfOk result (λ b. IsOfPlan (plan_of p.now) bundle b.kept) }
    {
        let numbers = numbers_of(alloc, p, bundle)?;
        let places = places_of(alloc, p, numbers.as_slice(), events.as_slice())?;
        let mut lists = split_events(alloc, p, numbers.as_slice(), events.as_slice())?;
        let mut woken = Vec::new(alloc);
        let groups = make_groups(alloc, p, numbers.as_slice(), &mut lists, &mut woken)?;
        woken.clear();
        Ok(Bundle {
            numbers,
            events,
            places,
            groups,
            woken,
        })
    }
}

/// The numbers of a bundle's groups.
fn numbers_of(alloc: Global, p: &BusPlan, bundle: u32) -> Result<Vec<u32>, Memory>
    requires bundles { bundles_fit (plan_of p.now) ≡ true }
    requires within { bundle < length p.now.bundles }
    ensures { IfOk result (λ numbers. numbers.items ≡ groups_at (plan_of p.now) bundle) }
{
    let mut numbers = Vec::new(alloc);
    numbers.extend_from_slice(p.bundles.items()[bundle as usize].items())?;
    Ok(numbers)
}

/// The groups of these numbers, each with the events in its list, which are appended to `woken` too: so it has room for all.
fn make_groups(
    alloc: Global,
    p: &BusPlan,
    numbers: &[u32],
    lists: &mut Vec<Vec<u32>>,
    woken: &mut Vec<u32>,
) -> Result<Vec<Group>, Memory>
    requires groups { groups_fit (plan_of p.now) ≡ true }
    requires few { length numbers.now < 2 ^ 32 }
    requires long { length lists.old.items ≡ length numbers.now }
    requires none { woken.old.items ≡ [] }
    requires unqueued { (place group : ℕ) → slice_get numbers.now place ≡ Some group → IsUnqueuedGroup (plan_of p.now) group }
    requires waiting { (place group : ℕ) → slice_get numbers.now place ≡ Some group → listed_at lists.old.items place ≡ events_of (plan_of p.now) (waits_for_data (plan_of p.now) group) }
    ensures made { IfOk result (λ gs. map (λ (g : GroupState). g.kept) gs.items ≡ map (groups.opening (plan_of p.now)) numbers.now) }
    ensures room { IfOk result (λ gs. sum_by (λ (g : GroupState). length g.kept.unqueued.due) gs.items ≤ length woken.new.items) }
{
    let mut groups = Vec::new(alloc);
    for place in 0..numbers.len() as u32 {
        let events = take_list(alloc, lists, place);
        woken.extend_from_slice(events.as_slice())?;
        groups.push(Group::new(alloc, p, numbers[place as usize], events)?)?;
    }
    Ok(groups)
}
