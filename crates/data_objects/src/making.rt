//! A group of a plan, made.

ghost use Rattle.std.specs.Prelude.{◌≡◌, ◌<◌, length, map, true, IfOk};
ghost use Rattle.bus_semantics.specs.Common.{plan_of, groups_fit};
ghost use Rattle.object_kinds.specs.Layout.{members_of, events_of, waits_for_data};
ghost use Rattle.data_objects.specs.Kept.{opening};
ghost use Rattle.data_objects.specs.Layout.{initial_of, receiver_of, IsUnqueuedGroup};
ghost use Rattle.data_objects.specs.Plans.{IsGroupOfPlan};

use crate::Memory;
use crate::events::element_at;
use crate::group::{Group, receiver};
use crate::unqueued::Unqueued;
use bus_semantics::BusPlan;
use rte_value::Value;
use std::alloc::Global;

impl Group {
    /// The group of this number, of which no element is queued and for which these events of the plan wait. Nothing has happened to
    /// it yet. The only error is that there is no memory for it; no later call takes any.
    pub fn new(alloc: Global, p: &BusPlan, group: u32, events: Vec<u32>) -> Result<Group, Memory>
        requires groups { groups_fit (plan_of p.now) ≡ true }
        requires unqueued { IsUnqueuedGroup (plan_of p.now) group }
        requires waiting { events.items ≡ events_of (plan_of p.now) (waits_for_data (plan_of p.now) group) }
        ensures kept { IfOk result (λ g. g.kept ≡ opening (plan_of p.now) group) }
        ensures planned { IfOk result (λ g. IsGroupOfPlan (plan_of p.now) group g.kept) }
    {
        let inits = initial_values(alloc, p, group)?;
        let receivers = receivers_of(alloc, p, group, events.as_slice())?;
        let unqueued = Unqueued::new(alloc, inits, receivers)?;
        let woken = Vec::with_capacity(alloc, events.len())?;
        Ok(Group {
            events,
            unqueued,
            woken,
        })
    }
}

/// The initial values of the elements of a group.
fn initial_values(alloc: Global, p: &BusPlan, group: u32) -> Result<Vec<Value>, Memory>
    requires groups { groups_fit (plan_of p.now) ≡ true }
    requires within { group < length p.now.groups }
    ensures { IfOk result (λ inits. inits.items ≡ map (initial_of (plan_of p.now)) (members_of (plan_of p.now) group)) }
{
    let mut inits = Vec::new(alloc);
    for elem in p.groups.items()[group as usize].items() {
        inits.push(initial_value(p, *elem))?;
    }
    Ok(inits)
}

/// The initial value of an element.
fn initial_value(p: &BusPlan, elem: u32) -> Value
    ensures { result ≡ initial_of (plan_of p.now) elem }
{
    match p.elements.items().get(elem as usize) {
        Some(element) => element.init.value(),
        None => Value::empty(),
    }
}

/// The receivers for which these events of a group wait.
fn receivers_of(alloc: Global, p: &BusPlan, group: u32, events: &[u32]) -> Result<Vec<u32>, Memory>
    requires groups { groups_fit (plan_of p.now) ≡ true }
    requires within { group < length p.now.groups }
    ensures { IfOk result (λ receivers. receivers.items ≡ map (receiver_of (plan_of p.now) group) events.now) }
{
    let mut receivers = Vec::new(alloc);
    for event in events {
        receivers.push(receiver_at(p, group, *event))?;
    }
    Ok(receivers)
}

/// The receiver of a group for which an event waits.
fn receiver_at(p: &BusPlan, group: u32, event: u32) -> u32
    requires groups { groups_fit (plan_of p.now) ≡ true }
    requires within { group < length p.now.groups }
    ensures { result ≡ receiver_of (plan_of p.now) group event }
{
    match receiver(p, group, element_at(p, event)) {
        Some(receiver) => receiver,
        None => 0,
    }
}
