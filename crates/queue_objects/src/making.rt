//! A group of a plan, made.

ghost use Rattle.std.specs.Prelude.{◌≡◌, ◌<◌, ◌^◌, ◌++◌, [], ◌∷◌, IfOk, OnOk, if◌then◌else◌, filter, length, map, sum, true};
ghost use Rattle.bus_semantics.specs.Common.{plan_of, kind_of, places_at, groups_fit};
ghost use Rattle.object_kinds.specs.Layout.{events_of, waits_for_data};
ghost use Rattle.queue_objects.specs.Kept.{opening};
ghost use Rattle.queue_objects.specs.Layout.{receivers_of, receiver_of, waits_for_receiver, words_in, IsQueuedGroup};
ghost use Rattle.queue_objects.specs.Plans.{IsGroupOfPlan};

use crate::Memory;
use crate::elements::{awaits_receiver, element_at, is_receiver, length_at, words_at};
use crate::queue_group::QueueGroup;
use bus_semantics::BusPlan;
use object_kinds::find;
use queued_ports::Queues;
use std::alloc::Global;

impl QueueGroup {
    /// The group of this number, of which each element is queued and for whose elements these events of the plan wait. Nothing has
    /// happened to it yet. The only error is that there is no memory for it; no later call takes any.
    pub fn new(alloc: Global, p: &BusPlan, group: u32, events: &[u32]) -> Result<QueueGroup, Memory>
        requires groups { groups_fit (plan_of p.now) ≡ true }
        requires queued { IsQueuedGroup (plan_of p.now) group }
        requires waiting { events.now ≡ events_of (plan_of p.now) (waits_for_data (plan_of p.now) group) }
        requires places { sum (map (places_at (plan_of p.now)) (receivers_of (plan_of p.now) group)) < 2 ^ 32 }
        ensures kept { IfOk result (λ g. g.kept ≡ opening (plan_of p.now) group) }
        ensures planned { IfOk result (λ g. IsGroupOfPlan (plan_of p.now) group g.kept) }
    {
        let receivers = receivers_of(alloc, p, group)?;
        let events = awaiting(alloc, p, group, events)?;
        let awaited = awaited_receivers(alloc, p, group, receivers.as_slice(), events.as_slice())?;
        let lengths = lengths_of(alloc, p, receivers.as_slice())?;
        let queues = Queues::new(alloc, lengths, awaited, words_of(p, group))?;
        let woken = Vec::with_capacity(alloc, events.len())?;
        Ok(QueueGroup {
            receivers,
            events,
            queues,
            woken,
        })
    }
}

/// Appends a number if it passes.
fn push_where(numbers: &mut Vec<u32>, number: u32, passes: bool) -> Result<(), Memory>
    ensures { OnOk result (numbers.new.items ≡ (if passes then numbers.old.items ++ number ∷ [] else numbers.old.items)) }
{
    if passes {
        numbers.push(number)?;
    }
    Ok(())
}

/// The receivers of a group.
fn receivers_of(alloc: Global, p: &BusPlan, group: u32) -> Result<Vec<u32>, Memory>
    requires groups { groups_fit (plan_of p.now) ≡ true }
    requires within { group < length p.now.groups }
    ensures { IfOk result (λ receivers. receivers.items ≡ receivers_of (plan_of p.now) group) }
{
    let mut receivers = Vec::new(alloc);
    for elem in p.groups.items()[group as usize].items() {
        push_where(&mut receivers, *elem, is_receiver(p, group, *elem))?;
    }
    Ok(receivers)
}

/// The events among some that wait for a receiver of a group.
fn awaiting(alloc: Global, p: &BusPlan, group: u32, events: &[u32]) -> Result<Vec<u32>, Memory>
    ensures { IfOk result (λ waiting. waiting.items ≡ filter (λ e. waits_for_receiver (plan_of p.now) group (kind_of (plan_of p.now) e)) events.now) }
{
    let mut waiting = Vec::new(alloc);
    for event in events {
        push_where(&mut waiting, *event, awaits_receiver(p, group, *event))?;
    }
    Ok(waiting)
}

/// The receivers, by place, for which these events of a group wait.
fn awaited_receivers(
    alloc: Global,
    p: &BusPlan,
    group: u32,
    receivers: &[u32],
    events: &[u32],
) -> Result<Vec<u32>, Memory>
    requires { receivers.now ≡ receivers_of (plan_of p.now) group }
    ensures { IfOk result (λ awaited. awaited.items ≡ map (receiver_of (plan_of p.now) group) events.now) }
{
    let mut awaited = Vec::new(alloc);
    for event in events {
        awaited.push(awaited_receiver(p, group, receivers, *event))?;
    }
    Ok(awaited)
}

/// The receiver, by place, for which an event of a group waits.
fn awaited_receiver(p: &BusPlan, group: u32, receivers: &[u32], event: u32) -> u32
    requires { receivers.now ≡ receivers_of (plan_of p.now) group }
    ensures { result ≡ receiver_of (plan_of p.now) group event }
{
    match find(receivers, element_at(p, event)) {
        Some(place) => place,
        None => 0,
    }
}

/// The lengths of the queues of these elements.
fn lengths_of(alloc: Global, p: &BusPlan, receivers: &[u32]) -> Result<Vec<u32>, Memory>
    ensures { IfOk result (λ lengths. lengths.items ≡ map (places_at (plan_of p.now)) receivers.now) }
{
    let mut lengths = Vec::new(alloc);
    for elem in receivers {
        lengths.push(length_at(p, *elem))?;
    }
    Ok(lengths)
}

/// How many words a value of a group has.
fn words_of(p: &BusPlan, group: u32) -> u8
    requires groups { groups_fit (plan_of p.now) ≡ true }
    requires within { group < length p.now.groups }
    ensures { result ≡ words_in (plan_of p.now) group }
{
    match p.groups.items()[group as usize].items().first() {
        Some(elem) => words_at(p, *elem),
        None => 0,
    }
}
