//! The objects of a plan.

ghost use Rattle.std.specs.Prelude.{◌≡◌, ◌<◌, ◌^◌, ℕ, Bool, length, map, set, option_and_then, slice_get, true, false, [], Some, IfOk, OnOk};
ghost use Rattle.bus_semantics.specs.Common.{option_map_or, plan_of, bundle_of, bundles_fit};
ghost use Rattle.object_kinds.specs.Layout.{events_of, group_at, waits_in_bundle};
ghost use Rattle.queue_objects.specs.Layout.{is_queued_at};
ghost use Rattle.port_objects.specs.Objects.{kept_of, IsOfPlan, ArePlans};
ghost use Rattle.port_objects.specs.Opening.{before_servers, before_areas, before_machines, before_clock, opening, opening_of_bundle, opening_where, AreFirst, AreMade};
ghost use Rattle.port_objects.specs.Plans.{HasObjects, IsOneGroup, has_queues, is_listed};
ghost use Rattle.port_objects.specs.Standing.{Stands};

use crate::Memory;
use crate::object::Object;
use area_objects::AreaObject;
use bundle_objects::Bundle;
use bus_semantics::{BusPlan, CoherentList, ElemKind};
use clock_objects::Ticks;
use data_objects::Group;
use machine_objects::{MachineObject, mattering_events};
use object_kinds::{bundle_events, take_list};
use queue_objects::QueueGroup;
use server_objects::{ServerObject, joined_points, return_events};
use std::alloc::Global;

/// The objects of a plan, to which nothing has happened: one for each bundle, one for each server, one for each area, one for each mode machine, and then the clock, so that each stands at its number. The only error is that there is
/// no memory for them; what comes later on them takes none. Each keeps what it keeps before anything has happened, is the plan's
/// object at its number, and stands for no entry. What is asked of the plan (`HasObjects`) a sound one has.
pub fn make_objects(alloc: Global, p: &BusPlan) -> Result<Vec<Object>, Memory>
    requires sound { HasObjects (plan_of p.now) }
    ensures kept { IfOk result (λ objects. map kept_of objects.items ≡ opening (plan_of p.now)) }
    ensures planned { IfOk result (λ objects. ArePlans (plan_of p.now) objects.items) }
    ensures standing { IfOk result (λ objects. (i : ℕ) (o : Object) → slice_get objects.items i ≡ Some o → Stands (plan_of p.now) i (kept_of o) []) }
{
    let mut objects = Vec::new(alloc);
    push_objects(alloc, p, &mut objects)?;
    Ok(objects)
}

/// Appends the objects of each kind, in the order of their numbers.
fn push_objects(alloc: Global, p: &BusPlan, objects: &mut Vec<Object>) -> Result<(), Memory>
    requires sound { HasObjects (plan_of p.now) }
    requires none { objects.old.items ≡ [] }
    ensures { OnOk result (AreMade (plan_of p.now) objects.new.items) }
{
    push_bundles(alloc, p, objects)?;
    push_servers(alloc, p, objects)?;
    push_areas(p, objects)?;
    push_machines(alloc, p, objects)?;
    push_clock(alloc, p, objects)
}

/// Appends the object of each bundle.
fn push_bundles(alloc: Global, p: &BusPlan, objects: &mut Vec<Object>) -> Result<(), Memory>
    requires sound { HasObjects (plan_of p.now) }
    requires none { objects.old.items ≡ [] }
    ensures { OnOk result (AreFirst (plan_of p.now) (before_servers (plan_of p.now)) objects.new.items) }
{
    let mut waiting = bundle_events(alloc, p)?;
    let listed = listed_bundles(alloc, p)?;
    for bundle in 0..p.bundles.len() as u32 {
        let events = take_list(alloc, &mut waiting, bundle);
        objects.push(make_bundle(alloc, p, bundle, listed[bundle as usize], events)?)?;
    }
    Ok(())
}

/// For each bundle whether a coherent list touches it.
fn listed_bundles(alloc: Global, p: &BusPlan) -> Result<Vec<bool>, Memory>
    requires bundles { bundles_fit (plan_of p.now) ≡ true }
    ensures long { IfOk result (λ listed. length listed.items ≡ length p.now.bundles) }
    ensures listed { IfOk result (λ listed. (bundle : ℕ) (is : Bool) → slice_get listed.items bundle ≡ Some is → is ≡ is_listed (plan_of p.now) bundle) }
{
    let mut listed = vec![in alloc; false; p.bundles.len()]?;
    for list in p.lists.items() {
        mark_bundle(p, &mut listed, list);
    }
    Ok(listed)
}

/// Marks the bundle that a coherent list touches.
fn mark_bundle(p: &BusPlan, listed: &mut Vec<bool>, list: &CoherentList)
    requires bundles { bundles_fit (plan_of p.now) ≡ true }
    requires long { length listed.old.items ≡ length p.now.bundles }
    ensures { listed.new.items ≡ option_map_or (λ bundle. set listed.old.items bundle true) (option_and_then (bundle_of (plan_of p.now)) (slice_get list.now.elems 0)) listed.old.items }
{
    if let Some(bundle) = list_bundle(p, list) {
        listed[bundle as usize] = true;
    }
}

/// The bundle that a coherent list touches.
fn list_bundle(p: &BusPlan, list: &CoherentList) -> Option<u32>
    ensures { result ≡ option_and_then (bundle_of (plan_of p.now)) (slice_get list.now.elems 0) }
{
    match list.elems.items().first() {
        Some(elem) => p.bundle_of(*elem),
        None => None,
    }
}

/// The object of a bundle for whose groups these events wait: a bundle if coherent lists touch it, else a group.
fn make_bundle(
    alloc: Global,
    p: &BusPlan,
    bundle: u32,
    listed: bool,
    events: Vec<u32>,
) -> Result<Object, Memory>
    requires sound { HasObjects (plan_of p.now) }
    requires within { bundle < length p.now.bundles }
    requires listed { listed ≡ is_listed (plan_of p.now) bundle }
    requires waiting { events.items ≡ events_of (plan_of p.now) (waits_in_bundle (plan_of p.now) bundle) }
    ensures kept { IfOk result (λ o. kept_of o ≡ opening_of_bundle (plan_of p.now) bundle) }
    ensures planned { IfOk result (λ o. IsOfPlan (plan_of p.now) bundle o) }
    ensures standing { IfOk result (λ o. Stands (plan_of p.now) bundle (kept_of o) []) }
{
    bundle_objects::first_bundle_stands_for_nothing();
    if listed {
        Ok(Object::Bundle(Bundle::new(alloc, p, bundle, events)?))
    } else {
        make_group(alloc, p, bundle, events)
    }
}

/// Appends each server.
fn push_servers(alloc: Global, p: &BusPlan, objects: &mut Vec<Object>) -> Result<(), Memory>
    requires sound { HasObjects (plan_of p.now) }
    requires first { AreFirst (plan_of p.now) (before_servers (plan_of p.now)) objects.old.items }
    ensures { OnOk result (AreFirst (plan_of p.now) (before_areas (plan_of p.now)) objects.new.items) }
{
    server_objects::first_servers_stand_for_nothing();
    let mut points = joined_points(alloc, p)?;
    let mut returns = return_events(alloc, p)?;
    for server in 0..p.servers.len() as u32 {
        let called = take_list(alloc, &mut points, server);
        let awaited = take_list(alloc, &mut returns, server);
        let made = ServerObject::new(alloc, p, server, called, awaited)?;
        objects.push(Object::Server(made))?;
    }
    Ok(())
}

/// Appends each area.
fn push_areas(p: &BusPlan, objects: &mut Vec<Object>) -> Result<(), Memory>
    requires sound { HasObjects (plan_of p.now) }
    requires first { AreFirst (plan_of p.now) (before_areas (plan_of p.now)) objects.old.items }
    ensures { OnOk result (AreFirst (plan_of p.now) (before_machines (plan_of p.now)) objects.new.items) }
{
    area_objects::first_area_stands_for_nothing();
    for _area in 0..p.areas.len() {
        objects.push(Object::Area(AreaObject::new()))?;
    }
    Ok(())
}

/// Appends each mode machine.
fn push_machines(alloc: Global, p: &BusPlan, objects: &mut Vec<Object>) -> Result<(), Memory>
    requires sound { HasObjects (plan_of p.now) }
    requires first { AreFirst (plan_of p.now) (before_machines (plan_of p.now)) objects.old.items }
    ensures { OnOk result (AreFirst (plan_of p.now) (before_clock (plan_of p.now)) objects.new.items) }
{
    machine_objects::first_machine_stands_for_nothing();
    let mut mattering = mattering_events(alloc, p)?;
    for machine in 0..p.machines.len() as u32 {
        let events = take_list(alloc, &mut mattering, machine);
        let made = MachineObject::new(alloc, p, machine, events.as_slice())?;
        objects.push(Object::Machine(made))?;
    }
    Ok(())
}

/// Appends the clock.
fn push_clock(alloc: Global, p: &BusPlan, objects: &mut Vec<Object>) -> Result<(), Memory>
    requires sound { HasObjects (plan_of p.now) }
    requires first { AreFirst (plan_of p.now) (before_clock (plan_of p.now)) objects.old.items }
    ensures { OnOk result (AreMade (plan_of p.now) objects.new.items) }
{
    clock_objects::first_clock_stands_for_nothing();
    let ticks = Ticks::new(alloc, p)?;
    objects.push(Object::Clock(ticks))?;
    Ok(())
}

/// The object of a bundle that is a group by itself, for whose elements these events wait, by the kind of its elements.
fn make_group(alloc: Global, p: &BusPlan, bundle: u32, events: Vec<u32>) -> Result<Object, Memory>
    requires sound { HasObjects (plan_of p.now) }
    requires within { bundle < length p.now.bundles }
    requires one { IsOneGroup (plan_of p.now) bundle }
    requires waiting { events.items ≡ events_of (plan_of p.now) (waits_in_bundle (plan_of p.now) bundle) }
    ensures kept { IfOk result (λ o. kept_of o ≡ opening_where (plan_of p.now) bundle false) }
    ensures planned { IfOk result (λ o. IsOfPlan (plan_of p.now) bundle o) }
    ensures standing { IfOk result (λ o. Stands (plan_of p.now) bundle (kept_of o) []) }
{
    data_objects::first_group_stands_for_nothing();
    queue_objects::first_queues_stand_for_nothing();
    let group = group_at(p, bundle);
    if has_queues(p, group) {
        let queued = QueueGroup::new(alloc, p, group, events.as_slice())?;
        Ok(Object::Queued(queued))
    } else {
        Ok(Object::Unqueued(Group::new(alloc, p, group, events)?))
    }
}

/// The least group of a bundle.
fn group_at(p: &BusPlan, bundle: u32) -> u32
    requires sound { HasObjects (plan_of p.now) }
    requires within { bundle < length p.now.bundles }
    ensures { result ≡ group_at (plan_of p.now) bundle }
{
    match p.bundles.items()[bundle as usize].items().first() {
        Some(group) => *group,
        None => 0,
    }
}

/// Whether the elements of a group are queued, as its first one is.
fn has_queues(p: &BusPlan, group: u32) -> bool
    requires sound { HasObjects (plan_of p.now) }
    requires within { group < length p.now.groups }
    ensures { result ≡ has_queues (plan_of p.now) group }
{
    match p.groups.items()[group as usize].items().first() {
        Some(elem) => is_queued(p, *elem),
        None => false,
    }
}

/// Whether an element is queued.
fn is_queued(p: &BusPlan, elem: u32) -> bool
    ensures { result ≡ is_queued_at (plan_of p.now) elem }
{
    match p.elements.items().get(elem as usize) {
        Some(element) => matches!(element.kind, ElemKind::Queued),
        None => false,
    }
}
