//! Whether a plan is sure to be too large, by counts alone.

ghost use Rattle.std.specs.Prelude.{◌≡◌, ◌+◌, ◌-◌, ◌==◌, ◌||◌, IfOk, length, map, slice_get, sum_by};
ghost use Rattle.std.specs.Option.{unwrap_or};
ghost use Rattle.plan_definitions.specs.Common.{operation_count, operations_at, count_at, kind_at, provides_at, root_ports};
ghost use Rattle.event_mapping.specs.Foretold.{IsForetold};
ghost use Rattle.event_mapping.specs.Guard.{at_most, counted_with, events_of_instance, item_count, items_at, items_in, items_of_ports, outer_points, point_count, points_at, points_in};
ghost use Rattle.event_mapping.specs.Guard.{points_of_runnable};

use crate::size::{EVENTS, POINTS, THINGS};
use description_types::{
    Access, Component, Description, Flat, Instance, InterfaceKind, Join, Port, PortKind, Runnable,
    TypeTable,
};
use rte_text::Memory;
use runnable_lang::AccessKind;
use std::alloc::Global;

/// Whether the owner of a port provides its items: an instance at its P-ports, the environment at the R-ports of the root.
fn provides_at(owner: Option<u32>, side: PortKind) -> bool
    ensures { result ≡ provides_at owner side }
{
    match side {
        PortKind::Provided => owner.is_some(),
        PortKind::Required => owner.is_none(),
    }
}

fn items_of(owner: Option<u32>, side: PortKind, interface: &InterfaceKind) -> usize
    ensures { result ≡ counted_with (kind_at owner side interface.now, count_at owner side interface.now) }
{
    match interface {
        InterfaceKind::SenderReceiver(elements) => elements.len(),
        InterfaceKind::ClientServer(operations) => {
            if owner.is_some() && provides_at(owner, side) {
                operations.len()
            } else {
                0
            }
        }
        InterfaceKind::ModeSwitch(_) => { if provides_at(owner, side) { 1 } else { 0 } }
    }
}

fn items_at(types: &TypeTable, owner: Option<u32>, port: &Port) -> usize
    ensures { result ≡ items_at types.now owner port.now }
{
    match types.interfaces.items().get(port.interface as usize) {
        Some(interface) => items_of(owner, port.kind, &interface.kind),
        None => 0,
    }
}

/// What is left of a number after the items of some ports.
#[tactic(auto, using(component_rules::proofs::Spending::spent))]
fn after_ports(left: usize, types: &TypeTable, owner: Option<u32>, ports: &[Port]) -> usize
    ensures { result ≡ left - items_of_ports types.now owner ports.now }
{
    let mut rest = left;
    for port in ports {
        rest = rest.saturating_sub(items_at(types, owner, port));
    }
    rest
}

/// What is left of a number after the items of an instance of a component.
fn after_component(left: usize, types: &TypeTable, component: &Component) -> usize
    ensures { result ≡ left - items_in types.now component.now }
{
    let behavior = &component.behavior;
    let outer = after_ports(left, types, Some(0), component.ports.items());
    let inner = outer.saturating_sub(behavior.variables.len());
    inner.saturating_sub(behavior.exclusive_areas.len())
}

/// The items of an instance of each component, `most` if there are more. Counted once for each component, however many
/// instances it has.
fn items_of_components(
    alloc: Global,
    most: usize,
    types: &TypeTable,
    components: &[Component],
) -> Result<Vec<usize>, Memory>
    ensures { IfOk result (λ counts. counts.items ≡ map (at_most most (items_in types.now)) components.now) }
{
    let mut counts = Vec::new(alloc);
    for component in components {
        counts.push(most - after_component(most, types, component))?;
    }
    Ok(counts)
}

fn count_for(counts: &[usize], instance: &Instance) -> usize
    ensures { result ≡ unwrap_or (slice_get counts.now instance.now.component) 0 }
{
    match counts.get(instance.component as usize) {
        Some(count) => *count,
        None => 0,
    }
}

/// What is left of a number after as many for each instance as its component has.
#[tactic(auto, using(component_rules::proofs::Spending::spent))]
fn after_instances(left: usize, counts: &[usize], instances: &[Instance]) -> usize
    ensures { result ≡ left - sum_by (λ x. unwrap_or (slice_get counts.now x.component) 0) instances.now }
{
    let mut rest = left;
    for instance in instances {
        rest = rest.saturating_sub(count_for(counts, instance));
    }
    rest
}

fn root_ports(d: &Description) -> &[Port]
    ensures { result.now ≡ root_ports d.now }
{
    match d.compositions.items().get(d.root as usize) {
        Some(root) => root.ports.items(),
        None => &[],
    }
}

/// What is left of a number after all items.
fn after_items(alloc: Global, most: usize, d: &Description, f: &Flat) -> Result<usize, Memory>
    ensures { IfOk result (λ left. left ≡ most - item_count d.now f.now) }
{
    let counts = items_of_components(alloc, most, &d.types, d.components.items())?;
    let inner = after_instances(most, counts.as_slice(), f.instances.items());
    let left = after_ports(inner, &d.types, None, root_ports(d));
    Ok(left)
}

fn events_of_instance(d: &Description, instance: &Instance) -> usize
    ensures { result ≡ events_of_instance d.now instance.now }
{
    match d.components.items().get(instance.component as usize) {
        Some(component) => component.behavior.events.len(),
        None => 0,
    }
}

/// What is left of a number after the events of instances.
#[tactic(auto, using(component_rules::proofs::Spending::spent))]
fn after_events(left: usize, d: &Description, instances: &[Instance]) -> usize
    ensures { result ≡ left - sum_by (events_of_instance d.now) instances.now }
{
    let mut rest = left;
    for instance in instances {
        rest = rest.saturating_sub(events_of_instance(d, instance));
    }
    rest
}

/// The points of an access: a call has one.
fn points_at(access: Access) -> usize
    ensures { result ≡ points_at access }
{
    if matches!(access.kind, AccessKind::Call | AccessKind::ACall) {
        1
    } else {
        0
    }
}

/// What is left of a number after the points of a runnable.
#[tactic(auto, using(component_rules::proofs::Spending::spent))]
fn after_accesses(left: usize, accesses: &[Access]) -> usize
    ensures { result ≡ left - sum_by points_at accesses.now }
{
    let mut rest = left;
    for access in accesses {
        rest = rest.saturating_sub(points_at(*access));
    }
    rest
}

/// What is left of a number after the points of some runnables.
#[tactic(auto, using(component_rules::proofs::Spending::spent))]
fn after_runnables(left: usize, runnables: &[Runnable]) -> usize
    ensures { result ≡ left - sum_by points_of_runnable runnables.now }
{
    let mut rest = left;
    for runnable in runnables {
        rest = after_accesses(rest, runnable.accesses.items());
    }
    rest
}

/// The points of an instance of each component, `most` if there are more. Counted once for each component, however many
/// instances it has.
fn points_of_components(
    alloc: Global,
    most: usize,
    components: &[Component],
) -> Result<Vec<usize>, Memory>
    ensures { IfOk result (λ counts. counts.items ≡ map (at_most most points_in) components.now) }
{
    let mut counts = Vec::new(alloc);
    for component in components {
        counts.push(most - after_runnables(most, component.behavior.runnables.items()))?;
    }
    Ok(counts)
}

fn operations_in(interface: &InterfaceKind) -> usize
    ensures { result ≡ operation_count interface.now }
{
    match interface {
        InterfaceKind::ClientServer(operations) => operations.len(),
        InterfaceKind::SenderReceiver(_) | InterfaceKind::ModeSwitch(_) => 0,
    }
}

fn operations_at(d: &Description, port: &Port) -> usize
    ensures { result ≡ operations_at d.now port.now }
{
    match d.types.interfaces.items().get(port.interface as usize) {
        Some(interface) => operations_in(&interface.kind),
        None => 0,
    }
}

/// The points of the environment at a port of the root: one for each operation that it provides.
fn outer_points(d: &Description, port: &Port) -> usize
    ensures { result ≡ outer_points d.now port.now }
{
    match port.kind {
        PortKind::Provided => operations_at(d, port),
        PortKind::Required => 0,
    }
}

/// What is left of a number after the points of the environment.
#[tactic(auto, using(component_rules::proofs::Spending::spent))]
fn after_outer(left: usize, d: &Description, ports: &[Port]) -> usize
    ensures { result ≡ left - sum_by (outer_points d.now) ports.now }
{
    let mut rest = left;
    for port in ports {
        rest = rest.saturating_sub(outer_points(d, port));
    }
    rest
}

/// What is left of a number after all points.
fn after_points(alloc: Global, most: usize, d: &Description, f: &Flat) -> Result<usize, Memory>
    ensures { IfOk result (λ left. left ≡ most - point_count d.now f.now) }
{
    let counts = points_of_components(alloc, most, d.components.items())?;
    let inner = after_instances(most, counts.as_slice(), f.instances.items());
    let left = after_outer(inner, d, root_ports(d));
    Ok(left)
}

/// The least count of items that makes too many objects. Each join names two elements, which may be in a group with others; every
/// other item is an object, and so is the clock.
fn least_beyond(joins: &[Join]) -> usize
    ensures { result ≡ 16384 + (length joins.now + length joins.now) }
{
    THINGS as usize + (joins.len() + joins.len())
}

fn is_beyond(events: usize, points: usize, items: usize) -> bool
    ensures { result ≡ ((events == 0) || ((points == 0) || (items == 0))) }
{
    events == 0 || (points == 0 || items == 0)
}

/// Whether a plan is sure to have more than 16,384 objects or events, or has more than 262,144 points. It is counted, component by
/// component, before anything is listed: the plan of which this is false lists no more than 16,384 events, no more than 262,144
/// points, and no more elements, servers, areas and mode machines than 16,384 and two for each join. Counts go down from the least
/// that is too much, so that none is too large for a `usize`.
#[tactic(auto, using(crate::proofs::Foretelling::foretold))]
pub fn is_foretold(alloc: Global, d: &Description, f: &Flat) -> Result<bool, Memory>
    ensures { IfOk result (λ answer. IsForetold answer d.now f.now) }
{
    let events = after_events(EVENTS + 1, d, f.instances.items());
    let points = after_points(alloc, POINTS + 1, d, f)?;
    let items = after_items(alloc, least_beyond(f.joins.items()), d, f)?;
    let answer = is_beyond(events, points, items);
    Ok(answer)
}
