//! The numbers of data elements and variables. Those of a port follow one another, and so do those of ports and instances.

ghost use Rattle.std.specs.Prelude.{◌≡◌, ◌+◌, ◌<◌, ◌^◌, IfOk, length, map, slice_get};
ghost use Rattle.std.specs.List.{position_from};
ghost use Rattle.plan_definitions.specs.Common.{keys_of, number_in, same_key, elements_of};
ghost use Rattle.plan_numbers.specs.Starts.{AreStarts, behind, between, capped, capped_sums, elements_at, elements_in, elements_of_instance, elements_within, low_within, place_outside};
ghost use Rattle.plan_numbers.specs.Starts.{place_within, sums, total};

use crate::numbers::{Key, position};
use crate::owners::ports_of;
use description_types::{Component, Description, Flat, Instance, InterfaceKind, Port, TypeTable};
use rte_text::{Memory, Seq};
use std::alloc::Global;

/// How many elements stand before those of each port of each component, and of the root, within it; and before those of each
/// instance. Each list ends with how many there are. In the lists of ports the greatest number stands for all greater ones, since a
/// component that no instance has may have any number of elements.
#[derive(Drop)]
pub struct Starts {
    pub components: Seq<Seq<u32>>,
    pub root: Seq<u32>,
    pub instances: Seq<u32>,
    /// How many elements there are.
    pub count: u32,
}

fn elements_in(kind: &InterfaceKind) -> usize
    ensures { result ≡ elements_in kind.now }
{
    match kind {
        InterfaceKind::SenderReceiver(elements) => elements.len(),
        _ => 0,
    }
}

fn elements_at(types: &TypeTable, port: &Port) -> usize
    ensures { result ≡ elements_at types.now port.now }
{
    match types.interfaces.items().get(port.interface as usize) {
        Some(interface) => elements_in(&interface.kind),
        None => 0,
    }
}

/// The sum of a number of 32 bits and a size, or the greatest such number in place of a greater one.
fn capped_sum(sum: u32, size: usize) -> u32
    ensures { result ≡ capped (sum + size) }
{
    sum.saturating_add(size.min(u32::MAX as usize) as u32)
}

fn sums_of_ports(alloc: Global, types: &TypeTable, ports: &[Port]) -> Result<Seq<u32>, Memory>
    ensures { IfOk result (λ list. list ≡ capped_sums (elements_at types.now) 0 ports.now) }
{
    let mut list = Vec::new(alloc);
    let mut sum = 0;
    for port in ports {
        list.push(sum)?;
        sum = capped_sum(sum, elements_at(types, port));
    }
    list.push(sum)?;
    Ok(Seq::of(list))
}

fn sums_of_components(
    alloc: Global,
    types: &TypeTable,
    components: &[Component],
) -> Result<Seq<Seq<u32>>, Memory>
    ensures { IfOk result (λ lists. lists ≡ map (λ c. capped_sums (elements_at types.now) 0 c.ports) components.now) }
{
    let mut lists = Vec::new(alloc);
    for component in components {
        lists.push(sums_of_ports(alloc, types, component.ports.items())?)?;
    }
    Ok(Seq::of(lists))
}

fn sum_at(list: &[u32], place: usize) -> Option<u32>
    ensures { result ≡ slice_get list.now place }
{
    list.get(place).copied()
}

/// How many elements these ports have, whose sums are given.
fn elements_of_ports(types: &TypeTable, ports: &[Port], list: &[u32]) -> u32
    requires sums { list.now ≡ capped_sums (elements_at types.now) 0 ports.now }
    requires few { total (elements_at types.now) ports.now < 2 ^ 32 }
    ensures { result ≡ total (elements_at types.now) ports.now }
{
    sum_at(list, ports.len()).unwrap_or(0)
}

fn elements_within(types: &TypeTable, component: &Component, list: &[u32]) -> u32
    requires sums { list.now ≡ capped_sums (elements_at types.now) 0 component.now.ports }
    requires few { elements_within types.now component.now < 2 ^ 32 }
    ensures { result ≡ elements_within types.now component.now }
{
    let at_ports = elements_of_ports(types, component.ports.items(), list);
    at_ports + position(component.behavior.variables.len())
}

fn elements_of_instance(d: &Description, lists: &[Seq<u32>], instance: &Instance) -> u32
    requires sums { lists.now ≡ map (λ c. capped_sums (elements_at d.now.types) 0 c.ports) d.now.components }
    requires few { elements_of_instance d.now instance.now < 2 ^ 32 }
    ensures { result ≡ elements_of_instance d.now instance.now }
{
    let Some(component) = d.components.items().get(instance.component as usize) else {
        return 0;
    };
    match lists.get(instance.component as usize) {
        Some(list) => elements_within(&d.types, component, list.items()),
        None => 0,
    }
}

fn sums_of_instances(
    alloc: Global,
    d: &Description,
    lists: &[Seq<u32>],
    instances: &[Instance],
) -> Result<Seq<u32>, Memory>
    requires sums { lists.now ≡ map (λ c. capped_sums (elements_at d.now.types) 0 c.ports) d.now.components }
    requires few { total (elements_of_instance d.now) instances.now < 2 ^ 32 }
    ensures { IfOk result (λ list. list ≡ sums (elements_of_instance d.now) 0 instances.now) }
{
    let mut list = Vec::new(alloc);
    let mut sum = 0;
    for instance in instances {
        list.push(sum)?;
        sum += elements_of_instance(d, lists, instance);
    }
    list.push(sum)?;
    Ok(Seq::of(list))
}

/// The tables of a description that has so many elements.
pub fn starts_of(alloc: Global, d: &Description, f: &Flat, count: usize) -> Result<Starts, Memory>
    requires count { count ≡ length (elements_of d.now f.now) }
    requires few { count < 2 ^ 32 }
    ensures { IfOk result (λ starts. AreStarts d.now f.now starts) }
{
    let components = sums_of_components(alloc, &d.types, d.components.items())?;
    let root = sums_of_ports(alloc, &d.types, ports_of(d, f, None))?;
    let instances = sums_of_instances(alloc, d, components.items(), f.instances.items())?;
    Ok(Starts {
        components,
        root,
        instances,
        count: position(count),
    })
}

fn between(list: &[u32], place: u32, item: u32) -> Option<u32>
    ensures { result ≡ between list.now place item }
{
    let low = *list.get(place as usize)?;
    let high = *list.get(place as usize + 1)?;
    if low as usize + (item as usize) < high as usize {
        Some(low)
    } else {
        None
    }
}

fn behind(list: &[u32], place: usize, count: usize, item: u32) -> Option<u32>
    ensures { result ≡ behind list.now place count item }
{
    let low = *list.get(place)?;
    if (item as usize) < count {
        Some(low)
    } else {
        None
    }
}

fn low_within(list: &[u32], component: &Component, port: Option<u32>, item: u32) -> Option<u32>
    ensures { result ≡ low_within list.now component.now port item }
{
    match port {
        Some(port) => between(list, port, item),
        None => behind(
            list,
            component.ports.len(),
            component.behavior.variables.len(),
            item,
        ),
    }
}

fn place_within(
    d: &Description,
    f: &Flat,
    starts: &Starts,
    instance: u32,
    port: Option<u32>,
    item: u32,
) -> Option<usize>
    ensures { result ≡ place_within d.now f.now starts.now instance port item }
{
    let found = f.instances.items().get(instance as usize)?;
    let component = d.components.items().get(found.component as usize)?;
    let list = starts.components.items().get(found.component as usize)?;
    let start = *starts.instances.items().get(instance as usize)?;
    let low = low_within(list.items(), component, port, item)?;
    Some(start as usize + low as usize + item as usize)
}

fn place_outside(f: &Flat, starts: &Starts, port: Option<u32>, item: u32) -> Option<usize>
    ensures { result ≡ place_outside f.now starts.now port item }
{
    let place = port?;
    let start = *starts.instances.items().get(f.instances.len())?;
    let low = between(starts.root.items(), place, item)?;
    Some(start as usize + low as usize + item as usize)
}

/// Where a data element or variable stands among all of them.
pub fn element_place(d: &Description, f: &Flat, starts: &Starts, key: Key) -> Option<usize>
    requires { AreStarts d.now f.now starts.now }
    ensures { result ≡ position_from (same_key key) 0 (keys_of (elements_of d.now f.now)) }
{
    match key.0 {
        Some(instance) => place_within(d, f, starts, instance, key.1, key.2),
        None => place_outside(f, starts, key.1, key.2),
    }
}

/// The number of a data element or variable: where it stands, and 0 if it is not among them.
pub fn element_number(d: &Description, f: &Flat, starts: &Starts, key: Key) -> u32
    requires { AreStarts d.now f.now starts.now }
    ensures { result ≡ number_in (keys_of (elements_of d.now f.now)) key }
{
    match element_place(d, f, starts, key) {
        Some(place) => place as u32,
        None => 0,
    }
}
