//! All sites of a description, in order.

ghost use Rattle.std.specs.Prelude.{◌≡◌, ◌<◌, ◌^◌, [], ◌∷◌, ◌++◌, IfOk, OnOk, Some, length, option_copied, slice_get};
ghost use Rattle.plan_definitions.specs.Common.{from, HasFewInside, HasFewParts, HasFewThings, HasShortInterfaces, site, provides_at, kind_at, count_at, shape_at, sites_with, sites_at};
ghost use Rattle.plan_definitions.specs.Common.{sites_of_ports, variables_of, sites_of_component, sites_of_instance, root_ports, sites};

use crate::numbers::position;
use description_types::{
    Component, Description, Flat, Instance, InterfaceKind, Port, PortKind, TypeTable,
};
use plan_definitions::{Site, SiteKind};
use rte_text::Memory;
use std::alloc::Global;

fn provides_at(owner: Option<u32>, side: PortKind) -> bool
    ensures { result ≡ provides_at owner side }
{
    match side {
        PortKind::Provided => owner.is_some(),
        PortKind::Required => owner.is_none(),
    }
}

fn kind_at(owner: Option<u32>, side: PortKind, interface: &InterfaceKind) -> SiteKind
    ensures { result ≡ kind_at owner side interface.now }
{
    match interface {
        InterfaceKind::SenderReceiver(_) => SiteKind::Element(provides_at(owner, side)),
        InterfaceKind::ClientServer(_) => SiteKind::Server,
        InterfaceKind::ModeSwitch(_) => {
            if provides_at(owner, side) {
                SiteKind::Machine
            } else {
                SiteKind::ModePort
            }
        }
    }
}

fn count_at(owner: Option<u32>, side: PortKind, interface: &InterfaceKind) -> usize
    ensures { result ≡ count_at owner side interface.now }
{
    match interface {
        InterfaceKind::SenderReceiver(elements) => elements.len(),
        InterfaceKind::ClientServer(operations) => {
            if owner.is_some() && provides_at(owner, side) {
                operations.len()
            } else {
                0
            }
        }
        InterfaceKind::ModeSwitch(_) => 1,
    }
}

fn push_item(
    list: &mut Vec<Site>,
    owner: Option<u32>,
    port: Option<u32>,
    item: u32,
    kind: SiteKind,
) -> Result<(), Memory>
    ensures { OnOk result (list.new.items ≡ list.old.items ++ site owner port item kind ∷ []) }
{
    list.push(Site {
        owner,
        port,
        item,
        kind,
    })?;
    Ok(())
}

#[tactic(auto, using(plan_definitions::proofs::Turns::none_more))]
fn push_sites(
    list: &mut Vec<Site>,
    owner: Option<u32>,
    port: u32,
    kind: SiteKind,
    count: u32,
) -> Result<(), Memory>
    ensures { OnOk result (list.new.items ≡ list.old.items ++ sites_with owner port kind count) }
{
    for item in 0..count {
        push_item(list, owner, Some(port), item, kind)?;
    }
    Ok(())
}

fn shape_at(types: &TypeTable, owner: Option<u32>, port: &Port) -> Option<(SiteKind, usize)>
    ensures { result ≡ shape_at types.now owner port.now }
{
    let interface = types.interfaces.items().get(port.interface as usize)?;
    let kind = kind_at(owner, port.kind, &interface.kind);
    let count = count_at(owner, port.kind, &interface.kind);
    Some((kind, count))
}

fn push_at(
    list: &mut Vec<Site>,
    types: &TypeTable,
    owner: Option<u32>,
    number: usize,
    port: &Port,
) -> Result<(), Memory>
    requires number { number < 2 ^ 32 }
    requires items { HasShortInterfaces types.now }
    ensures { OnOk result (list.new.items ≡ list.old.items ++ sites_at types.now owner number port.now) }
{
    match shape_at(types, owner, port) {
        Some((kind, count)) => {
            let count = position(count);
            push_sites(list, owner, position(number), kind, count)
        }
        None => Ok(()),
    }
}

fn push_ports(
    list: &mut Vec<Site>,
    types: &TypeTable,
    owner: Option<u32>,
    ports: &[Port],
) -> Result<(), Memory>
    requires ports { length ports.now < 2 ^ 32 }
    requires items { HasShortInterfaces types.now }
    ensures { OnOk result (list.new.items ≡ list.old.items ++ sites_of_ports types.now owner ports.now) }
{
    for (number, port) in ports.iter().enumerate() {
        push_at(list, types, owner, number, port)?;
    }
    Ok(())
}

#[tactic(auto, using(plan_definitions::proofs::Turns::none_more))]
fn push_variables(list: &mut Vec<Site>, instance: u32, count: u32) -> Result<(), Memory>
    ensures { OnOk result (list.new.items ≡ list.old.items ++ variables_of instance count) }
{
    for item in 0..count {
        push_item(list, Some(instance), None, item, SiteKind::Variable)?;
    }
    Ok(())
}

fn push_component(
    list: &mut Vec<Site>,
    types: &TypeTable,
    instance: u32,
    component: &Component,
) -> Result<(), Memory>
    requires inside { HasFewInside component.now }
    requires items { HasShortInterfaces types.now }
    ensures { OnOk result (list.new.items ≡ list.old.items ++ sites_of_component types.now instance component.now) }
{
    push_ports(list, types, Some(instance), component.ports.items())?;
    let count = position(component.behavior.variables.len());
    push_variables(list, instance, count)
}

fn component_at<'a>(d: &'a Description, instance: &Instance) -> Option<&'a Component>
    ensures { option_copied result ≡ slice_get d.now.components instance.now.component }
{
    d.components.items().get(instance.component as usize)
}

fn push_instance(
    list: &mut Vec<Site>,
    d: &Description,
    number: usize,
    instance: &Instance,
) -> Result<(), Memory>
    requires number { number < 2 ^ 32 }
    requires parts { HasFewParts d.now }
    ensures { OnOk result (list.new.items ≡ list.old.items ++ sites_of_instance d.now number instance.now) }
{
    match component_at(d, instance) {
        Some(component) => push_component(list, &d.types, position(number), component),
        None => Ok(()),
    }
}

fn push_instances(
    list: &mut Vec<Site>,
    d: &Description,
    instances: &[Instance],
) -> Result<(), Memory>
    requires instances { length instances.now < 2 ^ 32 }
    requires parts { HasFewParts d.now }
    ensures { OnOk result (list.new.items ≡ list.old.items ++ from 0 (sites_of_instance d.now) instances.now) }
{
    for (number, instance) in instances.iter().enumerate() {
        push_instance(list, d, number, instance)?;
    }
    Ok(())
}

fn root_ports(d: &Description) -> &[Port]
    ensures { result.now ≡ root_ports d.now }
{
    match d.compositions.items().get(d.root as usize) {
        Some(root) => root.ports.items(),
        None => &[],
    }
}

/// All sites, by instance and within an instance in declared order: the items of its ports, then its variables; the environment
/// last. A required operation is none. There are as many as the instances have data elements, variables, provided operations
/// and mode elements, and the environment data elements and mode elements.
pub fn sites(alloc: Global, d: &Description, f: &Flat) -> Result<Vec<Site>, Memory>
    requires { HasFewThings d.now f.now }
    ensures { IfOk result (λ list. list.items ≡ sites d.now f.now) }
{
    let mut list = Vec::new(alloc);
    push_instances(&mut list, d, f.instances.items())?;
    push_ports(&mut list, &d.types, None, root_ports(d))?;
    Ok(list)
}
