//! What the names of a description refer to: the lists that declare them.

ghost use Rattle.std.specs.Prelude.{◌≡◌, IfOk, map, option_map};
ghost use Rattle.serde_json.specs.View.{view};
ghost use Rattle.declared_names.specs.Names.{short_names, text_of};
ghost use Rattle.declared_names.specs.Scopes.{argument_names, interface_names, item_names, mode_names, modes_in, operation_arguments, port_names, prototype_names, scope_of, type_names};
ghost use Rattle.declared_names.specs.Sizes.{AreSmall, IsSmall};
ghost use Rattle.declared_names.specs.Values.{seen};

use crate::names::{Positions, declared, short_names, texts};
use crate::values::{item, items_at, text_at, text_at_in};
use rte_text::{Memory, Seq};
use serde_json::Value;
use std::alloc::Global;

/// The data types and the mode groups.
#[derive(Drop)]
pub struct TypeNames<'a> {
    pub data_types: Positions<'a>,
    pub mode_groups: Positions<'a>,
}

/// The interfaces; and for each its items, its modes, and the arguments of each of its operations.
#[derive(Drop)]
pub struct InterfaceNames<'a> {
    pub interfaces: Positions<'a>,
    pub items: Seq<Positions<'a>>,
    pub modes: Seq<Positions<'a>>,
    pub arguments: Seq<Seq<Positions<'a>>>,
}

/// The components and the compositions, and the ports of each.
#[derive(Drop)]
pub struct PrototypeNames<'a> {
    pub components: Positions<'a>,
    pub compositions: Positions<'a>,
    pub component_ports: Seq<Positions<'a>>,
    pub composition_ports: Seq<Positions<'a>>,
}

/// The names of a description.
#[derive(Drop)]
pub struct Scope<'a> {
    pub types: TypeNames<'a>,
    pub interfaces: InterfaceNames<'a>,
    pub prototypes: PrototypeNames<'a>,
}

/// The names of an interface's items: its data elements, its operations or its mode element.
pub fn item_names<'a>(alloc: Global, value: &'a Value) -> Result<Vec<&'a str>, Memory>
    ensures { IfOk result (λ names. map text_of names.items ≡ item_names (view value.now)) }
{
    let kind = text_at(value, "kind");
    if kind == "ClientServerInterface" {
        short_names(alloc, items_at(value, "operations"))
    } else if kind == "ModeSwitchInterface" {
        let mut names = Vec::new(alloc);
        names.push(text_at_in(value, "modeGroup", "shortName"))?;
        Ok(names)
    } else {
        short_names(alloc, items_at(value, "dataElements"))
    }
}

fn items<'a>(alloc: Global, values: &'a [Value]) -> Result<Seq<Positions<'a>>, Memory>
    requires { AreSmall (map view values.now) }
    ensures { IfOk result (λ lists. lists ≡ map item_names (map view values.now)) }
{
    let mut lists = Vec::new(alloc);
    for value in values {
        let names = item_names(alloc, value)?;
        lists.push(Positions::of(alloc, names)?)?;
    }
    Ok(Seq::of(lists))
}

fn ports<'a>(alloc: Global, values: &'a [Value]) -> Result<Seq<Positions<'a>>, Memory>
    requires { AreSmall (map view values.now) }
    ensures { IfOk result (λ lists. lists ≡ map port_names (map view values.now)) }
{
    let mut lists = Vec::new(alloc);
    for value in values {
        lists.push(declared(alloc, value, "ports")?)?;
    }
    Ok(Seq::of(lists))
}

fn arguments_in<'a>(alloc: Global, values: &'a [Value]) -> Result<Seq<Positions<'a>>, Memory>
    requires { AreSmall (map view values.now) }
    ensures { IfOk result (λ lists. lists ≡ map operation_arguments (map view values.now)) }
{
    let mut lists = Vec::new(alloc);
    for value in values {
        lists.push(declared(alloc, value, "arguments")?)?;
    }
    Ok(Seq::of(lists))
}

fn arguments<'a>(alloc: Global, values: &'a [Value]) -> Result<Seq<Seq<Positions<'a>>>, Memory>
    requires { AreSmall (map view values.now) }
    ensures { IfOk result (λ lists. lists ≡ map argument_names (map view values.now)) }
{
    let mut lists = Vec::new(alloc);
    for value in values {
        lists.push(arguments_in(alloc, items_at(value, "operations"))?)?;
    }
    Ok(Seq::of(lists))
}

fn modes_in<'a>(alloc: Global, group: Option<&'a Value>) -> Result<Vec<&'a str>, Memory>
    ensures { IfOk result (λ names. map text_of names.items ≡ modes_in (option_map seen group.entry)) }
{
    match group {
        Some(group) => texts(alloc, items_at(group, "modes")),
        None => Ok(Vec::new(alloc)),
    }
}

fn mode_names<'a>(
    alloc: Global,
    names: &Positions,
    groups: &'a [Value],
    value: &Value,
) -> Result<Positions<'a>, Memory>
    requires { AreSmall (map view groups.now) }
    ensures { IfOk result (λ p. p ≡ mode_names names.now (map view groups.now) (view value.now)) }
{
    let group = names.find(text_at_in(value, "modeGroup", "type"));
    let modes = modes_in(alloc, item(groups, group))?;
    Positions::of(alloc, modes)
}

fn modes<'a>(
    alloc: Global,
    names: &Positions,
    groups: &'a [Value],
    values: &[Value],
) -> Result<Seq<Positions<'a>>, Memory>
    requires { AreSmall (map view groups.now) }
    ensures { IfOk result (λ lists. lists ≡ map (mode_names names.now (map view groups.now)) (map view values.now)) }
{
    let mut lists = Vec::new(alloc);
    for value in values {
        lists.push(mode_names(alloc, names, groups, value)?)?;
    }
    Ok(Seq::of(lists))
}

/// The data types and the mode groups of the description.
pub fn type_names<'a>(alloc: Global, value: &'a Value) -> Result<TypeNames<'a>, Memory>
    requires { IsSmall (view value.now) }
    ensures { IfOk result (λ names. names ≡ type_names (view value.now)) }
{
    let data_types = declared(alloc, value, "dataTypes")?;
    let mode_groups = declared(alloc, value, "modeGroups")?;
    Ok(TypeNames {
        data_types,
        mode_groups,
    })
}

/// The interfaces of the description, with the modes of these groups.
pub fn interface_names<'a>(
    alloc: Global,
    groups: &Positions,
    value: &'a Value,
) -> Result<InterfaceNames<'a>, Memory>
    requires { IsSmall (view value.now) }
    ensures { IfOk result (λ names. names ≡ interface_names groups.now (view value.now)) }
{
    let values = items_at(value, "interfaces");
    let interfaces = declared(alloc, value, "interfaces")?;
    let items = items(alloc, values)?;
    let modes = modes(alloc, groups, items_at(value, "modeGroups"), values)?;
    let arguments = arguments(alloc, values)?;
    Ok(InterfaceNames {
        interfaces,
        items,
        modes,
        arguments,
    })
}

/// The components and compositions of the description.
pub fn prototype_names<'a>(alloc: Global, value: &'a Value) -> Result<PrototypeNames<'a>, Memory>
    requires { IsSmall (view value.now) }
    ensures { IfOk result (λ names. names ≡ prototype_names (view value.now)) }
{
    let components = declared(alloc, value, "components")?;
    let compositions = declared(alloc, value, "compositions")?;
    let component_ports = ports(alloc, items_at(value, "components"))?;
    let composition_ports = ports(alloc, items_at(value, "compositions"))?;
    Ok(PrototypeNames {
        components,
        compositions,
        component_ports,
        composition_ports,
    })
}

/// The names of the description. The description has at most 2^22 values in it.
pub fn scope_of<'a>(alloc: Global, value: &'a Value) -> Result<Scope<'a>, Memory>
    requires { IsSmall (view value.now) }
    ensures { IfOk result (λ scope. scope ≡ scope_of (view value.now)) }
{
    let types = type_names(alloc, value)?;
    let interfaces = interface_names(alloc, &types.mode_groups, value)?;
    let prototypes = prototype_names(alloc, value)?;
    Ok(Scope {
        types,
        interfaces,
        prototypes,
    })
}
