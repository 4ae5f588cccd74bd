//! What a description declares, list by list.

ghost use Rattle.std.specs.Prelude.{◌≡◌, IfOk, codes, map};
ghost use Rattle.serde_json.specs.View.{view};
ghost use Rattle.description_places.specs.Catalogs.{access_firsts, behavior_lists, catalog_of, com_spec_firsts, component_lists, composition_lists, firsts_in, interface_at, interface_lists};
ghost use Rattle.description_places.specs.Catalogs.{mapping_lists, mode_firsts, operation_firsts, port_lists, prototype_lists, prototype_type, type_lists, type_number, value_at};
ghost use Rattle.declared_names.specs.Names.{short_names, text_of, texts};
ghost use Rattle.declared_names.specs.Scopes.{item_names};
ghost use Rattle.declared_names.specs.Values.{items_at, text_at};

use crate::first_places::{first_accesses, first_places, first_positions};
use declared_names::{NameList, item_names, items_at, short_names, text_at, texts};
use rte_text::{Memory, Seq};
use serde_json::Value;
use std::alloc::Global;

/// A component or a composition, by where it stands in its list.
#[derive(Clone, Copy)]
pub enum TypeNumber {
    Component(usize),
    Composition(usize),
}

/// The data types and the mode groups.
#[derive(Drop)]
pub struct TypeLists<'a> {
    pub data_types: NameList<'a>,
    pub mode_groups: NameList<'a>,
    /// Where the modes of each group first stand.
    pub modes: Seq<Seq<usize>>,
}

/// The interfaces.
#[derive(Drop)]
pub struct InterfaceLists<'a> {
    pub names: NameList<'a>,
    /// The data elements, operations or mode element of each interface.
    pub items: Seq<NameList<'a>>,
    /// Where the arguments of each operation of each interface first stand, and its errors.
    pub arguments: Seq<Seq<Seq<usize>>>,
    pub errors: Seq<Seq<Seq<usize>>>,
}

/// The ports of a component or composition.
#[derive(Drop)]
pub struct PortLists<'a> {
    pub names: NameList<'a>,
    /// Where the interface of each port stands.
    pub interfaces: Seq<usize>,
    /// Where the elements of the com specs of each port first stand.
    pub com_specs: Seq<Seq<usize>>,
}

/// What a behavior declares.
#[derive(Drop)]
pub struct BehaviorLists<'a> {
    pub areas: NameList<'a>,
    pub variables: NameList<'a>,
    pub runnables: NameList<'a>,
    /// Where the accesses of each runnable first stand.
    pub accesses: Seq<Seq<usize>>,
    /// Where the names of events first stand.
    pub events: Seq<usize>,
}

/// What a component declares.
#[derive(Drop)]
pub struct ComponentLists<'a> {
    pub ports: PortLists<'a>,
    pub behavior: BehaviorLists<'a>,
}

/// What a composition declares.
#[derive(Drop)]
pub struct CompositionLists<'a> {
    pub ports: PortLists<'a>,
    pub prototypes: NameList<'a>,
    /// The type of each prototype.
    pub types: Seq<TypeNumber>,
}

/// The components and the compositions.
#[derive(Drop)]
pub struct PrototypeLists<'a> {
    pub components: NameList<'a>,
    pub compositions: NameList<'a>,
    pub in_components: Seq<ComponentLists<'a>>,
    pub in_compositions: Seq<CompositionLists<'a>>,
}

/// What the mapping declares.
#[derive(Drop)]
pub struct MappingLists<'a> {
    pub tasks: NameList<'a>,
    /// Where the positions of mapped events first stand.
    pub positions: Seq<usize>,
}

/// What a description declares, list by list. Of a list that no name refers to it has where each of its names first stands.
#[derive(Drop)]
pub struct Catalog<'a> {
    pub types: TypeLists<'a>,
    pub interfaces: InterfaceLists<'a>,
    pub prototypes: PrototypeLists<'a>,
    pub mapping: MappingLists<'a>,
}

/// The items of the array at a key of the object that stands at another.
fn inner_items<'a>(value: &'a Value, outer: &str, key: &str) -> &'a [Value]
    ensures { map view result.now ≡ items_at key.now (value_at outer.now (view value.now)) }
{
    match value.get(outer) {
        Some(inner) => items_at(inner, key),
        None => &[],
    }
}

/// What these declare by their short names.
fn named<'a>(alloc: Global, values: &'a [Value]) -> Result<NameList<'a>, Memory>
    ensures { IfOk result (λ names. names ≡ short_names (map view values.now)) }
{
    let names = short_names(alloc, values)?;
    NameList::of(alloc, names)
}

/// The items of each interface.
fn items<'a>(alloc: Global, values: &'a [Value]) -> Result<Seq<NameList<'a>>, Memory>
    ensures { IfOk result (λ lists. lists ≡ map item_names (map view values.now)) }
{
    let mut lists = Vec::new(alloc);
    for value in values {
        let names = item_names(alloc, value)?;
        lists.push(NameList::of(alloc, names)?)?;
    }
    Ok(Seq::of(lists))
}

/// Where the interface of each port stands.
fn interfaces_of(
    alloc: Global,
    interfaces: &NameList,
    ports: &[Value],
) -> Result<Seq<usize>, Memory>
    ensures { IfOk result (λ list. list ≡ map (interface_at interfaces.now) (map view ports.now)) }
{
    let mut list = Vec::new(alloc);
    for port in ports {
        list.push(interfaces.find(text_at(port, "interface")))?;
    }
    Ok(Seq::of(list))
}

/// Where the names of what is declared in the array at a key first stand.
fn firsts_in(alloc: Global, value: &Value, key: &str) -> Result<Seq<usize>, Memory>
    ensures { IfOk result (λ places. places ≡ firsts_in key.now (view value.now)) }
{
    let names = short_names(alloc, items_at(value, key))?;
    first_places(alloc, names)
}

/// Those at a key of each operation of an interface.
fn operation_firsts(alloc: Global, values: &[Value], key: &str) -> Result<Seq<Seq<usize>>, Memory>
    ensures { IfOk result (λ lists. lists ≡ map (firsts_in key.now) (map view values.now)) }
{
    let mut lists = Vec::new(alloc);
    for value in values {
        lists.push(firsts_in(alloc, value, key)?)?;
    }
    Ok(Seq::of(lists))
}

/// Those of each operation of each interface.
fn interface_firsts(
    alloc: Global,
    values: &[Value],
    key: &str,
) -> Result<Seq<Seq<Seq<usize>>>, Memory>
    ensures { IfOk result (λ lists. lists ≡ map (operation_firsts key.now) (map view values.now)) }
{
    let mut lists = Vec::new(alloc);
    for value in values {
        lists.push(operation_firsts(alloc, items_at(value, "operations"), key)?)?;
    }
    Ok(Seq::of(lists))
}

fn mode_firsts(alloc: Global, groups: &[Value]) -> Result<Seq<Seq<usize>>, Memory>
    ensures { IfOk result (λ lists. lists ≡ map mode_firsts (map view groups.now)) }
{
    let mut lists = Vec::new(alloc);
    for group in groups {
        let names = texts(alloc, items_at(group, "modes"))?;
        lists.push(first_places(alloc, names)?)?;
    }
    Ok(Seq::of(lists))
}

/// The elements that com specs name.
fn elements<'a>(alloc: Global, values: &'a [Value]) -> Result<Vec<&'a str>, Memory>
    ensures { IfOk result (λ names. map text_of names.items ≡ map (text_at (codes "element")) (map view values.now)) }
{
    let mut names = Vec::new(alloc);
    for value in values {
        names.push(text_at(value, "element"))?;
    }
    Ok(names)
}

fn com_spec_firsts(alloc: Global, ports: &[Value]) -> Result<Seq<Seq<usize>>, Memory>
    ensures { IfOk result (λ lists. lists ≡ map com_spec_firsts (map view ports.now)) }
{
    let mut lists = Vec::new(alloc);
    for port in ports {
        let names = elements(alloc, items_at(port, "comSpecs"))?;
        lists.push(first_places(alloc, names)?)?;
    }
    Ok(Seq::of(lists))
}

fn access_firsts(alloc: Global, runnables: &[Value]) -> Result<Seq<Seq<usize>>, Memory>
    ensures { IfOk result (λ lists. lists ≡ map access_firsts (map view runnables.now)) }
{
    let mut lists = Vec::new(alloc);
    for runnable in runnables {
        lists.push(first_accesses(alloc, items_at(runnable, "accesses"))?)?;
    }
    Ok(Seq::of(lists))
}

fn port_lists<'a>(
    alloc: Global,
    interfaces: &NameList,
    value: &'a Value,
) -> Result<PortLists<'a>, Memory>
    ensures { IfOk result (λ lists. lists ≡ port_lists interfaces.now (view value.now)) }
{
    let ports = items_at(value, "ports");
    let interfaces = interfaces_of(alloc, interfaces, ports)?;
    let com_specs = com_spec_firsts(alloc, ports)?;
    let names = named(alloc, ports)?;
    Ok(PortLists {
        names,
        interfaces,
        com_specs,
    })
}

/// Where the names of the events of a component first stand.
fn event_firsts(alloc: Global, value: &Value) -> Result<Seq<usize>, Memory>
    ensures { IfOk result (λ places. places ≡ firsts_in (codes "events") (value_at (codes "behavior") (view value.now))) }
{
    let names = short_names(alloc, inner_items(value, "behavior", "events"))?;
    first_places(alloc, names)
}

fn areas_of<'a>(alloc: Global, value: &'a Value) -> Result<NameList<'a>, Memory>
    ensures { IfOk result (λ names. names ≡ texts (items_at (codes "exclusiveAreas") (value_at (codes "behavior") (view value.now)))) }
{
    let names = texts(alloc, inner_items(value, "behavior", "exclusiveAreas"))?;
    NameList::of(alloc, names)
}

/// The variables and the runnables by their short names.
fn names_of<'a>(
    alloc: Global,
    variables: &'a [Value],
    runnables: &'a [Value],
) -> Result<(NameList<'a>, NameList<'a>), Memory>
    ensures variables { IfOk result (λ names. names.0 ≡ short_names (map view variables.now)) }
    ensures runnables { IfOk result (λ names. names.1 ≡ short_names (map view runnables.now)) }
{
    let variables = named(alloc, variables)?;
    match named(alloc, runnables) {
        Ok(runnables) => Ok((variables, runnables)),
        Err(memory) => {
            drop(variables);
            Err(memory)
        }
    }
}

/// What the behavior of a component declares.
fn behavior_lists<'a>(alloc: Global, value: &'a Value) -> Result<BehaviorLists<'a>, Memory>
    ensures { IfOk result (λ lists. lists ≡ behavior_lists (value_at (codes "behavior") (view value.now))) }
{
    let variables = inner_items(value, "behavior", "variables");
    let listed = inner_items(value, "behavior", "runnables");
    let accesses = access_firsts(alloc, listed)?;
    let events = event_firsts(alloc, value)?;
    let areas = areas_of(alloc, value)?;
    match names_of(alloc, variables, listed) {
        Ok((variables, runnables)) => Ok(BehaviorLists {
            areas,
            variables,
            runnables,
            accesses,
            events,
        }),
        Err(memory) => {
            drop(areas);
            drop(events);
            drop(accesses);
            Err(memory)
        }
    }
}

fn component_lists<'a>(
    alloc: Global,
    interfaces: &NameList,
    value: &'a Value,
) -> Result<ComponentLists<'a>, Memory>
    ensures { IfOk result (λ lists. lists ≡ component_lists interfaces.now (view value.now)) }
{
    let ports = port_lists(alloc, interfaces, value)?;
    let behavior = behavior_lists(alloc, value)?;
    Ok(ComponentLists { ports, behavior })
}

/// What each component declares.
fn in_components<'a>(
    alloc: Global,
    interfaces: &NameList,
    values: &'a [Value],
) -> Result<Seq<ComponentLists<'a>>, Memory>
    ensures { IfOk result (λ lists. lists ≡ map (component_lists interfaces.now) (map view values.now)) }
{
    let mut lists = Vec::new(alloc);
    for value in values {
        lists.push(component_lists(alloc, interfaces, value)?)?;
    }
    Ok(Seq::of(lists))
}

/// The component or composition of the name.
pub fn type_number(components: &NameList, compositions: &NameList, name: &str) -> TypeNumber
    ensures { result ≡ type_number components.now compositions.now name.now }
{
    if components.has(name) {
        TypeNumber::Component(components.find(name))
    } else {
        TypeNumber::Composition(compositions.find(name))
    }
}

/// The type of each prototype.
fn types_of(
    alloc: Global,
    components: &NameList,
    compositions: &NameList,
    prototypes: &[Value],
) -> Result<Seq<TypeNumber>, Memory>
    ensures { IfOk result (λ list. list ≡ map (prototype_type components.now compositions.now) (map view prototypes.now)) }
{
    let mut list = Vec::new(alloc);
    for prototype in prototypes {
        list.push(type_number(components, compositions, text_at(prototype, "type")))?;
    }
    Ok(Seq::of(list))
}

/// The names that prototypes are of: those of interfaces, components and compositions.
#[derive(Clone, Copy)]
struct Known<'s, 'a> {
    interfaces: &'s NameList<'a>,
    components: &'s NameList<'a>,
    compositions: &'s NameList<'a>,
}

fn composition_lists<'a>(
    alloc: Global,
    known: &Known,
    value: &'a Value,
) -> Result<CompositionLists<'a>, Memory>
    ensures { IfOk result (λ lists.
        lists ≡ composition_lists known.now.interfaces.now known.now.components.now known.now.compositions.now (view value.now)) }
{
    let listed = items_at(value, "prototypes");
    let types = types_of(alloc, known.components, known.compositions, listed)?;
    let prototypes = named(alloc, listed)?;
    let ports = port_lists(alloc, known.interfaces, value)?;
    Ok(CompositionLists {
        ports,
        prototypes,
        types,
    })
}

/// What each composition declares.
fn in_compositions<'a>(
    alloc: Global,
    known: &Known,
    values: &'a [Value],
) -> Result<Seq<CompositionLists<'a>>, Memory>
    ensures { IfOk result (λ lists. lists
        ≡ map (composition_lists known.now.interfaces.now known.now.components.now known.now.compositions.now) (map view values.now)) }
{
    let mut lists = Vec::new(alloc);
    for value in values {
        lists.push(composition_lists(alloc, known, value)?)?;
    }
    Ok(Seq::of(lists))
}

fn type_lists<'a>(alloc: Global, value: &'a Value) -> Result<TypeLists<'a>, Memory>
    ensures { IfOk result (λ lists. lists ≡ type_lists (view value.now)) }
{
    let groups = items_at(value, "modeGroups");
    let modes = mode_firsts(alloc, groups)?;
    let data_types = named(alloc, items_at(value, "dataTypes"))?;
    let mode_groups = named(alloc, groups)?;
    Ok(TypeLists {
        data_types,
        mode_groups,
        modes,
    })
}

fn interface_lists<'a>(alloc: Global, value: &'a Value) -> Result<InterfaceLists<'a>, Memory>
    ensures { IfOk result (λ lists. lists ≡ interface_lists (view value.now)) }
{
    let listed = items_at(value, "interfaces");
    let arguments = interface_firsts(alloc, listed, "arguments")?;
    let errors = interface_firsts(alloc, listed, "errors")?;
    let names = named(alloc, listed)?;
    let items = items(alloc, listed)?;
    Ok(InterfaceLists {
        names,
        items,
        arguments,
        errors,
    })
}

fn prototype_lists<'a>(
    alloc: Global,
    interfaces: &NameList,
    value: &'a Value,
) -> Result<PrototypeLists<'a>, Memory>
    ensures { IfOk result (λ lists. lists ≡ prototype_lists interfaces.now (view value.now)) }
{
    let listed = items_at(value, "components");
    let composed = items_at(value, "compositions");
    let in_components = in_components(alloc, interfaces, listed)?;
    let components = named(alloc, listed)?;
    let compositions = named(alloc, composed)?;
    let known = Known {
        interfaces,
        components: &components,
        compositions: &compositions,
    };
    match in_compositions(alloc, &known, composed) {
        Ok(in_compositions) => Ok(PrototypeLists {
            components,
            compositions,
            in_components,
            in_compositions,
        }),
        Err(memory) => {
            drop(components);
            drop(compositions);
            drop(in_components);
            Err(memory)
        }
    }
}

fn mapping_lists<'a>(alloc: Global, value: &'a Value) -> Result<MappingLists<'a>, Memory>
    ensures { IfOk result (λ lists. lists ≡ mapping_lists (value_at (codes "mapping") (view value.now))) }
{
    let tasks = named(alloc, inner_items(value, "mapping", "tasks"))?;
    let positions = first_positions(alloc, inner_items(value, "mapping", "events"))?;
    Ok(MappingLists { tasks, positions })
}

/// What the description declares, whose mapping and types are these.
fn catalog_with<'a>(
    alloc: Global,
    value: &'a Value,
    mapping: MappingLists<'a>,
    types: TypeLists<'a>,
) -> Result<Catalog<'a>, Memory>
    requires mapping { mapping ≡ mapping_lists (value_at (codes "mapping") (view value.now)) }
    requires types { types ≡ type_lists (view value.now) }
    ensures { IfOk result (λ catalog. catalog ≡ catalog_of (view value.now)) }
{
    match joined_lists(alloc, value) {
        Ok((interfaces, prototypes)) => Ok(Catalog {
            types,
            interfaces,
            prototypes,
            mapping,
        }),
        Err(memory) => {
            drop(mapping);
            drop(types);
            Err(memory)
        }
    }
}

/// The interfaces, and the components and compositions over them.
fn joined_lists<'a>(
    alloc: Global,
    value: &'a Value,
) -> Result<(InterfaceLists<'a>, PrototypeLists<'a>), Memory>
    ensures interfaces { IfOk result (λ made. made.0 ≡ interface_lists (view value.now)) }
    ensures prototypes { IfOk result (λ made. made.1 ≡ (catalog_of (view value.now)).prototypes) }
{
    let interfaces = interface_lists(alloc, value)?;
    match prototype_lists(alloc, &interfaces.names, value) {
        Ok(prototypes) => Ok((interfaces, prototypes)),
        Err(memory) => {
            drop(interfaces);
            Err(memory)
        }
    }
}

/// What the description declares.
pub fn catalog_of<'a>(alloc: Global, value: &'a Value) -> Result<Catalog<'a>, Memory>
    ensures { IfOk result (λ catalog. catalog ≡ catalog_of (view value.now)) }
{
    let mapping = mapping_lists(alloc, value)?;
    match type_lists(alloc, value) {
        Ok(types) => catalog_with(alloc, value, mapping, types),
        Err(memory) => {
            drop(mapping);
            Err(memory)
        }
    }
}
