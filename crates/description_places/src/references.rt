//! The rule of references.

ghost use Rattle.std.specs.Prelude.{◌≡◌, Some, bytes_eq, codes, map, option_copied};
ghost use Rattle.std.specs.List.{list_any};
ghost use Rattle.serde_json.specs.View.{view};
ghost use Rattle.description_places.specs.declared.catalogs.TypeNumber.TheVariants as of;
ghost use Rattle.declared_names.specs.Names.{has_name, texts};
ghost use Rattle.declared_names.specs.Values.{items_at, text_in};
ghost use Rattle.description_places.specs.Around.{value_at};
ghost use Rattle.description_places.specs.References.{breaks_references, interface_has, is_core, is_found, item_found, port_found, port_has, prototype_has, type_has};
ghost use Rattle.description_shapes.specs.Shape.{holds};
ghost use Rattle.description_shapes.specs.Trails.{spot_of};

use crate::around::{number_around, part_around, text_around, type_around, value_at};
use crate::catalogs::{Catalog, ComponentLists, CompositionLists, TypeNumber};
use crate::owners::{component_around, composition_around};
use declared_names::{has_at, items_at, text_in};
use description_shapes::{Kind, Rule, Trail, is_calculation, refers_to_nothing};
use serde_json::Value;

/// Rule 5: each name refers to something declared, the root is a composition, and each core is one of the mapping's.
#[derive(Clone, Copy)]
pub struct ReferenceRule<'s, 'v> {
    /// What the description declares.
    pub declared: &'s Catalog<'v>,
}

impl Rule for ReferenceRule<'_, '_> {
    ghost breaks = { λ rule. breaks_references rule.declared.now };

    fn is_broken(&self, value: &Value, kind: Kind, trail: &Trail) -> bool {
        !is_found(self.declared, value, kind, trail)
    }

    #[tactic(auto, using(crate::proofs::Calculating::references_pass))]
    fn passes(&self, kind: Kind) -> bool {
        is_calculation(kind)
    }

    #[tactic(auto, using(crate::proofs::Calculating::references_skip))]
    fn skips(&self, kind: Kind) -> bool {
        refers_to_nothing(kind)
    }
}

// ---- what the component or composition around declares

fn has_runnable(lists: Option<&ComponentLists>, name: &str) -> bool
    ensures { result ≡ holds (λ l. has_name l.behavior.runnables name.now) (option_copied lists.entry) }
{
    match lists {
        Some(lists) => lists.behavior.runnables.has(name),
        None => false,
    }
}

fn has_area(lists: Option<&ComponentLists>, name: &str) -> bool
    ensures { result ≡ holds (λ l. has_name l.behavior.areas name.now) (option_copied lists.entry) }
{
    match lists {
        Some(lists) => lists.behavior.areas.has(name),
        None => false,
    }
}

fn has_variable(lists: Option<&ComponentLists>, name: &str) -> bool
    ensures { result ≡ holds (λ l. has_name l.behavior.variables name.now) (option_copied lists.entry) }
{
    match lists {
        Some(lists) => lists.behavior.variables.has(name),
        None => false,
    }
}

fn has_prototype(lists: Option<&CompositionLists>, name: &str) -> bool
    ensures { result ≡ holds (λ l. has_name l.prototypes name.now) (option_copied lists.entry) }
{
    match lists {
        Some(lists) => lists.prototypes.has(name),
        None => false,
    }
}

fn component_has(declared: &Catalog, port: &str, number: usize) -> bool
    ensures { result ≡ type_has declared.now port.now (Some (of.Component number)) }
{
    match declared.prototypes.in_components.items().get(number) {
        Some(lists) => lists.ports.names.has(port),
        None => false,
    }
}

fn composition_has(declared: &Catalog, port: &str, number: usize) -> bool
    ensures { result ≡ type_has declared.now port.now (Some (of.Composition number)) }
{
    match declared.prototypes.in_compositions.items().get(number) {
        Some(lists) => lists.ports.names.has(port),
        None => false,
    }
}

fn type_has(declared: &Catalog, port: &str, found: Option<TypeNumber>) -> bool
    ensures { result ≡ type_has declared.now port.now found }
{
    match found {
        None => false,
        Some(TypeNumber::Component(number)) => component_has(declared, port, number),
        Some(TypeNumber::Composition(number)) => composition_has(declared, port, number),
    }
}

// ---- what is found through a port or a prototype

fn interface_has(declared: &Catalog, item: &str, interface: &str) -> bool
    ensures { result ≡ interface_has declared.now item.now interface.now }
{
    let position = declared.interfaces.names.find(interface);
    has_at(declared.interfaces.items.items(), position, item)
}

fn has_item(declared: &Catalog, item: &str, port: &str, lists: &ComponentLists) -> bool
    ensures { result ≡ port_has declared.now item.now port.now lists.now }
{
    match lists
        .ports
        .interfaces
        .items()
        .get(lists.ports.names.find(port))
    {
        Some(interface) => has_at(declared.interfaces.items.items(), *interface, item),
        None => false,
    }
}

fn item_found(declared: &Catalog, item: &str, port: &str, trail: &Trail) -> bool
    ensures { result ≡ item_found declared.now item.now port.now ((spot_of trail.now).around) }
{
    match component_around(declared, trail) {
        Some(lists) => has_item(declared, item, port, lists),
        None => false,
    }
}

fn has_port(declared: &Catalog, port: &str, prototype: &str, lists: &CompositionLists) -> bool
    ensures { result ≡ prototype_has declared.now port.now prototype.now lists.now }
{
    let position = lists.prototypes.find(prototype);
    type_has(declared, port, lists.types.items().get(position).copied())
}

fn port_found(declared: &Catalog, port: &str, prototype: &str, trail: &Trail) -> bool
    ensures { result ≡ port_found declared.now port.now prototype.now ((spot_of trail.now).around) }
{
    match composition_around(declared, trail) {
        Some(lists) => has_port(declared, port, prototype, lists),
        None => false,
    }
}

// ---- modes and cores

fn is_one_of(values: &[Value], name: &str) -> bool
    ensures { result ≡ list_any (λ v. bytes_eq (text_in (view v)) name.now) values.now }
{
    values.iter().any(|value| text_in(value) == name)
}

fn has_text(values: &[Value], name: &str) -> bool
    ensures { result ≡ has_name (texts (map view values.now)) name.now }
{
    is_one_of(values, name)
}

fn has_mode(trail: &Trail, name: &str) -> bool
    ensures { result ≡ has_name (texts (items_at (codes "modes") (value_at 0 ((spot_of trail.now).around)))) name.now }
{
    match value_at(trail, 0) {
        Some(group) => has_text(items_at(group, "modes"), name),
        None => false,
    }
}

fn is_core(value: &Value, trail: &Trail) -> bool
    ensures { result ≡ is_core (value_at 2 ((spot_of trail.now).around)) (view value.now) }
{
    match value.as_u64() {
        Some(core) => core < number_around(trail, 2, "cores"),
        None => false,
    }
}

fn is_found(declared: &Catalog, value: &Value, kind: Kind, trail: &Trail) -> bool
    ensures { result ≡ is_found declared.now kind (view value.now) ((spot_of trail.now).around) }
{
    let name = text_in(value);
    match kind {
        Kind::TypeName => declared.types.data_types.has(name),
        Kind::GroupName => declared.types.mode_groups.has(name),
        Kind::InterfaceName => declared.interfaces.names.has(name),
        Kind::PrototypeTypeName => declared.prototypes.components.has(name)
            || declared.prototypes.compositions.has(name),
        Kind::RootName => declared.prototypes.compositions.has(name),
        Kind::TaskName => declared.mapping.tasks.has(name),
        Kind::InitialMode => has_mode(trail, name),
        Kind::RunnableName => has_runnable(component_around(declared, trail), name),
        Kind::AreaName => has_area(component_around(declared, trail), name),
        Kind::VariableName => has_variable(component_around(declared, trail), name),
        Kind::ComponentPort | Kind::OuterPort => type_has(declared, name, type_around(trail)),
        Kind::JoinedPrototype => has_prototype(composition_around(declared, trail), name),
        Kind::ComSpecItem => interface_has(declared, name, text_around(trail, 2, "interface")),
        Kind::EventItem => item_found(declared, name, text_around(trail, 0, "port"), trail),
        Kind::AccessItem => item_found(declared, name, part_around(trail, 1), trail),
        Kind::PairItem => item_found(declared, name, part_around(trail, 0), trail),
        Kind::JoinedPort => port_found(declared, name, part_around(trail, 0), trail),
        Kind::CoreNumber => is_core(value, trail),
        _ => true,
    }
}
