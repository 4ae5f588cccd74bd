//! The rule of distinct names.

ghost use Rattle.std.specs.Prelude.{◌≡◌, Some, option_and_then, option_copied, slice_get};
ghost use Rattle.serde_json.specs.View.{view};
ghost use Rattle.description_places.specs.declared.catalogs.TypeNumber.TheVariants as of;
ghost use Rattle.description_places.specs.Around.{number_of, owner_of, type_around};
ghost use Rattle.description_places.specs.Distinct.{breaks_distinct, composition_before, firsts_of_operation, firsts_of_port, is_access_before, is_later, is_later_in, is_named_before};
ghost use Rattle.description_places.specs.Distinct.{is_repeated, item_before, port_before, stands_before};
ghost use Rattle.description_places.specs.Owners.{component_of, composition_of};
ghost use Rattle.description_shapes.specs.Shape.{holds};
ghost use Rattle.description_shapes.specs.Trails.{spot_of};

use crate::around::{number_of, owner_of, type_around};
use crate::catalogs::{Catalog, ComponentLists, CompositionLists, TypeNumber};
use crate::owners::{component_around, composition_around};
use declared_names::{NameList, text_in};
use description_shapes::{Kind, Rule, Trail, declares_nothing, is_calculation};
use rte_text::Seq;
use serde_json::Value;

/// Rule 4: the names that one list declares are distinct.
#[derive(Clone, Copy)]
pub struct DistinctRule<'s, 'v> {
    /// What the description declares.
    pub declared: &'s Catalog<'v>,
}

impl Rule for DistinctRule<'_, '_> {
    ghost breaks = { λ rule. breaks_distinct rule.declared.now };

    fn is_broken(&self, value: &Value, kind: Kind, trail: &Trail) -> bool {
        is_repeated(self.declared, value, kind, trail)
    }

    #[tactic(auto, using(crate::proofs::Calculating::distinct_pass))]
    fn passes(&self, kind: Kind) -> bool {
        is_calculation(kind)
    }

    #[tactic(auto, using(crate::proofs::Calculating::distinct_skip))]
    fn skips(&self, kind: Kind) -> bool {
        declares_nothing(kind)
    }
}

fn stands_before(names: &NameList, name: &str, number: usize) -> bool
    ensures { result ≡ stands_before names.now name.now number }
{
    names.find(name) < number
}

fn is_later_in(firsts: &Seq<usize>, number: usize) -> bool
    ensures { result ≡ is_later_in firsts.now number }
{
    match firsts.items().get(number) {
        Some(first) => *first < number,
        None => false,
    }
}

fn is_later(firsts: Option<&Seq<usize>>, number: usize) -> bool
    ensures { result ≡ is_later (option_copied firsts.entry) number }
{
    match firsts {
        Some(firsts) => is_later_in(firsts, number),
        None => false,
    }
}

// ---- in the whole

fn item_before(declared: &Catalog, name: &str, number: usize, interface: usize) -> bool
    ensures { result ≡ item_before declared.now name.now number interface }
{
    match declared.interfaces.items.items().get(interface) {
        Some(names) => stands_before(names, name, number),
        None => false,
    }
}

fn firsts_of_operation<'s>(
    lists: &'s [Seq<Seq<usize>>],
    operation: usize,
    interface: usize,
) -> Option<&'s Seq<usize>>
    ensures { option_copied result ≡ firsts_of_operation lists.now operation interface }
{
    match lists.get(interface) {
        Some(operations) => operations.items().get(operation),
        None => None,
    }
}

fn is_later_in_operation(lists: &Seq<Seq<Seq<usize>>>, trail: &Trail) -> bool
    ensures { result ≡ is_later
        (firsts_of_operation lists.now (number_of 3 ((spot_of trail.now).around)) (number_of 5 ((spot_of trail.now).around)))
        (number_of 1 ((spot_of trail.now).around)) }
{
    let firsts = firsts_of_operation(lists.items(), number_of(trail, 3), number_of(trail, 5));
    is_later(firsts, number_of(trail, 1))
}

fn composition_before(declared: &Catalog, name: &str, number: usize) -> bool
    ensures { result ≡ composition_before declared.now name.now number }
{
    declared.prototypes.components.has(name)
        || stands_before(&declared.prototypes.compositions, name, number)
}

// ---- in a component or composition

fn component_port_before(declared: &Catalog, port: &str, number: usize, component: usize) -> bool
    ensures { result ≡ port_before declared.now port.now number (Some (of.Component component)) }
{
    match declared.prototypes.in_components.items().get(component) {
        Some(lists) => stands_before(&lists.ports.names, port, number),
        None => false,
    }
}

fn composition_port_before(
    declared: &Catalog,
    port: &str,
    number: usize,
    composition: usize,
) -> bool
    ensures { result ≡ port_before declared.now port.now number (Some (of.Composition composition)) }
{
    match declared.prototypes.in_compositions.items().get(composition) {
        Some(lists) => stands_before(&lists.ports.names, port, number),
        None => false,
    }
}

fn port_before(declared: &Catalog, port: &str, number: usize, found: Option<TypeNumber>) -> bool
    ensures { result ≡ port_before declared.now port.now number found }
{
    match found {
        None => false,
        Some(TypeNumber::Component(n)) => component_port_before(declared, port, number, n),
        Some(TypeNumber::Composition(n)) => composition_port_before(declared, port, number, n),
    }
}

fn firsts_in_component<'s>(
    declared: &'s Catalog,
    port: usize,
    component: usize,
) -> Option<&'s Seq<usize>>
    ensures { option_copied result ≡ firsts_of_port declared.now port (Some (of.Component component)) }
{
    match declared.prototypes.in_components.items().get(component) {
        Some(lists) => lists.ports.com_specs.items().get(port),
        None => None,
    }
}

fn firsts_in_composition<'s>(
    declared: &'s Catalog,
    port: usize,
    composition: usize,
) -> Option<&'s Seq<usize>>
    ensures { option_copied result ≡ firsts_of_port declared.now port (Some (of.Composition composition)) }
{
    match declared.prototypes.in_compositions.items().get(composition) {
        Some(lists) => lists.ports.com_specs.items().get(port),
        None => None,
    }
}

fn firsts_of_port<'s>(
    declared: &'s Catalog,
    port: usize,
    found: Option<TypeNumber>,
) -> Option<&'s Seq<usize>>
    ensures { option_copied result ≡ firsts_of_port declared.now port found }
{
    match found {
        None => None,
        Some(TypeNumber::Component(n)) => firsts_in_component(declared, port, n),
        Some(TypeNumber::Composition(n)) => firsts_in_composition(declared, port, n),
    }
}

fn area_before(lists: Option<&ComponentLists>, name: &str, number: usize) -> bool
    ensures { result ≡ holds (λ l. stands_before l.behavior.areas name.now number) (option_copied lists.entry) }
{
    match lists {
        Some(lists) => stands_before(&lists.behavior.areas, name, number),
        None => false,
    }
}

fn variable_before(lists: Option<&ComponentLists>, name: &str, number: usize) -> bool
    ensures { result ≡ holds (λ l. stands_before l.behavior.variables name.now number) (option_copied lists.entry) }
{
    match lists {
        Some(lists) => stands_before(&lists.behavior.variables, name, number),
        None => false,
    }
}

fn runnable_before(lists: Option<&ComponentLists>, name: &str, number: usize) -> bool
    ensures { result ≡ holds (λ l. stands_before l.behavior.runnables name.now number) (option_copied lists.entry) }
{
    match lists {
        Some(lists) => stands_before(&lists.behavior.runnables, name, number),
        None => false,
    }
}

fn event_before(lists: Option<&ComponentLists>, number: usize) -> bool
    ensures { result ≡ holds (λ l. is_later_in l.behavior.events number) (option_copied lists.entry) }
{
    match lists {
        Some(lists) => is_later_in(&lists.behavior.events, number),
        None => false,
    }
}

fn prototype_before(lists: Option<&CompositionLists>, name: &str, number: usize) -> bool
    ensures { result ≡ holds (λ l. stands_before l.prototypes name.now number) (option_copied lists.entry) }
{
    match lists {
        Some(lists) => stands_before(&lists.prototypes, name, number),
        None => false,
    }
}

fn firsts_of_runnable<'s>(
    lists: Option<&'s ComponentLists>,
    runnable: usize,
) -> Option<&'s Seq<usize>>
    ensures { option_copied result ≡ option_and_then (λ l. slice_get l.behavior.accesses runnable) (option_copied lists.entry) }
{
    match lists {
        Some(lists) => lists.behavior.accesses.items().get(runnable),
        None => None,
    }
}

fn is_access_before(declared: &Catalog, trail: &Trail) -> bool
    ensures { result ≡ is_access_before declared.now ((spot_of trail.now).around) }
{
    let firsts = firsts_of_runnable(component_around(declared, trail), number_of(trail, 2));
    is_later(firsts, number_of(trail, 0))
}

// ---- all

fn is_named_before(declared: &Catalog, owner: Kind, name: &str, trail: &Trail) -> bool
    ensures { result ≡ is_named_before declared.now owner name.now ((spot_of trail.now).around) }
{
    let number = number_of(trail, 1);
    match owner {
        Kind::DataType => stands_before(&declared.types.data_types, name, number),
        Kind::ModeGroup => stands_before(&declared.types.mode_groups, name, number),
        Kind::SenderReceiverInterface
        | Kind::ClientServerInterface
        | Kind::ModeSwitchInterface
        | Kind::UnknownInterface => stands_before(&declared.interfaces.names, name, number),
        Kind::DataElement | Kind::Operation => {
            item_before(declared, name, number, number_of(trail, 3))
        }
        Kind::Argument => is_later_in_operation(&declared.interfaces.arguments, trail),
        Kind::OperationError => is_later_in_operation(&declared.interfaces.errors, trail),
        Kind::Component => stands_before(&declared.prototypes.components, name, number),
        Kind::Composition => composition_before(declared, name, number),
        Kind::Port => port_before(declared, name, number, type_around(trail)),
        Kind::Variable => variable_before(component_around(declared, trail), name, number),
        Kind::Runnable => runnable_before(component_around(declared, trail), name, number),
        Kind::TimingEvent
        | Kind::InitEvent
        | Kind::DataReceivedEvent
        | Kind::OperationInvokedEvent
        | Kind::CallReturnsEvent
        | Kind::ModeSwitchEvent
        | Kind::ModeTransitionEvent
        | Kind::ModeSwitchAckEvent
        | Kind::UnknownEvent => event_before(component_around(declared, trail), number),
        Kind::Prototype => prototype_before(composition_around(declared, trail), name, number),
        Kind::Task => stands_before(&declared.mapping.tasks, name, number),
        _ => false,
    }
}

fn is_repeated(declared: &Catalog, value: &Value, kind: Kind, trail: &Trail) -> bool
    ensures { result ≡ is_repeated declared.now kind (view value.now) ((spot_of trail.now).around) }
{
    match kind {
        Kind::DeclaredName => is_named_before(declared, owner_of(trail), text_in(value), trail),
        Kind::DeclaredMode => is_later(
            declared.types.modes.items().get(number_of(trail, 2)),
            number_of(trail, 0),
        ),
        Kind::DeclaredArea => area_before(
            component_around(declared, trail),
            text_in(value),
            number_of(trail, 0),
        ),
        Kind::ComSpecItem => is_later(
            firsts_of_port(declared, number_of(trail, 3), type_around(trail)),
            number_of(trail, 1),
        ),
        Kind::Position => is_later_in(&declared.mapping.positions, number_of(trail, 1)),
        Kind::ItemAccess | Kind::VariableAccess | Kind::PortAccess | Kind::AreaAccess => {
            is_access_before(declared, trail)
        }
        _ => false,
    }
}
