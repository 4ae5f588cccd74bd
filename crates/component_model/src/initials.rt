//! Initial values.

ghost use Rattle.std.specs.Prelude.{◌≡◌, ◌++◌, IfOk, codes, map, string_bytes};
ghost use Rattle.std.specs.Fmt.{decimal};
ghost use Rattle.std.specs.List.{list_all};
ghost use Rattle.description_types.specs.Lists.{first, from};
ghost use Rattle.component_model.specs.Descriptions.{description_of};
ghost use Rattle.description_types.specs.Initials.{element_type, fits, is_within, keeps, keeps_element, type_in};
ghost use Rattle.component_model.specs.Initials.{broken_initials, broken_of_component, broken_of_composition, broken_of_port, broken_of_ports, broken_of_variables, initial_place, owner_place};
ghost use Rattle.component_model.specs.Programs.{component_tree};

use description_types::{
    ComSpec, Component, Composition, DataType, Description, InterfaceKind, Port, TypeTable,
    Variable,
};
use itoa::Buffer;
use rte_text::{Memory, Seq, Text};
use rte_value::{Limits, Word};
use std::alloc::Global;

/// A component or composition, by its position.
#[derive(Clone, Copy)]
pub enum Owner {
    Component(usize),
    Composition(usize),
}

/// An initial value, by its place: that of a com spec of a port, or of a variable of a component.
#[derive(Clone, Copy)]
pub enum Initial {
    OfPort(Owner, usize, usize),
    OfVariable(usize, usize),
}

fn is_within(limits: &Limits, word: Word) -> bool
    ensures { result ≡ is_within limits.now word }
{
    limits.low <= word && word <= limits.high
}

fn are_within(limits: &Limits, words: &[Word]) -> bool
    ensures { result ≡ list_all (is_within limits.now) words.now }
{
    words.iter().all(|word| is_within(limits, *word))
}

fn fits(data_type: &DataType, words: &[Word]) -> bool
    ensures { result ≡ fits data_type.now words.now }
{
    words.len() == data_type.words as usize && are_within(&data_type.limits, words)
}

fn keeps(types: &[DataType], of_type: u32, init_value: &Option<Seq<Word>>) -> bool
    ensures { result ≡ keeps types.now of_type init_value.now }
{
    match init_value {
        None => true,
        Some(words) => match types.get(of_type as usize) {
            Some(data_type) => fits(data_type, words.items()),
            None => false,
        },
    }
}

fn type_in(kind: &InterfaceKind, item: u32) -> Option<u32>
    ensures { result ≡ type_in kind.now item }
{
    match kind {
        InterfaceKind::SenderReceiver(elements) => match elements.items().get(item as usize) {
            Some(element) => Some(element.of_type),
            None => None,
        },
        InterfaceKind::ClientServer(_) | InterfaceKind::ModeSwitch(_) => None,
    }
}

fn element_type(types: &TypeTable, interface: u32, item: u32) -> Option<u32>
    ensures { result ≡ element_type types.now interface item }
{
    match types.interfaces.items().get(interface as usize) {
        Some(interface) => type_in(&interface.kind, item),
        None => None,
    }
}

fn keeps_element(types: &TypeTable, interface: u32, com_spec: &ComSpec) -> bool
    ensures { result ≡ keeps_element types.now interface com_spec.now }
{
    match element_type(types, interface, com_spec.element) {
        Some(of_type) => keeps(types.data_types.items(), of_type, &com_spec.init_value),
        None => true,
    }
}

#[tactic(auto, using(crate::proofs::Firsts::first_turn))]
fn first_of_port(types: &TypeTable, owner: Owner, position: usize, port: &Port) -> Option<Initial>
    ensures { result ≡ first (broken_of_port types.now owner position port.now) }
{
    for (number, com_spec) in port.com_specs.items().iter().enumerate() {
        if !keeps_element(types, port.interface, com_spec) {
            return Some(Initial::OfPort(owner, position, number));
        }
    }
    None
}

#[tactic(auto, using(crate::proofs::Firsts::first_turn))]
fn first_of_ports(types: &TypeTable, owner: Owner, ports: &[Port]) -> Option<Initial>
    ensures { result ≡ first (broken_of_ports types.now owner ports.now) }
{
    for (position, port) in ports.iter().enumerate() {
        if let Some(found) = first_of_port(types, owner, position, port) {
            return Some(found);
        }
    }
    None
}

#[tactic(auto, using(crate::proofs::Firsts::first_turn))]
fn first_of_variables(
    types: &TypeTable,
    component: usize,
    variables: &[Variable],
) -> Option<Initial>
    ensures { result ≡ first (broken_of_variables types.now component variables.now) }
{
    for (number, variable) in variables.iter().enumerate() {
        if !keeps(
            types.data_types.items(),
            variable.of_type,
            &variable.init_value,
        ) {
            return Some(Initial::OfVariable(component, number));
        }
    }
    None
}

#[tactic(auto, using(crate::proofs::Firsts::first_joined))]
fn first_of_component(types: &TypeTable, position: usize, component: &Component) -> Option<Initial>
    ensures { result ≡ first (broken_of_component types.now position (component_tree component.now)) }
{
    let owner = Owner::Component(position);
    if let Some(found) = first_of_ports(types, owner, component.ports.items()) {
        return Some(found);
    }
    first_of_variables(types, position, component.behavior.variables.items())
}

#[tactic(auto, using(crate::proofs::Firsts::first_turn_seen))]
fn first_of_components(types: &TypeTable, components: &[Component]) -> Option<Initial>
    ensures { result ≡ first (from 0 (broken_of_component types.now) (map component_tree components.now)) }
{
    for (position, component) in components.iter().enumerate() {
        if let Some(found) = first_of_component(types, position, component) {
            return Some(found);
        }
    }
    None
}

#[tactic(auto, using(crate::proofs::Firsts::first_turn))]
fn first_of_compositions(types: &TypeTable, compositions: &[Composition]) -> Option<Initial>
    ensures { result ≡ first (from 0 (broken_of_composition types.now) compositions.now) }
{
    for (position, composition) in compositions.iter().enumerate() {
        let owner = Owner::Composition(position);
        if let Some(found) = first_of_ports(types, owner, composition.ports.items()) {
            return Some(found);
        }
    }
    None
}

/// The first initial value that does not fit its type, in document order. One of an operation or mode element is not judged.
#[tactic(auto, using(crate::proofs::Firsts::first_joined))]
pub fn first_broken(description: &Description) -> Option<Initial>
    ensures { result ≡ first (broken_initials (description_of description.now)) }
{
    let types = &description.types;
    if let Some(found) = first_of_components(types, description.components.items()) {
        return Some(found);
    }
    first_of_compositions(types, description.compositions.items())
}

fn owner_place(alloc: Global, owner: Owner) -> Result<String, Memory>
    ensures { IfOk result (λ text. string_bytes text ≡ owner_place owner) }
{
    match owner {
        Owner::Component(position) => numbered(String::from_str(alloc, "/components/")?, position),
        Owner::Composition(position) => numbered(
            String::from_str(alloc, "/compositions/")?,
            position,
        ),
    }
}

fn numbered(text: String, number: usize) -> Result<String, Memory>
    ensures { IfOk result (λ longer. string_bytes longer ≡ string_bytes text ++ decimal number) }
{
    let mut longer = text;
    longer.push_str(Buffer::new().format(number))?;
    Ok(longer)
}

fn extended(text: String, part: &str, number: usize) -> Result<String, Memory>
    ensures { IfOk result (λ longer. string_bytes longer ≡ (string_bytes text ++ part.now) ++ decimal number) }
{
    let mut longer = text;
    longer.push_str(part)?;
    longer.push_str(Buffer::new().format(number))?;
    Ok(longer)
}

fn ended(text: String) -> Result<Text, Memory>
    ensures { IfOk result (λ place. place ≡ string_bytes text ++ codes "/initValue") }
{
    let mut longer = text;
    longer.push_str("/initValue")?;
    Ok(Text::of(longer.into_bytes()))
}

/// The JSON pointer of the initial value.
pub fn initial_place(alloc: Global, initial: Initial) -> Result<Text, Memory>
    ensures { IfOk result (λ place. place ≡ initial_place initial) }
{
    match initial {
        Initial::OfPort(owner, port, com_spec) => {
            let text = owner_place(alloc, owner)?;
            let text = extended(text, "/ports/", port)?;
            let text = extended(text, "/comSpecs/", com_spec)?;
            ended(text)
        }
        Initial::OfVariable(component, variable) => {
            let text = owner_place(alloc, Owner::Component(component))?;
            let text = extended(text, "/behavior/variables/", variable)?;
            ended(text)
        }
    }
}
