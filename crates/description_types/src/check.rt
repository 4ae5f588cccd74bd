//! Whether types keep their rules.

ghost use Rattle.std.specs.Prelude.{◌≡◌, ℕ, List, IfOk, map, option_map, slice_get};
ghost use Rattle.std.specs.List.{list_all};
ghost use Rattle.description_types.specs.Lists.{first};
ghost use Rattle.description_types.specs.Refusals.{one_word, is_sound_argument, has_distinct_codes, is_sound, operations_in, broken_types, broken_among, broken_operations, type_place};
ghost use Rattle.description_types.specs.Refusals.{operation_place, type_refusal, Tells};

use crate::base_type::{DataType, keeps_range};
use crate::interface::{
    ApplicationError, Argument, Interface, InterfaceKind, Operation, TypeTable,
};
use itoa::Buffer;
use rte_text::{Memory, Refusal, Refused, Text};
use std::alloc::Global;

/// How many arguments an operation may have.
const MOST_ARGUMENTS: usize = 16;

fn has_one_word(types: &[DataType], of_type: u32) -> bool
    ensures { result ≡ one_word (slice_get types.now of_type) }
{
    match types.get(of_type as usize) {
        Some(t) => t.words == 1,
        None => false,
    }
}

fn is_sound_argument(types: &[DataType], argument: &Argument) -> bool
    ensures { result ≡ is_sound_argument types.now argument.now }
{
    has_one_word(types, argument.of_type) && argument.short_name.bytes() != "error".as_bytes()
}

fn has_sound_arguments(types: &[DataType], arguments: &[Argument]) -> bool
    ensures { result ≡ list_all (is_sound_argument types.now) arguments.now }
{
    arguments
        .iter()
        .all(|argument| is_sound_argument(types, argument))
}

fn has_distinct_codes(errors: &[ApplicationError]) -> bool
    ensures { result ≡ has_distinct_codes errors.now }
{
    let mut seen = [false; 256];
    for error in errors {
        if seen[error.code as usize] {
            return false;
        }
        seen[error.code as usize] = true;
    }
    true
}

fn is_sound(types: &[DataType], operation: &Operation) -> bool
    ensures { result ≡ is_sound types.now operation.now }
{
    operation.arguments.len() <= MOST_ARGUMENTS
        && has_sound_arguments(types, operation.arguments.items())
        && has_distinct_codes(operation.errors.items())
}

fn operations_in(interface: &Interface) -> &[Operation]
    ensures { result.now ≡ operations_in interface.now.kind }
{
    match &interface.kind {
        InterfaceKind::ClientServer(operations) => operations.items(),
        InterfaceKind::SenderReceiver(_) | InterfaceKind::ModeSwitch(_) => &[],
    }
}

#[tactic(auto, using(crate::proofs::Firsts::first_turn))]
fn first_broken_type(types: &[DataType]) -> Option<usize>
    ensures { result ≡ first (broken_types types.now) }
{
    for (position, t) in types.iter().enumerate() {
        if !keeps_range(t) {
            return Some(position);
        }
    }
    None
}

#[tactic(auto, using(crate::proofs::Firsts::first_turn))]
fn first_broken_among(
    types: &[DataType],
    interface: usize,
    operations: &[Operation],
) -> Option<(usize, usize)>
    ensures { result ≡ first (broken_among types.now interface operations.now) }
{
    for (position, operation) in operations.iter().enumerate() {
        if !is_sound(types, operation) {
            return Some((interface, position));
        }
    }
    None
}

#[tactic(auto, using(crate::proofs::Firsts::first_turn))]
fn first_broken_operation(types: &[DataType], interfaces: &[Interface]) -> Option<(usize, usize)>
    ensures { result ≡ first (broken_operations types.now interfaces.now) }
{
    for (position, interface) in interfaces.iter().enumerate() {
        if let Some(found) = first_broken_among(types, position, operations_in(interface)) {
            return Some(found);
        }
    }
    None
}

fn type_place(alloc: Global, position: usize) -> Result<Text, Memory>
    ensures { IfOk result (λ text. text ≡ type_place position) }
{
    let mut text = String::from_str(alloc, "/dataTypes/")?;
    text.push_str(Buffer::new().format(position))?;
    Ok(Text::of(text.into_bytes()))
}

fn operation_place(alloc: Global, interface: usize, position: usize) -> Result<Text, Memory>
    ensures { IfOk result (λ text. text ≡ operation_place (interface, position)) }
{
    let mut text = String::from_str(alloc, "/interfaces/")?;
    text.push_str(Buffer::new().format(interface))?;
    text.push_str("/operations/")?;
    text.push_str(Buffer::new().format(position))?;
    Ok(Text::of(text.into_bytes()))
}

/// Whether the types of a description keep their rules: the limits of a data type are in order and within the range of its
/// base type (6, at the data type); an operation has at most 16 arguments, each of a type of one word and none named
/// `error`, and its error codes are distinct (7, at the operation). An error of `Rule` names the least rule that is broken,
/// with its first place; one of `Memory` comes only if a rule is broken, and there was no memory for the place.
///
/// An argument whose type is no position of the table breaks rule 7. No description that names declared types gives one.
pub fn check_types(alloc: Global, t: &TypeTable) -> Result<(), Refused>
    ensures { Tells (type_refusal t.now) result }
{
    if let Some(position) = first_broken_type(t.data_types.items()) {
        let place = type_place(alloc, position)?;
        return Err(Refused::Rule(Refusal { rule: 6, place }));
    }
    match first_broken_operation(t.data_types.items(), t.interfaces.items()) {
        Some((interface, position)) => {
            let place = operation_place(alloc, interface, position)?;
            Err(Refused::Rule(Refusal { rule: 7, place }))
        }
        None => Ok(()),
    }
}
