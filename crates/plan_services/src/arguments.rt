//! The arguments and errors of operations.

ghost use Rattle.std.specs.Prelude.{◌≡◌, [], IfOk, Some, map, filter, option_copied};
ghost use Rattle.std.specs.Option.{option_map_or};
ghost use Rattle.plan_definitions.specs.Signatures.{arguments_of, goes, limits_of};
ghost use Rattle.plan_definitions.specs.Services.{argument_of, is_out, operation_at, operation_in};

use bus_semantics::ArgPlan;
use description_types::{Argument, DataType, Description, Direction, InterfaceKind, Operation};
use plan_numbers::{Source, interface_of};
use rte_text::{Memory, Seq};
use rte_value::{Code, Limits};
use std::alloc::Global;

fn operation_in(kind: &InterfaceKind, item: u32) -> Option<&Operation>
    ensures { option_copied result ≡ operation_in kind.now item }
{
    match kind {
        InterfaceKind::ClientServer(operations) => operations.items().get(item as usize),
        _ => None,
    }
}

fn operation_at<'a>(
    source: &Source<'a>,
    owner: Option<u32>,
    port: u32,
    item: u32,
) -> Option<&'a Operation>
    ensures { option_copied result ≡ operation_at source.now.d.now source.now.f.now owner port item }
{
    let kind = interface_of(source.d, source.f, owner, port)?;
    operation_in(kind, item)
}

fn limits_of(types: &[DataType], of_type: u32) -> Limits
    ensures { result ≡ limits_of types.now of_type }
{
    match types.get(of_type as usize) {
        Some(found) => found.limits,
        None => Limits { low: 0, high: 0 },
    }
}

fn is_out(direction: Direction) -> bool
    ensures { result ≡ is_out direction }
{
    matches!(direction, Direction::Out)
}

fn argument_of(d: &Description, argument: &Argument) -> ArgPlan
    ensures { result ≡ argument_of d.now argument.now }
{
    ArgPlan {
        out: is_out(argument.direction),
        limits: limits_of(d.types.data_types.items(), argument.of_type),
    }
}

fn arguments_in(
    alloc: Global,
    d: &Description,
    arguments: &[Argument],
) -> Result<Vec<ArgPlan>, Memory>
    ensures { IfOk result (λ list. list.items ≡ map (argument_of d.now) arguments.now) }
{
    let mut list = Vec::new(alloc);
    for argument in arguments {
        list.push(argument_of(d, argument))?;
    }
    Ok(list)
}

/// The arguments of an operation of a port; none if there is no such operation.
pub fn arguments_at(
    alloc: Global,
    source: &Source<'_>,
    owner: Option<u32>,
    port: u32,
    item: u32,
) -> Result<Seq<ArgPlan>, Memory>
    ensures { IfOk result (λ list. list ≡ option_map_or (λ o. map (argument_of source.now.d.now) o.arguments) (operation_at source.now.d.now source.now.f.now owner port item) []) }
{
    let Some(operation) = operation_at(source, owner, port, item) else {
        return Ok(Seq::of(Vec::new(alloc)));
    };
    let list = arguments_in(alloc, source.d, operation.arguments.items())?;
    Ok(Seq::of(list))
}

/// The codes of the errors of an operation of a port; none if there is no such operation.
pub fn errors_at(
    alloc: Global,
    source: &Source<'_>,
    owner: Option<u32>,
    port: u32,
    item: u32,
) -> Result<Seq<Code>, Memory>
    ensures { IfOk result (λ list. list ≡ option_map_or (λ o. map (λ e. e.code) o.errors) (operation_at source.now.d.now source.now.f.now owner port item) []) }
{
    let Some(operation) = operation_at(source, owner, port, item) else {
        return Ok(Seq::of(Vec::new(alloc)));
    };
    let list: Vec<Code> = operation
        .errors
        .items()
        .iter()
        .map(|e| e.code)
        .collect(alloc)?;
    Ok(Seq::of(list))
}

fn goes(way: Direction, argument: &Argument) -> bool
    ensures { result ≡ goes way argument.now }
{
    matches!(
        (way, argument.direction),
        (Direction::In, Direction::In) | (Direction::Out, Direction::Out)
    )
}

fn words_of(
    alloc: Global,
    types: &[DataType],
    way: Direction,
    arguments: &[Argument],
) -> Result<Vec<Limits>, Memory>
    ensures { IfOk result (λ list. list.items ≡ arguments_of types.now way arguments.now) }
{
    let mut list = Vec::new(alloc);
    for argument in arguments {
        if goes(way, argument) {
            list.push(limits_of(types, argument.of_type))?;
        }
    }
    Ok(list)
}

/// The limits of the arguments of one direction of an operation of a port; none if there is no such operation.
pub fn words_at(
    alloc: Global,
    source: &Source<'_>,
    way: Direction,
    owner: Option<u32>,
    port: u32,
    item: u32,
) -> Result<Seq<Limits>, Memory>
    ensures { IfOk result (λ list. list ≡ option_map_or (λ o. arguments_of source.now.d.now.types.data_types way o.arguments) (operation_at source.now.d.now source.now.f.now owner port item) []) }
{
    match operation_at(source, owner, port, item) {
        Some(operation) => {
            let types = source.d.types.data_types.items();
            let words = words_of(alloc, types, way, operation.arguments.items())?;
            Ok(Seq::of(words))
        }
        None => Ok(Seq::of(Vec::new(alloc))),
    }
}
