//! Operations that serve others.

ghost use Rattle.std.specs.Prelude.{◌≡◌};
ghost use Rattle.std.specs.List.{list_any};
ghost use Rattle.plan_definitions.specs.Interfaces.{same_direction, same_argument, same_arguments, same_error, declares_errors, serves_operation};

use crate::types::types_agree;
use description_types::{ApplicationError, Argument, Direction, Operation, TypeTable};

fn same_direction(a: Direction, b: Direction) -> bool
    ensures { result ≡ same_direction a b }
{
    matches!(
        (a, b),
        (Direction::In, Direction::In) | (Direction::Out, Direction::Out)
    )
}

fn same_argument(types: &TypeTable, provided: &Argument, required: &Argument) -> bool
    ensures { result ≡ same_argument types.now provided.now required.now }
{
    provided.short_name == required.short_name
        && same_direction(provided.direction, required.direction)
        && types_agree(types.data_types.items(), provided.of_type, required.of_type)
}

fn same_arguments(types: &TypeTable, provided: &[Argument], required: &[Argument]) -> bool
    ensures { result ≡ same_arguments types.now provided.now required.now }
{
    if provided.len() != required.len() {
        return false;
    }
    for i in 0..provided.len() {
        if !same_argument(types, &provided[i], &required[i]) {
            return false;
        }
    }
    true
}

fn same_error(provided: &ApplicationError, required: &ApplicationError) -> bool
    ensures { result ≡ same_error provided.now required.now }
{
    provided.short_name == required.short_name && provided.code == required.code
}

fn declares_error(provided: &ApplicationError, required: &[ApplicationError]) -> bool
    ensures { result ≡ list_any (λ r. same_error provided.now r) required.now }
{
    required.iter().any(|error| same_error(provided, error))
}

/// Whether each error of the provided operation is one of the required operation.
fn declares_errors(provided: &[ApplicationError], required: &[ApplicationError]) -> bool
    ensures { result ≡ declares_errors provided.now required.now }
{
    provided.iter().all(|error| declares_error(error, required))
}

/// Whether an operation may serve as another.
pub fn serves_operation(types: &TypeTable, provided: &Operation, required: &Operation) -> bool
    ensures { result ≡ serves_operation types.now provided.now required.now }
{
    provided.short_name == required.short_name
        && same_arguments(
            types,
            provided.arguments.items(),
            required.arguments.items(),
        )
        && declares_errors(provided.errors.items(), required.errors.items())
}
