//! Where the items of an interface stand, by their names.

ghost use Rattle.std.specs.Prelude.{◌≡◌, ◌≤◌, length, IfOk, IfSome};
ghost use Rattle.indexmap.specs.IndexMap.{index_map_len};
ghost use Rattle.std.specs.List.{list_any, list_all, IsAmong};
ghost use Rattle.plan_definitions.specs.Interfaces.{item_count, serves_element, serve_elements, serves_operation, serve_operations};

use crate::elements::serves_element;
use crate::operations::serves_operation;
use description_types::{DataElement, InterfaceKind, Operation, TypeTable};
use indexmap::IndexMap;
use rte_text::{Memory, Text};
use std::alloc::Global;

/// A position for each name. No answer rests on these hints: they only spare most items a look at all others.
pub type Hints<'a> = IndexMap<&'a [u8], usize>;

/// The hints of the items of an interface. A mode element needs none: it is the only one.
pub fn hints_of<'a>(alloc: Global, kind: &'a InterfaceKind) -> Result<Hints<'a>, Memory>
    ensures { IfOk result (λ hints. index_map_len hints ≤ item_count kind.now) }
{
    match kind {
        InterfaceKind::SenderReceiver(elements) => element_hints(alloc, elements.items()),
        InterfaceKind::ClientServer(operations) => operation_hints(alloc, operations.items()),
        InterfaceKind::ModeSwitch(_) => Ok(IndexMap::new(alloc)),
    }
}

fn element_hints(alloc: Global, elements: &[DataElement]) -> Result<Hints<'_>, Memory>
    ensures { IfOk result (λ hints. index_map_len hints ≤ length elements.now) }
{
    let mut hints = IndexMap::new(alloc);
    for (position, element) in elements.iter().enumerate() {
        hints.insert(element.short_name.bytes(), position)?;
    }
    Ok(hints)
}

fn operation_hints(alloc: Global, operations: &[Operation]) -> Result<Hints<'_>, Memory>
    ensures { IfOk result (λ hints. index_map_len hints ≤ length operations.now) }
{
    let mut hints = IndexMap::new(alloc);
    for (position, operation) in operations.iter().enumerate() {
        hints.insert(operation.short_name.bytes(), position)?;
    }
    Ok(hints)
}

/// One of the items, with this name if the hints are right.
fn hinted<'a, T>(hints: Option<&Hints>, items: &'a [T], name: &Text) -> Option<&'a T>
    ensures { IfSome result (λ item. IsAmong items.now item.now) }
{
    let position = hints?.get(name.bytes())?;
    items.get(*position)
}

fn is_served_by_any(types: &TypeTable, provided: &[DataElement], required: &DataElement) -> bool
    ensures { result ≡ list_any (λ p. serves_element types.now p required.now) provided.now }
{
    provided
        .iter()
        .any(|element| serves_element(types, element, required))
}

fn element_is_served(
    hints: Option<&Hints>,
    types: &TypeTable,
    provided: &[DataElement],
    required: &DataElement,
) -> bool
    ensures { result ≡ list_any (λ p. serves_element types.now p required.now) provided.now }
{
    match hinted(hints, provided, &required.short_name) {
        Some(element) if serves_element(types, element, required) => true,
        _ => is_served_by_any(types, provided, required),
    }
}

/// Whether each required element has a provided one that may serve as it. The hints are those of the provided ones.
pub fn serve_elements(
    hints: Option<&Hints>,
    types: &TypeTable,
    provided: &[DataElement],
    required: &[DataElement],
) -> bool
    ensures { result ≡ serve_elements types.now provided.now required.now }
{
    required.iter().all(|element| element_is_served(hints, types, provided, element))
}

fn is_served_by_any_operation(
    types: &TypeTable,
    provided: &[Operation],
    required: &Operation,
) -> bool
    ensures { result ≡ list_any (λ p. serves_operation types.now p required.now) provided.now }
{
    provided
        .iter()
        .any(|operation| serves_operation(types, operation, required))
}

fn operation_is_served(
    hints: Option<&Hints>,
    types: &TypeTable,
    provided: &[Operation],
    required: &Operation,
) -> bool
    ensures { result ≡ list_any (λ p. serves_operation types.now p required.now) provided.now }
{
    match hinted(hints, provided, &required.short_name) {
        Some(operation) if serves_operation(types, operation, required) => true,
        _ => is_served_by_any_operation(types, provided, required),
    }
}

/// Whether each required operation has a provided one that may serve as it. The hints are those of the provided ones.
pub fn serve_operations(
    hints: Option<&Hints>,
    types: &TypeTable,
    provided: &[Operation],
    required: &[Operation],
) -> bool
    ensures { result ≡ serve_operations types.now provided.now required.now }
{
    required.iter().all(|operation| operation_is_served(hints, types, provided, operation))
}
