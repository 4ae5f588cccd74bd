//! Interfaces, with the names by which their items are joined.

ghost use Rattle.std.specs.Prelude.{◌≡◌, ◌<◌, ◌^◌, [], ◌∷◌, ℕ, List, length, map, IfOk};
ghost use Rattle.description_types.specs.Items.{element_names, operation_names};
ghost use Rattle.end_search.specs.Sharing.{item_keys, keys_of};
ghost use Rattle.end_search.specs.Tables.{names_of, item_names};

use crate::names::Names;
use description_types::{DataElement, InterfaceKind, Operation};
use rte_text::Memory;
use std::alloc::Global;

/// An interface with the names by which its items are joined.
#[derive(Drop)]
pub struct Listed<'a> {
    pub kind: &'a InterfaceKind,
    pub names: Names<'a>,
    /// What the items are joined by: the kind of the interface and the name; all mode elements by the same.
    pub keys: Vec<(u8, &'a [u8])>,
    ghost named: { names ≡ item_names kind.now },
    ghost keyed: { keys_of keys.items ≡ item_keys kind.now },
}

fn element_names<'a>(alloc: Global, elements: &'a [DataElement]) -> Result<Vec<&'a [u8]>, Memory>
    ensures { IfOk result (λ names. names_of names.items ≡ element_names elements.now) }
{
    let mut names = Vec::new(alloc);
    for element in elements {
        names.push(element.short_name.bytes())?;
    }
    Ok(names)
}

fn operation_names<'a>(alloc: Global, operations: &'a [Operation]) -> Result<Vec<&'a [u8]>, Memory>
    ensures { IfOk result (λ names. names_of names.items ≡ operation_names operations.now) }
{
    let mut names = Vec::new(alloc);
    for operation in operations {
        names.push(operation.short_name.bytes())?;
    }
    Ok(names)
}

fn item_names<'a>(alloc: Global, kind: &'a InterfaceKind) -> Result<Vec<&'a [u8]>, Memory>
    ensures { IfOk result (λ names. names_of names.items ≡ item_names kind.now) }
{
    match kind {
        InterfaceKind::SenderReceiver(elements) => {
            let names = element_names(alloc, elements.items())?;
            Ok(names)
        }
        InterfaceKind::ClientServer(operations) => {
            let names = operation_names(alloc, operations.items())?;
            Ok(names)
        }
        InterfaceKind::ModeSwitch(_) => Ok(Vec::new(alloc)),
    }
}

fn tagged<'a>(alloc: Global, tag: u8, names: &[&'a [u8]]) -> Result<Vec<(u8, &'a [u8])>, Memory>
    ensures { IfOk result (λ keys. keys_of keys.items ≡ map (λ (name : List ℕ). (tag, name)) (names_of names.now)) }
{
    let mut keys = Vec::new(alloc);
    for name in names {
        keys.push((tag, *name))?;
    }
    Ok(keys)
}

fn mode_key<'a>(alloc: Global) -> Result<Vec<(u8, &'a [u8])>, Memory>
    ensures { IfOk result (λ keys. keys_of keys.items ≡ (2, []) ∷ []) }
{
    let mut keys = Vec::new(alloc);
    keys.push((2u8, "".as_bytes()))?;
    Ok(keys)
}

/// What the items of an interface are joined by, with the names of its items at hand.
fn keys_for<'a>(
    alloc: Global,
    kind: &'a InterfaceKind,
    names: &[&'a [u8]],
) -> Result<Vec<(u8, &'a [u8])>, Memory>
    requires { names_of names.now ≡ item_names kind.now }
    ensures { IfOk result (λ keys. keys_of keys.items ≡ item_keys kind.now) }
{
    match kind {
        InterfaceKind::SenderReceiver(_) => {
            let keys = tagged(alloc, 0, names)?;
            Ok(keys)
        }
        InterfaceKind::ClientServer(_) => {
            let keys = tagged(alloc, 1, names)?;
            Ok(keys)
        }
        InterfaceKind::ModeSwitch(_) => {
            let keys = mode_key(alloc)?;
            Ok(keys)
        }
    }
}

/// An interface with the names of its items, which 32 bits number.
pub fn with_names<'a>(alloc: Global, kind: &'a InterfaceKind) -> Result<Listed<'a>, Memory>
    requires { length (item_names kind.now) < 2 ^ 32 }
    ensures { IfOk result (λ listed. listed.kind.now ≡ kind.now) }
{
    let list = item_names(alloc, kind)?;
    let keys = keys_for(alloc, kind, list.as_slice())?;
    let names = Names::of(alloc, list)?;
    Ok(Listed { kind, names, keys })
}
