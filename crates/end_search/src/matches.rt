//! Which items of two interfaces are joined.

ghost use Rattle.std.specs.Prelude.{◌≡◌, ◌↔◌, ◌⊎◌, [], ◌∷◌, ℕ, IfOk, OnOk, Some};
ghost use Rattle.description_types.specs.Items.{interface_at, ItemsJoin, IsSameName};
ghost use Rattle.description_types.specs.Members.{Among};
ghost use Rattle.end_search.specs.Matching.{AreListed, HasFewItems, turned};

use crate::interfaces::{Listed, with_names};
use crate::names::Names;
use description_types::{Description, InterfaceKind};
use rte_text::Memory;
use std::alloc::Global;

/// The interfaces of a description, each with the names of its items.
pub fn interfaces_of(alloc: Global, d: &Description) -> Result<Vec<Listed<'_>>, Memory>
    requires { HasFewItems d.now }
    ensures { IfOk result (λ list. AreListed d.now list.items) }
{
    let mut list = Vec::new(alloc);
    for interface in d.types.interfaces.items() {
        list.push(with_names(alloc, &interface.kind)?)?;
    }
    Ok(list)
}

/// Adds the pairs of this item with the others at these positions.
fn add_places(number: u32, places: &[u32], pairs: &mut Vec<(u32, u32)>) -> Result<(), Memory>
    ensures { OnOk result ((i j : ℕ) → Among (i, j) pairs.new.items ↔ (Among (i, j) pairs.old.items ⊎ ((i ≡ number) × Among j places.now))) }
{
    for place in places {
        pairs.push((number, *place))?;
    }
    Ok(())
}

/// Adds the pairs of this item with the others of its name.
fn add_item(
    number: u32,
    names: &Names,
    others: &Names,
    pairs: &mut Vec<(u32, u32)>,
) -> Result<(), Memory>
    ensures { OnOk result ((i j : ℕ) → Among (i, j) pairs.new.items ↔ (Among (i, j) pairs.old.items ⊎ ((i ≡ number) × IsSameName names.now others.now number j))) }
{
    if let Some(name) = names.at(number) {
        add_places(number, others.find(name), pairs)?;
    }
    Ok(())
}

/// The pairs of equal names of two lists, each of the first looked up in the second.
fn found_in(alloc: Global, names: &Names, others: &Names) -> Result<Vec<(u32, u32)>, Memory>
    ensures { IfOk result (λ pairs. (i j : ℕ) → Among (i, j) pairs.items ↔ IsSameName names.now others.now i j) }
{
    let mut pairs = Vec::new(alloc);
    for number in 0..names.count() {
        add_item(number, names, others, &mut pairs)?;
    }
    Ok(pairs)
}

/// The pairs the other way round.
pub fn turned(alloc: Global, pairs: &[(u32, u32)]) -> Result<Vec<(u32, u32)>, Memory>
    ensures { IfOk result (λ list. list.items ≡ turned pairs.now) }
{
    let mut list = Vec::new(alloc);
    for pair in pairs {
        list.push((pair.1, pair.0))?;
    }
    Ok(list)
}

/// The pairs of equal names of two lists. The shorter one is walked, so that a long list costs nothing beside a short one.
fn same_names(alloc: Global, names: &Names, others: &Names) -> Result<Vec<(u32, u32)>, Memory>
    ensures { IfOk result (λ pairs. (i j : ℕ) → Among (i, j) pairs.items ↔ IsSameName names.now others.now i j) }
{
    if names.count() <= others.count() {
        let pairs = found_in(alloc, names, others)?;
        return Ok(pairs);
    }
    let pairs = found_in(alloc, others, names)?;
    let list = turned(alloc, pairs.as_slice())?;
    Ok(list)
}

fn one_pair(alloc: Global) -> Result<Vec<(u32, u32)>, Memory>
    ensures { IfOk result (λ pairs. pairs.items ≡ (0, 0) ∷ []) }
{
    let mut pairs = Vec::new(alloc);
    pairs.push((0, 0))?;
    Ok(pairs)
}

fn matches_of(
    alloc: Global,
    provided: &Listed,
    required: &Listed,
) -> Result<Vec<(u32, u32)>, Memory>
    ensures { IfOk result (λ pairs. (i j : ℕ) → Among (i, j) pairs.items ↔ ItemsJoin (Some provided.now.kind.now) (Some required.now.kind.now) i j) }
{
    match provided.kind {
        InterfaceKind::SenderReceiver(_) => match required.kind {
            InterfaceKind::SenderReceiver(_) => {
                let pairs = same_names(alloc, &provided.names, &required.names)?;
                Ok(pairs)
            }
            _ => Ok(Vec::new(alloc)),
        },
        InterfaceKind::ClientServer(_) => match required.kind {
            InterfaceKind::ClientServer(_) => {
                let pairs = same_names(alloc, &provided.names, &required.names)?;
                Ok(pairs)
            }
            _ => Ok(Vec::new(alloc)),
        },
        InterfaceKind::ModeSwitch(_) => match required.kind {
            InterfaceKind::ModeSwitch(_) => {
                let pairs = one_pair(alloc)?;
                Ok(pairs)
            }
            _ => Ok(Vec::new(alloc)),
        },
    }
}

/// The items of a provided and a required interface that are joined, by their positions.
pub fn matches(
    alloc: Global,
    d: &Description,
    interfaces: &[Listed],
    provided: u32,
    required: u32,
) -> Result<Vec<(u32, u32)>, Memory>
    requires { AreListed d.now interfaces.now }
    ensures { IfOk result (λ pairs. (i j : ℕ) → Among (i, j) pairs.items ↔ ItemsJoin (interface_at d.now provided) (interface_at d.now required) i j) }
{
    match interfaces.get(provided as usize) {
        Some(first) => match interfaces.get(required as usize) {
            Some(second) => {
                let pairs = matches_of(alloc, first, second)?;
                Ok(pairs)
            }
            None => Ok(Vec::new(alloc)),
        },
        None => Ok(Vec::new(alloc)),
    }
}
