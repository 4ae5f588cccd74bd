//! How deep instances stand.

ghost use Rattle.std.specs.Prelude.{◌≡◌, ◌<◌, ◌↔◌, ℕ, suc, [], IfOk, IsTrue, nat_eq};
ghost use Rattle.std.specs.List.{flat_map, list_any};
ghost use Rattle.indexmap.specs.IndexSet.{insert_all};
ghost use Rattle.description_types.specs.Places.{IsTooDeep};
ghost use Rattle.composition_tables.specs.Levels.{is_component, IsLevel};
ghost use Rattle.description_types.specs.Paths.{held_by, prototypes_of};

use crate::counts::DEPTH_LIMIT;
use crate::prototypes::prototypes_of;
use crate::reach::{add_held, reached};
use description_types::{Description, PrototypeType};
use indexmap::IndexSet;
use rte_text::Memory;
use std::alloc::Global;

fn is_component(of_type: PrototypeType) -> bool
    ensures { result ≡ is_component of_type }
{
    match of_type {
        PrototypeType::Component(_) => true,
        PrototypeType::Composition(_) => false,
    }
}

fn holds_component(d: &Description, composition: usize) -> bool
    ensures { result ≡ list_any (λ p. is_component p.of_type) (prototypes_of d.now composition) }
{
    prototypes_of(d, composition)
        .iter()
        .any(|prototype| is_component(prototype.of_type))
}

fn any_holds_component(d: &Description, compositions: &[usize]) -> bool
    ensures { result ≡ list_any (λ c. list_any (λ p. is_component p.of_type) (prototypes_of d.now c)) compositions.now }
{
    compositions
        .iter()
        .any(|composition| holds_component(d, *composition))
}

fn held_by_any(alloc: Global, d: &Description, holders: &[usize]) -> Result<IndexSet<usize>, Memory>
    ensures { IfOk result (λ held. held.keys ≡ insert_all nat_eq [] (flat_map (held_by d.now) holders.now)) }
{
    let mut held = IndexSet::new(alloc);
    for holder in holders {
        add_held(d, *holder, &mut held)?;
    }
    Ok(held)
}

fn next_level(
    alloc: Global,
    d: &Description,
    level: IndexSet<usize>,
) -> Result<IndexSet<usize>, Memory>
    ensures { IfOk result (λ next. (n : ℕ) → IsLevel d.now n level.keys → IsLevel d.now (suc n) next.keys) }
{
    let next = held_by_any(alloc, d, level.as_slice())?;
    Ok(next)
}

fn top_level(alloc: Global, d: &Description) -> Result<IndexSet<usize>, Memory>
    ensures { IfOk result (λ level. IsLevel d.now 0 level.keys) }
{
    let mut level = IndexSet::new(alloc);
    let root = d.root as usize;
    if root < d.compositions.len() {
        level.insert(root)?;
    }
    Ok(level)
}

fn deepest_level(alloc: Global, d: &Description) -> Result<IndexSet<usize>, Memory>
    ensures { IfOk result (λ level. IsLevel d.now 8 level.keys) }
{
    let mut level = top_level(alloc, d)?;
    for _ in 0..DEPTH_LIMIT {
        level = next_level(alloc, d, level)?;
    }
    Ok(level)
}

/// Whether an instance stands more than 8 prototypes below the root: whether a component stands in or below one of the
/// compositions that stand 8 prototypes below it.
pub fn is_too_deep(alloc: Global, d: &Description) -> Result<bool, Memory>
    ensures { IfOk result (λ answer. IsTrue answer ↔ IsTooDeep d.now) }
{
    let level = deepest_level(alloc, d)?;
    let below = reached(d, level)?;
    Ok(any_holds_component(d, below.as_slice()))
}
