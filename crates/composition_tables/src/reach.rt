//! The compositions below others.

ghost use Rattle.std.specs.Prelude.{◌≡◌, ◌<◌, ◌↔◌, ℕ, List, IfOk, OnOk, length, nat_eq, nat_lt, slice_get, Some, None, if◌then◌else◌};
ghost use Rattle.indexmap.specs.IndexSet.{insert_all};
ghost use Rattle.description_types.specs.Paths.{held_by, declared_composition, IsReached};
ghost use Rattle.description_types.specs.Members.{Among};

use crate::prototypes::prototypes_of;
use description_types::{Description, Prototype, PrototypeType};
use indexmap::IndexSet;
use rte_text::Memory;

fn number_at(list: &[usize], place: usize) -> Option<usize>
    ensures { result ≡ slice_get list.now place }
{
    list.get(place).copied()
}

/// The composition that a prototype is of, if it is a declared one.
pub fn declared_composition(d: &Description, prototype: &Prototype) -> Option<usize>
    ensures { result ≡ declared_composition d.now prototype.now }
{
    match prototype.of_type {
        PrototypeType::Composition(held) => declared(d, held as usize),
        PrototypeType::Component(_) => None,
    }
}

fn declared(d: &Description, composition: usize) -> Option<usize>
    ensures { result ≡ (if nat_lt composition (length d.now.compositions) then Some composition else None) }
{
    if composition < d.compositions.len() {
        Some(composition)
    } else {
        None
    }
}

/// Adds the declared compositions that a composition holds.
pub fn add_held(d: &Description, holder: usize, found: &mut IndexSet<usize>) -> Result<(), Memory>
    ensures { OnOk result (found.new.keys ≡ insert_all nat_eq found.old.keys (held_by d.now holder)) }
{
    for prototype in prototypes_of(d, holder) {
        if let Some(held) = declared_composition(d, prototype) {
            found.insert(held)?;
        }
    }
    Ok(())
}

/// The compositions that can be reached from those of a set, these included, by going from a composition to one that it
/// holds.
pub fn reached(d: &Description, starts: IndexSet<usize>) -> Result<IndexSet<usize>, Memory>
    requires { (e : ℕ) → Among e starts.keys → e < length d.now.compositions }
    ensures { IfOk result (λ found. (e : ℕ) → Among e found.keys ↔ IsReached d.now starts.keys e) }
{
    let mut found = starts;
    let mut next = 0;
    loop {
        match number_at(found.as_slice(), next) {
            Some(holder) => add_held(d, holder, &mut found)?,
            None => return Ok(found),
        }
        next += 1;
    }
}
