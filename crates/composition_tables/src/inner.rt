//! Inner ports of a composition, by their prototypes.

ghost use Rattle.std.specs.Prelude.{◌≡◌, ◌↔◌, ◌⊎◌, ℕ, nat_eq, IfOk, OnOk};
ghost use Rattle.std.specs.List.{flat_map};
ghost use Rattle.indexmap.specs.IndexMap.{get};
ghost use Rattle.composition_tables.specs.Ends.{inner_ports};
ghost use Rattle.description_types.specs.Members.{Among};
ghost use Rattle.composition_tables.specs.Multi.{under};
ghost use Rattle.composition_tables.specs.Trees.{IsTree};
ghost use Rattle.composition_tables.specs.Inner.{port_of, AreInner};

use crate::ends::inner_ports;
use crate::multi::add_under;
use crate::tree::Tree;
use description_types::InnerPort;
use indexmap::{IndexMap, IndexSet};
use rte_text::Memory;
use std::alloc::Global;

/// Inner ports of a composition.
#[derive(Drop)]
pub struct Inner {
    /// The prototypes that have some, each once.
    pub prototypes: IndexSet<u32>,
    /// For each prototype its ports, each once.
    pub ports: IndexMap<u32, Vec<u32>>,
}

fn note_inner(inner: InnerPort, found: &mut IndexSet<(u32, u32)>) -> Result<(), Memory>
    ensures { OnOk result ((k : ℕ × ℕ) → Among k found.new.keys ↔ (Among k found.old.keys ⊎ (port_of k ≡ inner))) }
{
    found.insert((inner.prototype, inner.port))?;
    Ok(())
}

fn note_all(inners: &[InnerPort], found: &mut IndexSet<(u32, u32)>) -> Result<(), Memory>
    ensures { OnOk result ((k : ℕ × ℕ) → Among k found.new.keys ↔ (Among k found.old.keys ⊎ Among (port_of k) inners.now)) }
{
    for inner in inners {
        note_inner(*inner, found)?;
    }
    Ok(())
}

/// The inner ports that a composition delegates these outer ports to, each once.
fn inner_pairs(
    alloc: Global,
    tree: &Tree,
    composition: u32,
    ports: &[u32],
) -> Result<IndexSet<(u32, u32)>, Memory>
    requires { IsTree tree.now }
    ensures { IfOk result (λ found. (k : ℕ × ℕ) → Among k found.keys ↔ Among (port_of k) (flat_map (inner_ports tree.now.d.now composition) ports.now)) }
{
    let mut found = IndexSet::new(alloc);
    for port in ports {
        note_all(inner_ports(tree, composition, *port), &mut found)?;
    }
    Ok(found)
}

fn note_prototype(prototype: u32, prototypes: &mut IndexSet<u32>) -> Result<(), Memory>
    ensures { OnOk result ((q : ℕ) → Among q prototypes.new.keys ↔ (Among q prototypes.old.keys ⊎ (q ≡ prototype))) }
{
    prototypes.insert(prototype)?;
    Ok(())
}

fn by_prototype(alloc: Global, pairs: &[(u32, u32)]) -> Result<Inner, Memory>
    ensures listed { IfOk result (λ inner. (q p : ℕ) → Among (q, p) pairs.now → Among q inner.prototypes.keys) }
    ensures ports { IfOk result (λ inner. (q p : ℕ) → Among p (under (get nat_eq inner.ports q)) ↔ Among (q, p) pairs.now) }
{
    let mut prototypes = IndexSet::new(alloc);
    let mut ports = IndexMap::new(alloc);
    for pair in pairs {
        note_prototype(pair.0, &mut prototypes)?;
        add_under(alloc, &mut ports, pair.0, pair.1)?;
    }
    Ok(Inner { prototypes, ports })
}

/// The inner ports that a composition delegates these outer ports to.
pub fn inner_of(
    alloc: Global,
    tree: &Tree,
    composition: u32,
    ports: &[u32],
) -> Result<Inner, Memory>
    requires { IsTree tree.now }
    ensures { IfOk result (AreInner tree.now.d.now composition ports.now) }
{
    let pairs = inner_pairs(alloc, tree, composition, ports)?;
    let inner = by_prototype(alloc, pairs.as_slice())?;
    Ok(inner)
}

/// The ports of a prototype.
pub fn ports_of_prototype(inner: &Inner, prototype: u32) -> &[u32]
    ensures { result.now ≡ under (get nat_eq inner.now.ports prototype) }
{
    match inner.ports.get(&prototype) {
        Some(ports) => ports.as_slice(),
        None => &[],
    }
}
