//! What is below gates: ends and their interfaces, and which of these share an item.

ghost use Rattle.std.specs.Prelude.{◌≡◌, ◌<◌, ◌⊎◌, [], ℕ, List, IfOk, OnOk, length};
ghost use Rattle.composition_tables.specs.declared.tree.PortEnd.{PortEnd};
ghost use Rattle.description_types.specs.Members.{Among};
ghost use Rattle.end_search.specs.Gates.{gate_ends, IsShallow};
ghost use Rattle.end_search.specs.Near.{AreNear};
ghost use Rattle.end_search.specs.Wishes.{AreFound};
ghost use Rattle.end_search.specs.Matching.{AreListed};
ghost use Rattle.end_search.specs.Sides.{IsSide};
ghost use Rattle.end_search.specs.Sharing.{IsIndexed, AreShared};
ghost use Rattle.end_search.specs.Tables.{AreGroups};
ghost use Rattle.composition_tables.specs.Trees.{IsTree};

use crate::below::interfaces_below;
use crate::gates::Gate;
use crate::groups::{Groups, groups_of};
use crate::interfaces::Listed;
use crate::matches::turned;
use crate::near::{Near, ends_near};
use crate::partners::{Index, index_of, partners};
use crate::seek::{Found, Wanted};
use composition_tables::tree::{PortEnd, Tree};
use description_types::Description;
use indexmap::{IndexMap, IndexSet};
use rte_text::Memory;
use std::alloc::Global;

/// What is below a gate.
#[derive(Drop)]
pub struct Side<'a> {
    /// The interfaces of the ports.
    pub interfaces: IndexSet<u32>,
    /// For each key of their items those that have it, if there are several interfaces. A single one needs no index.
    pub index: Index<'a>,
    /// The ends, for each interface.
    pub groups: Groups,
    /// How many ends there are in the groups.
    pub count: usize,
    /// Whether there are more ends. Then the groups have more than there may be links.
    pub is_cut: bool,
    /// The interfaces of which all ends are in the groups all the same.
    pub known: IndexSet<u32>,
}

/// How many interfaces and ends a side has.
pub fn weight(side: &Side) -> usize {
    side.interfaces.len().saturating_add(side.count)
}

fn note_interface(interface: u32, interfaces: &mut IndexSet<u32>) -> Result<(), Memory>
    ensures stays { OnOk result ((i : ℕ) → Among i interfaces.old.keys → Among i interfaces.new.keys) }
    ensures has { OnOk result (Among interface interfaces.new.keys) }
{
    interfaces.insert(interface)?;
    Ok(())
}

/// The interfaces of ends, each once.
fn interfaces_of(alloc: Global, ends: &[PortEnd]) -> Result<IndexSet<u32>, Memory>
    ensures { IfOk result (λ interfaces. (x : PortEnd) → Among x ends.now → Among x.interface interfaces.keys) }
{
    let mut interfaces = IndexSet::new(alloc);
    for end in ends {
        note_interface(end.interface, &mut interfaces)?;
    }
    Ok(interfaces)
}

/// The interfaces of the ends below a gate. If not all ends were found, delegations are followed once more, whatever the
/// ends.
fn interfaces_at(
    alloc: Global,
    tree: &Tree,
    gate: Gate,
    found: &Found,
) -> Result<IndexSet<u32>, Memory>
    requires is_tree { IsTree tree.now }
    requires found { AreFound Wanted.Anything (gate_ends tree.now.d.now gate) found.now }
    ensures { IfOk result (λ interfaces. (x : PortEnd) → Among x (gate_ends tree.now.d.now gate) → Among x.interface interfaces.keys) }
{
    if found.is_cut {
        let interfaces = interfaces_below(alloc, tree, gate)?;
        return Ok(interfaces);
    }
    let interfaces = interfaces_of(alloc, found.ends.as_slice())?;
    Ok(interfaces)
}

/// For each key of some interfaces those that have it. One alone is matched by itself, so that it needs none.
fn index_over<'a>(
    alloc: Global,
    d: &Description,
    listed: &[Listed<'a>],
    interfaces: &[u32],
) -> Result<Index<'a>, Memory>
    requires { AreListed d.now listed.now }
    ensures { IfOk result (λ index. 1 < length interfaces.now → IsIndexed d.now interfaces.now index) }
{
    if interfaces.len() <= 1 {
        return Ok(IndexMap::new(alloc));
    }
    let index = index_of(alloc, d, listed, interfaces)?;
    Ok(index)
}

/// What is below a gate if these ends were found, with its interfaces and for each of their keys those that have it.
fn side_with<'a>(
    alloc: Global,
    found: &Found,
    interfaces: IndexSet<u32>,
    index: Index<'a>,
) -> Result<Side<'a>, Memory>
    ensures interfaces { IfOk result (λ side. side.interfaces.keys ≡ interfaces.keys) }
    ensures index { IfOk result (λ side. side.index ≡ index.entry) }
    ensures groups { IfOk result (λ side. AreGroups found.now.ends.keys side.groups) }
    ensures cut { IfOk result (λ side. side.is_cut ≡ found.now.is_cut) }
    ensures known { IfOk result (λ side. side.known.keys ≡ []) }
{
    let groups = groups_of(alloc, found.ends.as_slice())?;
    Ok(Side {
        interfaces,
        index,
        groups,
        count: found.ends.len(),
        is_cut: found.is_cut,
        known: IndexSet::new(alloc),
    })
}

/// What is below a gate if these ends were found.
fn side_over<'a>(
    alloc: Global,
    tree: &Tree,
    gate: Gate,
    listed: &[Listed<'a>],
    found: &Found,
) -> Result<Side<'a>, Memory>
    requires is_tree { IsTree tree.now }
    requires listed { AreListed tree.now.d.now listed.now }
    requires found { AreFound Wanted.Anything (gate_ends tree.now.d.now gate) found.now }
    ensures { IfOk result (λ side. IsSide tree.now.d.now gate side) }
{
    let interfaces = interfaces_at(alloc, tree, gate, found)?;
    let index = index_over(alloc, tree.d, listed, interfaces.as_slice())?;
    let side = side_with(alloc, found, interfaces, index)?;
    Ok(side)
}

/// What is below a gate.
pub fn side_of<'a>(
    alloc: Global,
    tree: &Tree,
    gate: Gate,
    listed: &[Listed<'a>],
    near: &mut Near,
) -> Result<Side<'a>, Memory>
    requires is_tree { IsTree tree.now }
    requires shallow { IsShallow gate }
    requires listed { AreListed tree.now.d.now listed.now }
    requires near { AreNear tree.now.d.now Wanted.Anything near.old }
    ensures near { OnOk result (AreNear tree.now.d.now Wanted.Anything near.new) }
    ensures side { IfOk result (λ side. IsSide tree.now.d.now gate side) }
{
    let found = ends_near(alloc, tree, gate, near)?;
    let side = side_over(alloc, tree, gate, listed, &found);
    drop(found);
    side
}

/// The pairs of one of these provided interfaces and a required one that share an item, the required ones being indexed.
fn pairs_of_provided<'a>(
    alloc: Global,
    d: &Description,
    listed: &[Listed<'a>],
    provided: &[u32],
    required: &Index<'a>,
) -> Result<Vec<(u32, u32)>, Memory>
    requires { AreListed d.now listed.now }
    ensures { IfOk result (λ pairs. (others : List ℕ) → IsIndexed d.now others required.now → AreShared d.now provided.now others pairs.items) }
{
    let pairs = partners(alloc, d, listed, provided, required)?;
    let list = Vec::from_slice(alloc, pairs.as_slice())?;
    Ok(list)
}

/// The pairs of a provided interface and one of these required ones that share an item, the provided ones being indexed.
fn pairs_of_required<'a>(
    alloc: Global,
    d: &Description,
    listed: &[Listed<'a>],
    required: &[u32],
    provided: &Index<'a>,
) -> Result<Vec<(u32, u32)>, Memory>
    requires { AreListed d.now listed.now }
    ensures { IfOk result (λ pairs. (others : List ℕ) → IsIndexed d.now others provided.now → AreShared d.now others required.now pairs.items) }
{
    let pairs = partners(alloc, d, listed, required, provided)?;
    let list = turned(alloc, pairs.as_slice());
    drop(pairs);
    list
}

/// The pairs of an interface of a provided side and one of a required side that share an item, if one side has several
/// interfaces. The side with less interfaces is walked, so that a large one costs nothing beside a small one.
pub fn shared(
    alloc: Global,
    d: &Description,
    listed: &[Listed],
    provided: &Side,
    required: &Side,
) -> Result<Vec<(u32, u32)>, Memory>
    requires listed { AreListed d.now listed.now }
    requires several { (1 < length provided.now.interfaces.keys) ⊎ (1 < length required.now.interfaces.keys) }
    requires provided { 1 < length provided.now.interfaces.keys → IsIndexed d.now provided.now.interfaces.keys provided.now.index }
    requires required { 1 < length required.now.interfaces.keys → IsIndexed d.now required.now.interfaces.keys required.now.index }
    ensures { IfOk result (λ pairs. AreShared d.now provided.now.interfaces.keys required.now.interfaces.keys pairs.items) }
{
    if provided.interfaces.len() <= required.interfaces.len() {
        let interfaces = provided.interfaces.as_slice();
        return pairs_of_provided(alloc, d, listed, interfaces, &required.index);
    }
    let interfaces = required.interfaces.as_slice();
    pairs_of_required(alloc, d, listed, interfaces, &provided.index)
}
