//! The ends below ports, kept so that what was searched is not searched again.

ghost use Rattle.std.specs.Prelude.{◌≡◌, ◌≤◌, ◌+◌, false, IfOk, OnOk};
ghost use Rattle.description_types.specs.declared.description.Description.{Description};
ghost use Rattle.composition_tables.specs.declared.tree.PortEnd.{PortEnd};
ghost use Rattle.composition_tables.specs.Ends.{ends};
ghost use Rattle.description_types.specs.Members.{Among};
ghost use Rattle.composition_tables.specs.Trees.{IsTree};
ghost use Rattle.end_search.specs.Gates.{gate_ends, IsShallow};
ghost use Rattle.end_search.specs.Near.{AreKept, AreNear};
ghost use Rattle.end_search.specs.Wishes.{AreFound, IsEnd, IsInnerEnd, Sought};
ghost use Rattle.end_search.specs.declared.seek.Wanted.{Wanted};

use crate::gates::{Gate, ends_at};
use crate::seek::{Found, Wanted, Wish, note_all_moved, note_port};
use composition_tables::connectors::type_in;
use composition_tables::counts::count_below;
use composition_tables::ends::{inner_ports, start_of};
use composition_tables::links::LINK_LIMIT;
use composition_tables::tree::{PortEnd, Tree};
use description_types::{InnerPort, PrototypeType};
use indexmap::{IndexMap, IndexSet};
use rte_text::Memory;
use std::alloc::Global;

/// The ends below ports of compositions. A port is named by the gate whose first instance has the number 0.
#[derive(Drop)]
pub struct Near {
    /// The ends of ports that have few.
    pub ends: IndexMap<Gate, Vec<PortEnd>>,
    /// Ports that have more. They are searched together, and not one by one.
    pub crowded: IndexSet<Gate>,
    /// How many ends and ports there are, a port as eight ends.
    pub weight: usize,
}

/// How many ends a port has at most that are kept.
const FEW: usize = 64;

/// The weight from which on nothing more is kept. So what is kept is bounded.
const NEAR_LIMIT: usize = 2_097_152;

/// Nothing is kept yet.
pub fn nothing_near(alloc: Global) -> Near
    ensures { (d : Description) (w : Wanted) → AreNear d w result }
{
    Near {
        ends: IndexMap::new(alloc),
        crowded: IndexSet::new(alloc),
        weight: 0,
    }
}

/// Whether a search below a port has nothing to add.
fn is_settled(near: &Near, gate: Gate) -> bool {
    near.weight >= NEAR_LIMIT || near.ends.contains_key(&gate) || near.crowded.contains(&gate)
}

/// Notes that a port has more than few ends.
fn note_crowded(near: &mut Near, gate: Gate) -> Result<(), Memory>
    ensures { near.new.ends ≡ near.old.ends }
{
    near.weight = near.weight.saturating_add(8);
    near.crowded.insert(gate)?;
    Ok(())
}

/// Keeps the ends of a port.
fn keep_ends(alloc: Global, near: &mut Near, gate: Gate, ends: &[PortEnd]) -> Result<(), Memory>
    ensures { OnOk result ((d : Description) (w : Wanted) → AreNear d w near.old → AreKept d w gate ends.now → AreNear d w near.new) }
{
    near.weight = near.weight.saturating_add(ends.len()).saturating_add(8);
    near.ends.insert(gate, Vec::from_slice(alloc, ends)?)?;
    Ok(())
}

/// Keeps the ends that were gathered below a port, or notes that there may be more.
fn keep_gathered(
    alloc: Global,
    near: &mut Near,
    gate: Gate,
    ends: &[PortEnd],
    is_cut: bool,
) -> Result<(), Memory>
    ensures { OnOk result ((d : Description) (w : Wanted) → AreNear d w near.old → (is_cut ≡ false → AreKept d w gate ends.now) → AreNear d w near.new) }
{
    if is_cut {
        note_crowded(near, gate)?;
        return Ok(());
    }
    keep_ends(alloc, near, gate, ends)?;
    Ok(())
}

/// Adds the ends that are kept of a port, with instances numbered from another first one on. The answer is whether there may
/// be more of them.
fn note_kept(
    near: &Near,
    depth: usize,
    composition: u32,
    first: u32,
    port: u32,
    limit: usize,
    found: &mut IndexSet<PortEnd>,
) -> Result<bool, Memory>
    ensures { IfOk result (λ is_cut. (d : Description) (w : Wanted) → AreNear d w near.now → Sought (IsEnd d w depth (PrototypeType.Composition composition) first port) found.old.keys found.new.keys is_cut) }
{
    match near
        .ends
        .get(&Gate::Composition(depth, composition, 0, port))
    {
        Some(ends) => {
            let is_cut = note_all_moved(first, ends.as_slice(), limit, found)?;
            Ok(is_cut)
        }
        None => Ok(true),
    }
}

/// Gathers the ends below an inner port of a composition. The answer is whether there may be more of them.
#[cycle(gathering)]
fn gather_inner(
    alloc: Global,
    tree: &Tree,
    depth: usize,
    composition: u32,
    inner: InnerPort,
    wish: &Wish,
    near: &mut Near,
    found: &mut IndexSet<PortEnd>,
) -> Result<bool, Memory>
    requires is_tree { IsTree tree.now }
    requires within { depth ≤ 8 }
    requires near { AreNear tree.now.d.now wish.now.wanted near.old }
    ensures near { OnOk result (AreNear tree.now.d.now wish.now.wanted near.new) }
    ensures found { IfOk result (Sought (IsInnerEnd tree.now.d.now wish.now.wanted depth composition inner.prototype inner.port) found.old.keys found.new.keys) }
{
    match type_in(tree.d, composition, inner.prototype) {
        Some(PrototypeType::Component(component)) => {
            let start = start_of(tree, depth, composition, inner.prototype);
            let is_cut = note_port(tree, component, start, inner.port, wish, found)?;
            Ok(is_cut)
        }
        Some(PrototypeType::Composition(held)) => {
            if count_below(tree.levels.as_slice(), depth, held) == 0 {
                return Ok(false);
            }
            let start = start_of(tree, depth, composition, inner.prototype);
            keep_port(alloc, tree, depth, held, inner.port, wish, near)?;
            let is_cut = note_kept(near, depth, held, start, inner.port, wish.limit, found)?;
            Ok(is_cut)
        }
        None => Ok(false),
    }
}

/// Gathers the ends below a port of a composition that is followed one prototype further than `depth`.
#[cycle(gathering)]
fn gather(
    alloc: Global,
    tree: &Tree,
    depth: usize,
    composition: u32,
    port: u32,
    wish: &Wish,
    near: &mut Near,
    found: &mut IndexSet<PortEnd>,
) -> Result<bool, Memory>
    requires is_tree { IsTree tree.now }
    requires within { depth ≤ 8 }
    requires near { AreNear tree.now.d.now wish.now.wanted near.old }
    ensures near { OnOk result (AreNear tree.now.d.now wish.now.wanted near.new) }
    ensures found { IfOk result (Sought (IsEnd tree.now.d.now wish.now.wanted (depth + 1) (PrototypeType.Composition composition) 0 port) found.old.keys found.new.keys) }
{
    for inner in inner_ports(tree, composition, port) {
        if gather_inner(alloc, tree, depth, composition, *inner, wish, near, found)? {
            return Ok(true);
        }
    }
    Ok(false)
}

/// Keeps the ends below a port of a composition, if they are few.
#[cycle(gathering)]
fn keep_port(
    alloc: Global,
    tree: &Tree,
    depth: usize,
    composition: u32,
    port: u32,
    wish: &Wish,
    near: &mut Near,
) -> Result<(), Memory>
    requires is_tree { IsTree tree.now }
    requires within { depth ≤ 8 }
    requires near { AreNear tree.now.d.now wish.now.wanted near.old }
    ensures { OnOk result (AreNear tree.now.d.now wish.now.wanted near.new) }
{
    let gate = Gate::Composition(depth, composition, 0, port);
    if depth == 0 || is_settled(near, gate) {
        return Ok(());
    }
    let mut found = IndexSet::new(alloc);
    let is_cut = gather(
        alloc,
        tree,
        depth - 1,
        composition,
        port,
        wish,
        near,
        &mut found,
    )?;
    let kept = keep_gathered(alloc, near, gate, found.as_slice(), is_cut);
    drop(found);
    kept
}

/// Keeps the ends below a port of a composition, if they are few, whatever their interfaces.
fn keep_few(
    alloc: Global,
    tree: &Tree,
    depth: usize,
    composition: u32,
    port: u32,
    near: &mut Near,
) -> Result<(), Memory>
    requires is_tree { IsTree tree.now }
    requires within { depth ≤ 8 }
    requires near { AreNear tree.now.d.now Wanted.Anything near.old }
    ensures { OnOk result (AreNear tree.now.d.now Wanted.Anything near.new) }
{
    let wish = Wish {
        wanted: Wanted::Anything,
        limit: FEW,
    };
    let kept = keep_port(alloc, tree, depth, composition, port, &wish, near);
    drop(wish);
    kept
}

/// The ends below a port of a composition, if they are few. Else the answer is that there may be more.
fn few_below(
    alloc: Global,
    tree: &Tree,
    depth: usize,
    composition: u32,
    first: u32,
    port: u32,
    near: &mut Near,
) -> Result<Found, Memory>
    requires is_tree { IsTree tree.now }
    requires within { depth ≤ 8 }
    requires near { AreNear tree.now.d.now Wanted.Anything near.old }
    ensures near { OnOk result (AreNear tree.now.d.now Wanted.Anything near.new) }
    ensures found { IfOk result (AreFound Wanted.Anything (ends tree.now.d.now depth (PrototypeType.Composition composition) first port)) }
{
    keep_few(alloc, tree, depth, composition, port, near)?;
    let mut ends = IndexSet::new(alloc);
    let is_cut = note_kept(near, depth, composition, first, port, FEW, &mut ends)?;
    Ok(Found { ends, is_cut })
}

/// All ends at or below a gate, unless there are more than there may be links.
fn all_at(alloc: Global, tree: &Tree, gate: Gate) -> Result<Found, Memory>
    requires is_tree { IsTree tree.now }
    requires shallow { IsShallow gate }
    ensures { IfOk result (AreFound Wanted.Anything (gate_ends tree.now.d.now gate)) }
{
    let wish = Wish {
        wanted: Wanted::Anything,
        limit: LINK_LIMIT,
    };
    let found = ends_at(alloc, tree, gate, &wish);
    drop(wish);
    found
}

/// The ends at or below a gate, each once. Few are kept, so that no port is searched again that has few.
pub fn ends_near(alloc: Global, tree: &Tree, gate: Gate, near: &mut Near) -> Result<Found, Memory>
    requires is_tree { IsTree tree.now }
    requires shallow { IsShallow gate }
    requires near { AreNear tree.now.d.now Wanted.Anything near.old }
    ensures near { OnOk result (AreNear tree.now.d.now Wanted.Anything near.new) }
    ensures found { IfOk result (AreFound Wanted.Anything (gate_ends tree.now.d.now gate)) }
{
    match gate {
        Gate::Composition(depth, composition, first, port) => {
            let few = few_below(alloc, tree, depth, composition, first, port, near)?;
            if few.is_cut {
                drop(few);
                return all_at(alloc, tree, gate);
            }
            Ok(few)
        }
        Gate::Outer(_, _) | Gate::Component(_, _, _) => all_at(alloc, tree, gate),
    }
}
