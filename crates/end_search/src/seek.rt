//! The search for the ends below a port, from composition to composition.

ghost use Rattle.std.specs.Prelude.{◌≡◌, ◌≤◌, ◌↔◌, ◌||◌, [], ◌∷◌, ℕ, true, false, IfOk, OnOk, IsTrue};
ghost use Rattle.description_types.specs.declared.description.Description.{Description};
ghost use Rattle.description_types.specs.declared.description.PrototypeType.{PrototypeType};
ghost use Rattle.end_search.specs.declared.seek.Wanted.{Wanted};
ghost use Rattle.composition_tables.specs.declared.tree.PortEnd.{PortEnd};
ghost use Rattle.composition_tables.specs.Ends.{ends};
ghost use Rattle.description_types.specs.Growing.{AnyOf};
ghost use Rattle.end_search.specs.Wishes.{end_from, AreFound, IsWanted, IsBelowPrototype, IsCutBelow, IsEnd, IsInnerEnd, IsKnown, Sought};
ghost use Rattle.composition_tables.specs.Trees.{IsTree};

use composition_tables::connectors::{interface_of, type_in};
use composition_tables::counts::count_below;
use composition_tables::ends::start_of;
use composition_tables::inner::{Inner, inner_of, ports_of_prototype};
use composition_tables::links::owner_from;
use composition_tables::tree::{Owner, PortEnd, Tree};
use description_types::PrototypeType;
use indexmap::IndexSet;
use rte_text::Memory;
use std::alloc::Global;

/// Which interfaces the ends have that a search is for.
#[derive(Drop)]
pub enum Wanted {
    Anything,
    Only(IndexSet<u32>),
}

/// What a search is for, and after how many ends it is cut short.
#[derive(Drop)]
pub struct Wish {
    pub wanted: Wanted,
    pub limit: usize,
}

/// The ends that a search has found; if it was cut short, there may be more.
#[derive(Drop)]
pub struct Found {
    pub ends: IndexSet<PortEnd>,
    pub is_cut: bool,
}

/// The ends below some ports of a composition, with instances numbered from its first one on.
#[derive(Drop)]
pub struct Known {
    pub depth: usize,
    pub composition: u32,
    pub ports: Vec<u32>,
    pub ends: IndexSet<PortEnd>,
    pub is_cut: bool,
}

fn is_wanted(wanted: &Wanted, interface: u32) -> bool
    ensures { IsTrue result ↔ IsWanted wanted.now interface }
{
    match wanted {
        Wanted::Anything => true,
        Wanted::Only(interfaces) => interfaces.contains(&interface),
    }
}

/// Adds an end. The answer is whether there are more of them now than the limit; then the search is cut short.
fn note_end(found: &mut IndexSet<PortEnd>, end: PortEnd, limit: usize) -> Result<bool, Memory>
    ensures found { IfOk result (Sought (λ x. x ≡ end) found.old.keys found.new.keys) }
    ensures cut { IfOk result (IsCutBelow limit) }
{
    found.insert(end)?;
    Ok(found.len() > limit)
}

fn note_wanted(wish: &Wish, found: &mut IndexSet<PortEnd>, end: PortEnd) -> Result<bool, Memory>
    ensures found { IfOk result (Sought (λ x. (x ≡ end) × IsWanted wish.now.wanted x.interface) found.old.keys found.new.keys) }
    ensures cut { IfOk result (IsCutBelow wish.now.limit) }
{
    if !is_wanted(&wish.wanted, end.interface) {
        return Ok(false);
    }
    let is_cut = note_end(found, end, wish.limit)?;
    Ok(is_cut)
}

/// Adds a port of an instance.
pub fn note_port(
    tree: &Tree,
    component: u32,
    first: u32,
    port: u32,
    wish: &Wish,
    found: &mut IndexSet<PortEnd>,
) -> Result<bool, Memory>
    ensures found { IfOk result (Sought (IsEnd tree.now.d.now wish.now.wanted 0 (PrototypeType.Component component) first port) found.old.keys found.new.keys) }
    ensures cut { IfOk result (IsCutBelow wish.now.limit) }
{
    match interface_of(tree.d, PrototypeType::Component(component), port) {
        Some(interface) => {
            let owner = Owner::Instance(first);
            let is_cut = note_wanted(
                wish,
                found,
                PortEnd {
                    owner,
                    port,
                    interface,
                },
            )?;
            Ok(is_cut)
        }
        None => Ok(false),
    }
}

fn note_ports(
    tree: &Tree,
    component: u32,
    first: u32,
    ports: &[u32],
    wish: &Wish,
    found: &mut IndexSet<PortEnd>,
) -> Result<bool, Memory>
    ensures found { IfOk result (Sought (AnyOf (IsEnd tree.now.d.now wish.now.wanted 0 (PrototypeType.Component component) first) ports.now) found.old.keys found.new.keys) }
    ensures cut { IfOk result (IsCutBelow wish.now.limit) }
{
    for port in ports {
        if note_port(tree, component, first, *port, wish, found)? {
            return Ok(true);
        }
    }
    Ok(false)
}

fn end_from(first: u32, end: PortEnd) -> PortEnd
    ensures { result ≡ end_from first end }
{
    PortEnd {
        owner: owner_from(first, end.owner),
        port: end.port,
        interface: end.interface,
    }
}

fn note_moved(
    first: u32,
    end: PortEnd,
    limit: usize,
    found: &mut IndexSet<PortEnd>,
) -> Result<bool, Memory>
    ensures found { IfOk result (Sought (λ x. x ≡ end_from first end) found.old.keys found.new.keys) }
    ensures cut { IfOk result (IsCutBelow limit) }
{
    let is_cut = note_end(found, end_from(first, end), limit)?;
    Ok(is_cut)
}

/// Adds these ends, with instances numbered from another first one on.
pub fn note_all_moved(
    first: u32,
    ends: &[PortEnd],
    limit: usize,
    found: &mut IndexSet<PortEnd>,
) -> Result<bool, Memory>
    ensures found { IfOk result (Sought (AnyOf (λ (y : PortEnd) x. x ≡ end_from first y) ends.now) found.old.keys found.new.keys) }
    ensures cut { IfOk result (IsCutBelow limit) }
{
    for end in ends {
        if note_moved(first, *end, limit, found)? {
            return Ok(true);
        }
    }
    Ok(false)
}

fn nothing_known(alloc: Global) -> Known
    ensures known { (d : Description) (w : Wanted) → IsKnown d w result }
    ensures whole { result.is_cut ≡ false }
{
    Known {
        depth: 0,
        composition: 0,
        ports: Vec::new(alloc),
        ends: IndexSet::new(alloc),
        is_cut: false,
    }
}

fn has_ports(known: &Known, ports: &[u32]) -> bool
    ensures { result ≡ true → known.now.ports.items ≡ ports.now }
{
    known.ports.as_slice() == ports
}

fn is_known(known: &Known, depth: usize, composition: u32, ports: &[u32]) -> bool
    ensures { result ≡ true → (known.now.depth ≡ depth) × (known.now.composition ≡ composition) × (known.now.ports.items ≡ ports.now) }
{
    if !has_ports(known, ports) {
        return false;
    }
    if known.depth != depth {
        return false;
    }
    known.composition == composition
}

fn either(first: bool, second: bool) -> bool
    ensures { result ≡ (first || second) }
{
    first || second
}

/// Begins to look below other ports, of which no end is known yet.
fn begin_anew(
    alloc: Global,
    known: &mut Known,
    depth: usize,
    composition: u32,
    ports: &[u32],
) -> Result<(), Memory>
    ensures depth { OnOk result (known.new.depth ≡ depth) }
    ensures composition { OnOk result (known.new.composition ≡ composition) }
    ensures ports { OnOk result (known.new.ports.items ≡ ports.now) }
    ensures ends { OnOk result (known.new.ends.keys ≡ []) }
{
    known.depth = depth;
    known.composition = composition;
    known.ports = Vec::from_slice(alloc, ports)?;
    known.ends = IndexSet::new(alloc);
    Ok(())
}

/// Finds the ends below some ports of a composition, unless they are the last that were found.
#[cycle(seeking)]
fn seek_known(
    alloc: Global,
    tree: &Tree,
    depth: usize,
    composition: u32,
    ports: &[u32],
    wish: &Wish,
    known: &mut Known,
) -> Result<(), Memory>
    requires is_tree { IsTree tree.now }
    requires within { depth ≤ 8 }
    requires known { IsKnown tree.now.d.now wish.now.wanted known.old }
    requires cut { IsCutBelow wish.now.limit known.old.is_cut }
    ensures known { OnOk result (IsKnown tree.now.d.now wish.now.wanted known.new) }
    ensures cut { OnOk result (IsCutBelow wish.now.limit known.new.is_cut) }
    ensures depth { OnOk result (known.new.depth ≡ depth) }
    ensures composition { OnOk result (known.new.composition ≡ composition) }
    ensures ports { OnOk result (known.new.ports.items ≡ ports.now) }
{
    if is_known(known, depth, composition, ports) {
        return Ok(());
    }
    begin_anew(alloc, known, depth, composition, ports)?;
    known.is_cut = seek(
        alloc,
        tree,
        depth,
        composition,
        ports,
        wish,
        &mut known.ends,
    )?;
    Ok(())
}

/// Looks below some ports of a prototype. A composition without instances is left out.
#[cycle(seeking)]
fn seek_inner(
    alloc: Global,
    tree: &Tree,
    depth: usize,
    composition: u32,
    prototype: u32,
    ports: &[u32],
    wish: &Wish,
    known: &mut Known,
    found: &mut IndexSet<PortEnd>,
) -> Result<bool, Memory>
    requires is_tree { IsTree tree.now }
    requires within { depth ≤ 8 }
    requires known { IsKnown tree.now.d.now wish.now.wanted known.old }
    requires cut { IsCutBelow wish.now.limit known.old.is_cut }
    ensures known { OnOk result (IsKnown tree.now.d.now wish.now.wanted known.new) }
    ensures cut { OnOk result (IsCutBelow wish.now.limit known.new.is_cut) }
    ensures found { IfOk result (Sought (AnyOf (IsInnerEnd tree.now.d.now wish.now.wanted depth composition prototype) ports.now) found.old.keys found.new.keys) }
    ensures answer { IfOk result (IsCutBelow wish.now.limit) }
{
    match type_in(tree.d, composition, prototype) {
        Some(PrototypeType::Component(component)) => {
            let start = start_of(tree, depth, composition, prototype);
            let is_cut = note_ports(tree, component, start, ports, wish, found)?;
            Ok(is_cut)
        }
        Some(PrototypeType::Composition(held)) => {
            if count_below(tree.levels.as_slice(), depth, held) == 0 {
                return Ok(false);
            }
            let start = start_of(tree, depth, composition, prototype);
            seek_known(alloc, tree, depth, held, ports, wish, known)?;
            let is_cut = note_all_moved(start, known.ends.as_slice(), wish.limit, found)?;
            Ok(either(is_cut, known.is_cut))
        }
        None => Ok(false),
    }
}

/// Looks below inner ports of a composition. What prototypes in a row have in common is found once.
#[cycle(seeking)]
fn seek_prototypes(
    alloc: Global,
    tree: &Tree,
    depth: usize,
    composition: u32,
    inner: &Inner,
    wish: &Wish,
    known: &mut Known,
    found: &mut IndexSet<PortEnd>,
) -> Result<bool, Memory>
    requires is_tree { IsTree tree.now }
    requires within { depth ≤ 8 }
    requires known { IsKnown tree.now.d.now wish.now.wanted known.old }
    requires cut { IsCutBelow wish.now.limit known.old.is_cut }
    ensures found { IfOk result (Sought (AnyOf (IsBelowPrototype tree.now.d.now wish.now.wanted depth composition inner.now) inner.now.prototypes.keys) found.old.keys found.new.keys) }
    ensures cut { IfOk result (IsCutBelow wish.now.limit) }
{
    for prototype in inner.prototypes.as_slice() {
        let ports = ports_of_prototype(inner, *prototype);
        if seek_inner(
            alloc,
            tree,
            depth,
            composition,
            *prototype,
            ports,
            wish,
            known,
            found,
        )? {
            return Ok(true);
        }
    }
    Ok(false)
}

/// Looks for the ends below some ports of a composition, with instances numbered from its first one on. The answer is
/// whether the search was cut short.
#[cycle(seeking)]
fn seek(
    alloc: Global,
    tree: &Tree,
    depth: usize,
    composition: u32,
    ports: &[u32],
    wish: &Wish,
    found: &mut IndexSet<PortEnd>,
) -> Result<bool, Memory>
    requires is_tree { IsTree tree.now }
    requires within { depth ≤ 8 }
    ensures found { IfOk result (Sought (AnyOf (IsEnd tree.now.d.now wish.now.wanted depth (PrototypeType.Composition composition) 0) ports.now) found.old.keys found.new.keys) }
    ensures cut { IfOk result (IsCutBelow wish.now.limit) }
{
    if depth == 0 {
        return Ok(false);
    }
    let inner = inner_of(alloc, tree, composition, ports)?;
    let mut known = nothing_known(alloc);
    let is_cut = seek_prototypes(
        alloc,
        tree,
        depth - 1,
        composition,
        &inner,
        wish,
        &mut known,
        found,
    );
    drop(known);
    drop(inner);
    is_cut
}

/// The ends at a port of an instance.
pub fn ends_of_instance(
    alloc: Global,
    tree: &Tree,
    component: u32,
    first: u32,
    port: u32,
    wish: &Wish,
) -> Result<Found, Memory>
    ensures found { IfOk result (AreFound wish.now.wanted (ends tree.now.d.now 0 (PrototypeType.Component component) first port)) }
    ensures cut { IfOk result (λ found. IsCutBelow wish.now.limit found.is_cut) }
{
    let mut ends = IndexSet::new(alloc);
    let is_cut = note_port(tree, component, first, port, wish, &mut ends)?;
    Ok(Found { ends, is_cut })
}

/// The ends below a port of a composition whose first instance has the number 0, each once.
fn ends_from_zero(
    alloc: Global,
    tree: &Tree,
    depth: usize,
    composition: u32,
    port: u32,
    wish: &Wish,
) -> Result<Found, Memory>
    requires is_tree { IsTree tree.now }
    requires within { depth ≤ 8 }
    ensures found { IfOk result (AreFound wish.now.wanted (ends tree.now.d.now depth (PrototypeType.Composition composition) 0 port)) }
    ensures cut { IfOk result (λ found. IsCutBelow wish.now.limit found.is_cut) }
{
    let ports = [port];
    let mut ends = IndexSet::new(alloc);
    let is_cut = seek(alloc, tree, depth, composition, &ports, wish, &mut ends)?;
    Ok(Found { ends, is_cut })
}

/// The ends that were found below a port whose first instance has the number 0, with instances numbered from another first
/// one on.
fn ends_moved(alloc: Global, first: u32, near: &Found, limit: usize) -> Result<Found, Memory>
    ensures found { IfOk result (λ found. (d : Description) (w : Wanted) (n : ℕ) (t : PrototypeType) (port : ℕ) → AreFound w (ends d n t 0 port) near.now → AreFound w (ends d n t first port) found) }
    ensures cut { IfOk result (λ found. IsCutBelow limit near.now.is_cut → IsCutBelow limit found.is_cut) }
{
    let mut ends = IndexSet::new(alloc);
    let is_more = note_all_moved(first, near.ends.as_slice(), limit, &mut ends)?;
    Ok(Found {
        ends,
        is_cut: either(is_more, near.is_cut),
    })
}

/// The ends at or below a port of a composition, each once. If many chains lead to one port, it is followed once.
pub fn ends_below(
    alloc: Global,
    tree: &Tree,
    depth: usize,
    composition: u32,
    first: u32,
    port: u32,
    wish: &Wish,
) -> Result<Found, Memory>
    requires is_tree { IsTree tree.now }
    requires within { depth ≤ 8 }
    ensures found { IfOk result (AreFound wish.now.wanted (ends tree.now.d.now depth (PrototypeType.Composition composition) first port)) }
    ensures cut { IfOk result (λ found. IsCutBelow wish.now.limit found.is_cut) }
{
    let near = ends_from_zero(alloc, tree, depth, composition, port, wish)?;
    let found = ends_moved(alloc, first, &near, wish.limit);
    drop(near);
    found
}
