//! Links of the ports below two gates.

ghost use Rattle.std.specs.Prelude.{◌≡◌, ◌<◌, ◌⊎◌, ℕ, true, IfOk, IfSome, IfNone, OnOk};
ghost use Rattle.end_search.specs.Gates.{gate_ends, IsShallow};
ghost use Rattle.description_types.specs.Growing.{Grown};
ghost use Rattle.end_crossing.specs.PortLinks.{IsCrossLink};
ghost use Rattle.end_crossing.specs.Crossings.{AreFirsts, AreSeconds, HasPairs, IsAdding, IsPart};
ghost use Rattle.end_search.specs.Sides.{HasInterface, IsSide};
ghost use Rattle.end_search.specs.Wishes.{IsCutBelow};
ghost use Rattle.description_types.specs.Members.{Among};
ghost use Rattle.composition_tables.specs.Trees.{IsTree};

use crate::completing::complete_all;
use crate::cross::{add_grouped, cross};
use crate::matched::Matched;
use crate::rows::add_known;
use composition_tables::gathering::Links;
use composition_tables::links::LINK_LIMIT;
use composition_tables::tree::Tree;
use description_types::Description;
use end_search::gates::{Gate, ends_at};
use end_search::seek::{Found, Wanted, Wish};
use end_search::sides::Side;
use indexmap::IndexSet;
use rte_text::Memory;
use std::alloc::Global;

/// How many ends are looked for at most before all of them are: as many as a list of links has when each is kept once. So if there
/// are more, their links mostly fill the list, and it is known that there are too many.
const ENDS_LIMIT: usize = 2 * LINK_LIMIT;

fn note_interface(interface: u32, found: &mut IndexSet<u32>) -> Result<(), Memory>
    ensures stays { OnOk result ((i : ℕ) → Among i found.old.keys → Among i found.new.keys) }
    ensures has { OnOk result (Among interface found.new.keys) }
{
    found.insert(interface)?;
    Ok(())
}

/// The provided interfaces of pairs.
fn firsts_of(alloc: Global, pairs: &[(u32, u32)]) -> Result<IndexSet<u32>, Memory>
    ensures { IfOk result (λ found. (k : ℕ × ℕ) → Among k pairs.now → Among k.0 found.keys) }
{
    let mut found = IndexSet::new(alloc);
    for pair in pairs {
        note_interface(pair.0, &mut found)?;
    }
    Ok(found)
}

/// The required interfaces of pairs.
fn seconds_of(alloc: Global, pairs: &[(u32, u32)]) -> Result<IndexSet<u32>, Memory>
    ensures { IfOk result (λ found. (k : ℕ × ℕ) → Among k pairs.now → Among k.1 found.keys) }
{
    let mut found = IndexSet::new(alloc);
    for pair in pairs {
        note_interface(pair.1, &mut found)?;
    }
    Ok(found)
}

/// The ends below a gate whose interfaces are provided ones of pairs, after a search that is cut short past a limit.
fn firsts_below(
    alloc: Global,
    tree: &Tree,
    gate: Gate,
    pairs: &[(u32, u32)],
    limit: usize,
) -> Result<Found, Memory>
    requires is_tree { IsTree tree.now }
    requires shallow { IsShallow gate }
    ensures found { IfOk result (AreFirsts tree.now.d.now gate pairs.now) }
    ensures cut { IfOk result (λ found. IsCutBelow limit found.is_cut) }
{
    let wish = Wish {
        wanted: Wanted::Only(firsts_of(alloc, pairs)?),
        limit,
    };
    let below = ends_at(alloc, tree, gate, &wish);
    drop(wish);
    let found = below?;
    Ok(found)
}

/// The ends below a gate whose interfaces are required ones of pairs, after a search that is cut short past a limit.
fn seconds_below(
    alloc: Global,
    tree: &Tree,
    gate: Gate,
    pairs: &[(u32, u32)],
    limit: usize,
) -> Result<Found, Memory>
    requires is_tree { IsTree tree.now }
    requires shallow { IsShallow gate }
    ensures found { IfOk result (AreSeconds tree.now.d.now gate pairs.now) }
    ensures cut { IfOk result (λ found. IsCutBelow limit found.is_cut) }
{
    let wish = Wish {
        wanted: Wanted::Only(seconds_of(alloc, pairs)?),
        limit,
    };
    let below = ends_at(alloc, tree, gate, &wish);
    drop(wish);
    let found = below?;
    Ok(found)
}

/// Adds the links of the ports that were found below two gates. The answer is whether there are more links now than the limit
/// on them; none if a search was cut short, and that is not known yet.
fn cross_found(
    alloc: Global,
    d: &Description,
    provided: Gate,
    required: Gate,
    pairs: &[(u32, u32)],
    first: &Found,
    second: &Found,
    matched: &mut Matched,
    links: &mut Links,
) -> Result<Option<bool>, Memory>
    requires first { AreFirsts d.now provided pairs.now first.now }
    requires second { AreSeconds d.now required pairs.now second.now }
    requires matched { IsAdding d.now matched.old links.old.list.items }
    requires pairs { HasPairs d.now (gate_ends d.now provided) (gate_ends d.now required) pairs.now }
    ensures matched { OnOk result (IsAdding d.now matched.new links.new.list.items) }
    ensures grown { IfOk result (λ answer. IfSome answer (Grown (IsCrossLink d.now (gate_ends d.now provided) (gate_ends d.now required)) links.old.list.items links.new.list.items)) }
    ensures part { IfOk result (λ answer. IfNone answer (IsPart (IsCrossLink d.now (gate_ends d.now provided) (gate_ends d.now required)) links.old.list.items links.new.list.items)) }
    ensures cut { IfOk result (λ answer. IfNone answer ((first.now.is_cut ≡ true) ⊎ (second.now.is_cut ≡ true))) }
{
    let is_full = cross(
        alloc,
        d,
        first.ends.as_slice(),
        second.ends.as_slice(),
        pairs,
        matched,
        links,
    )?;
    if is_full {
        return Ok(Some(true));
    }
    if first.is_cut {
        return Ok(None);
    }
    if second.is_cut {
        return Ok(None);
    }
    Ok(Some(false))
}

/// Adds the links of the ports below two gates, given which pairs of their interfaces share an item, after searches that
/// are cut short past a limit. The answer is whether there are more links now than the limit on them; none if that is not
/// known yet, which never is with the limit `usize::MAX`.
fn add_within(
    alloc: Global,
    tree: &Tree,
    provided: Gate,
    required: Gate,
    pairs: &[(u32, u32)],
    limit: usize,
    matched: &mut Matched,
    links: &mut Links,
) -> Result<Option<bool>, Memory>
    requires is_tree { IsTree tree.now }
    requires provided { IsShallow provided }
    requires required { IsShallow required }
    requires matched { IsAdding tree.now.d.now matched.old links.old.list.items }
    requires pairs { HasPairs tree.now.d.now (gate_ends tree.now.d.now provided) (gate_ends tree.now.d.now required) pairs.now }
    ensures matched { OnOk result (IsAdding tree.now.d.now matched.new links.new.list.items) }
    ensures grown { IfOk result (λ answer. IfSome answer (Grown (IsCrossLink tree.now.d.now (gate_ends tree.now.d.now provided) (gate_ends tree.now.d.now required)) links.old.list.items links.new.list.items)) }
    ensures part { IfOk result (λ answer. IfNone answer (IsPart (IsCrossLink tree.now.d.now (gate_ends tree.now.d.now provided) (gate_ends tree.now.d.now required)) links.old.list.items links.new.list.items)) }
    ensures cut { IfOk result (λ answer. IfNone answer (limit < 18446744073709551615)) }
{
    let first = firsts_below(alloc, tree, provided, pairs, limit)?;
    let second = seconds_below(alloc, tree, required, pairs, limit)?;
    let crossed = cross_found(
        alloc, tree.d, provided, required, pairs, &first, &second, matched, links,
    );
    drop(second);
    drop(first);
    let answer = crossed?;
    Ok(answer)
}

/// Adds the links of the ports below two gates, given which pairs of their interfaces share an item, however many ports
/// there are.
fn add_whole(
    alloc: Global,
    tree: &Tree,
    provided: Gate,
    required: Gate,
    pairs: &[(u32, u32)],
    matched: &mut Matched,
    links: &mut Links,
) -> Result<bool, Memory>
    requires is_tree { IsTree tree.now }
    requires provided { IsShallow provided }
    requires required { IsShallow required }
    requires matched { IsAdding tree.now.d.now matched.old links.old.list.items }
    requires pairs { HasPairs tree.now.d.now (gate_ends tree.now.d.now provided) (gate_ends tree.now.d.now required) pairs.now }
    ensures matched { OnOk result (IsAdding tree.now.d.now matched.new links.new.list.items) }
    ensures grown { IfOk result (λ is_full. Grown (IsCrossLink tree.now.d.now (gate_ends tree.now.d.now provided) (gate_ends tree.now.d.now required)) links.old.list.items links.new.list.items is_full) }
{
    match add_within(
        alloc,
        tree,
        provided,
        required,
        pairs,
        usize::MAX,
        matched,
        links,
    )? {
        Some(is_full) => Ok(is_full),
        None => unreachable!(),
    }
}

/// Adds the links of the ports below two gates, given which pairs of their interfaces share an item, if not all ports
/// are at hand. More of those that share one than a list of links has mostly show that there are too many links.
fn add_rest(
    alloc: Global,
    tree: &Tree,
    provided: Gate,
    required: Gate,
    pairs: &[(u32, u32)],
    matched: &mut Matched,
    links: &mut Links,
) -> Result<bool, Memory>
    requires is_tree { IsTree tree.now }
    requires provided { IsShallow provided }
    requires required { IsShallow required }
    requires matched { IsAdding tree.now.d.now matched.old links.old.list.items }
    requires pairs { HasPairs tree.now.d.now (gate_ends tree.now.d.now provided) (gate_ends tree.now.d.now required) pairs.now }
    ensures matched { OnOk result (IsAdding tree.now.d.now matched.new links.new.list.items) }
    ensures grown { IfOk result (λ is_full. Grown (IsCrossLink tree.now.d.now (gate_ends tree.now.d.now provided) (gate_ends tree.now.d.now required)) links.old.list.items links.new.list.items is_full) }
{
    let near = add_within(
        alloc, tree, provided, required, pairs, ENDS_LIMIT, matched, links,
    )?;
    match near {
        Some(is_full) => Ok(is_full),
        None => {
            let is_full = add_whole(alloc, tree, provided, required, pairs, matched, links)?;
            Ok(is_full)
        }
    }
}

/// Adds the links of two sides of which not all ports are at hand. Those at hand are joined first: if there are more of them, there are mostly
/// too many links.
fn add_cut(
    alloc: Global,
    tree: &Tree,
    provided: Gate,
    required: Gate,
    first: &Side,
    second: &Side,
    pairs: &[(u32, u32)],
    matched: &mut Matched,
    links: &mut Links,
) -> Result<bool, Memory>
    requires is_tree { IsTree tree.now }
    requires provided { IsShallow provided }
    requires required { IsShallow required }
    requires first { IsSide tree.now.d.now provided first.now }
    requires second { IsSide tree.now.d.now required second.now }
    requires matched { IsAdding tree.now.d.now matched.old links.old.list.items }
    requires pairs { HasPairs tree.now.d.now (gate_ends tree.now.d.now provided) (gate_ends tree.now.d.now required) pairs.now }
    ensures matched { OnOk result (IsAdding tree.now.d.now matched.new links.new.list.items) }
    ensures grown { IfOk result (λ is_full. Grown (IsCrossLink tree.now.d.now (gate_ends tree.now.d.now provided) (gate_ends tree.now.d.now required)) links.old.list.items links.new.list.items is_full) }
{
    if add_grouped(
        alloc,
        tree.d,
        pairs,
        &first.groups,
        &second.groups,
        matched,
        links,
    )? {
        return Ok(true);
    }
    let is_full = add_rest(alloc, tree, provided, required, pairs, matched, links)?;
    Ok(is_full)
}

/// Finds all ends below the gate of a side whose interfaces are provided ones of pairs. The answer is whether they are at
/// hand now.
fn complete_firsts(
    alloc: Global,
    tree: &Tree,
    gate: Gate,
    pairs: &[(u32, u32)],
    side: &mut Side,
) -> Result<bool, Memory>
    requires is_tree { IsTree tree.now }
    requires shallow { IsShallow gate }
    requires side { IsSide tree.now.d.now gate side.old }
    ensures side { OnOk result (IsSide tree.now.d.now gate side.new) }
    ensures has { IfOk result (λ answer. answer ≡ true → (k : ℕ × ℕ) → Among k pairs.now → HasInterface side.new k.0) }
{
    let firsts = firsts_of(alloc, pairs)?;
    let completed = complete_all(alloc, tree, gate, firsts.as_slice(), side);
    drop(firsts);
    let has_firsts = completed?;
    Ok(has_firsts)
}

/// Finds all ends below the gate of a side whose interfaces are required ones of pairs. The answer is whether they are at
/// hand now.
fn complete_seconds(
    alloc: Global,
    tree: &Tree,
    gate: Gate,
    pairs: &[(u32, u32)],
    side: &mut Side,
) -> Result<bool, Memory>
    requires is_tree { IsTree tree.now }
    requires shallow { IsShallow gate }
    requires side { IsSide tree.now.d.now gate side.old }
    ensures side { OnOk result (IsSide tree.now.d.now gate side.new) }
    ensures has { IfOk result (λ answer. answer ≡ true → (k : ℕ × ℕ) → Among k pairs.now → HasInterface side.new k.1) }
{
    let seconds = seconds_of(alloc, pairs)?;
    let completed = complete_all(alloc, tree, gate, seconds.as_slice(), side);
    drop(seconds);
    let has_seconds = completed?;
    Ok(has_seconds)
}

/// Adds the links of the ports below two gates, given which pairs of their interfaces share an item.
fn add_shared(
    alloc: Global,
    tree: &Tree,
    provided: Gate,
    required: Gate,
    first: &mut Side,
    second: &mut Side,
    pairs: &[(u32, u32)],
    matched: &mut Matched,
    links: &mut Links,
) -> Result<bool, Memory>
    requires is_tree { IsTree tree.now }
    requires provided { IsShallow provided }
    requires required { IsShallow required }
    requires first { IsSide tree.now.d.now provided first.old }
    requires second { IsSide tree.now.d.now required second.old }
    requires matched { IsAdding tree.now.d.now matched.old links.old.list.items }
    requires pairs { HasPairs tree.now.d.now (gate_ends tree.now.d.now provided) (gate_ends tree.now.d.now required) pairs.now }
    ensures first { OnOk result (IsSide tree.now.d.now provided first.new) }
    ensures second { OnOk result (IsSide tree.now.d.now required second.new) }
    ensures matched { OnOk result (IsAdding tree.now.d.now matched.new links.new.list.items) }
    ensures grown { IfOk result (λ is_full. Grown (IsCrossLink tree.now.d.now (gate_ends tree.now.d.now provided) (gate_ends tree.now.d.now required)) links.old.list.items links.new.list.items is_full) }
{
    let has_firsts = complete_firsts(alloc, tree, provided, pairs, first)?;
    let has_seconds = complete_seconds(alloc, tree, required, pairs, second)?;
    if has_firsts && has_seconds {
        let is_full = add_known(
            alloc,
            tree.d,
            provided,
            required,
            pairs,
            &first.groups,
            &second.groups,
            matched,
            links,
        )?;
        return Ok(is_full);
    }
    let is_full = add_cut(
        alloc, tree, provided, required, first, second, pairs, matched, links,
    )?;
    Ok(is_full)
}

/// Adds the links of the ports below two gates, given what is below each.
fn add_both(
    alloc: Global,
    tree: &Tree,
    provided: Gate,
    required: Gate,
    first: &mut Side,
    second: &mut Side,
    matched: &mut Matched,
    links: &mut Links,
) -> Result<bool, Memory>
    requires is_tree { IsTree tree.now }
    requires provided { IsShallow provided }
    requires required { IsShallow required }
    requires first { IsSide tree.now.d.now provided first.old }
    requires second { IsSide tree.now.d.now required second.old }
    requires matched { IsAdding tree.now.d.now matched.old links.old.list.items }
    ensures first { OnOk result (IsSide tree.now.d.now provided first.new) }
    ensures second { OnOk result (IsSide tree.now.d.now required second.new) }
    ensures matched { OnOk result (IsAdding tree.now.d.now matched.new links.new.list.items) }
    ensures grown { IfOk result (λ is_full. Grown (IsCrossLink tree.now.d.now (gate_ends tree.now.d.now provided) (gate_ends tree.now.d.now required)) links.old.list.items links.new.list.items is_full) }
{
    let pairs = matched.pairs(alloc, tree.d, first, second)?;
    let added = add_shared(
        alloc,
        tree,
        provided,
        required,
        first,
        second,
        pairs.as_slice(),
        matched,
        links,
    );
    drop(pairs);
    let is_full = added?;
    Ok(is_full)
}

/// Adds the links of the ports below two gates, given what is below the first.
fn add_first(
    alloc: Global,
    tree: &Tree,
    provided: Gate,
    required: Gate,
    first: &mut Side,
    matched: &mut Matched,
    links: &mut Links,
) -> Result<bool, Memory>
    requires is_tree { IsTree tree.now }
    requires provided { IsShallow provided }
    requires required { IsShallow required }
    requires first { IsSide tree.now.d.now provided first.old }
    requires matched { IsAdding tree.now.d.now matched.old links.old.list.items }
    ensures first { OnOk result (IsSide tree.now.d.now provided first.new) }
    ensures matched { OnOk result (IsAdding tree.now.d.now matched.new links.new.list.items) }
    ensures grown { IfOk result (λ is_full. Grown (IsCrossLink tree.now.d.now (gate_ends tree.now.d.now provided) (gate_ends tree.now.d.now required)) links.old.list.items links.new.list.items is_full) }
{
    let mut second = matched.take_side(alloc, tree, required)?;
    let added = add_both(
        alloc,
        tree,
        provided,
        required,
        first,
        &mut second,
        matched,
        links,
    );
    match added {
        Ok(is_full) => {
            matched.keep_side(tree.d, required, second)?;
            Ok(is_full)
        }
        Err(memory) => {
            drop(second);
            Err(memory)
        }
    }
}

/// Adds the links of the ports below two gates, by what is below each.
pub fn add_sides(
    alloc: Global,
    tree: &Tree,
    provided: Gate,
    required: Gate,
    matched: &mut Matched,
    links: &mut Links,
) -> Result<bool, Memory>
    requires is_tree { IsTree tree.now }
    requires provided { IsShallow provided }
    requires required { IsShallow required }
    requires matched { IsAdding tree.now.d.now matched.old links.old.list.items }
    ensures matched { OnOk result (IsAdding tree.now.d.now matched.new links.new.list.items) }
    ensures grown { IfOk result (λ is_full. Grown (IsCrossLink tree.now.d.now (gate_ends tree.now.d.now provided) (gate_ends tree.now.d.now required)) links.old.list.items links.new.list.items is_full) }
{
    let mut first = matched.take_side(alloc, tree, provided)?;
    match add_first(alloc, tree, provided, required, &mut first, matched, links) {
        Ok(is_full) => {
            matched.keep_side(tree.d, provided, first)?;
            Ok(is_full)
        }
        Err(memory) => {
            drop(first);
            Err(memory)
        }
    }
}
