//! Links of the ports below two gates, part by part.

ghost use Rattle.std.specs.Prelude.{◌≡◌, ◌≤◌, [], ◌∷◌, IfOk, IfSome, OnOk};
ghost use Rattle.composition_tables.specs.Ends.{ends, inner_ends};
ghost use Rattle.end_search.specs.Gates.{gate_ends, IsShallow};
ghost use Rattle.description_types.specs.Growing.{Grown};
ghost use Rattle.end_crossing.specs.PortLinks.{IsCrossLink};
ghost use Rattle.end_crossing.specs.Crossings.{IsAdding};
ghost use Rattle.end_crossing.specs.Parts.{part_ends};
ghost use Rattle.composition_tables.specs.Trees.{IsTree};

use crate::cross::add_pair;
use crate::crossing::add_sides;
use crate::crossings::Crossing;
use crate::matched::Matched;
use crate::parts::{Parts, parts_of};
use composition_tables::connectors::interface_of;
use composition_tables::counts::DEPTH_LIMIT;
use composition_tables::gathering::Links;
use composition_tables::tree::{Owner, PortEnd, Tree};
use description_types::{Description, InnerPort, PrototypeType};
use end_search::gates::{Gate, inner_gate, narrowed};
use rte_text::Memory;
use std::alloc::Global;

/// How often two gates are split at most, one after the other.
const SPLITS: usize = 2 * DEPTH_LIMIT;

/// Adds the links of the ports below an inner port of a provided gate.
#[cycle(splitting)]
fn cross_provided_part(
    alloc: Global,
    tree: &Tree,
    splits: usize,
    parts: &Parts,
    inner: InnerPort,
    required: Gate,
    matched: &mut Matched,
    links: &mut Links,
) -> Result<bool, Memory>
    requires is_tree { IsTree tree.now }
    requires within { parts.now.depth ≤ 8 }
    requires required { IsShallow required }
    requires matched { IsAdding tree.now.d.now matched.old links.old.list.items }
    ensures matched { OnOk result (IsAdding tree.now.d.now matched.new links.new.list.items) }
    ensures grown { IfOk result (λ is_full. Grown (IsCrossLink tree.now.d.now (inner_ends tree.now.d.now parts.now.depth (ends tree.now.d.now parts.now.depth) parts.now.composition parts.now.first inner) (gate_ends tree.now.d.now required)) links.old.list.items links.new.list.items is_full) }
{
    match inner_gate(tree, parts.depth, parts.composition, parts.first, inner) {
        Some(gate) => {
            let part = narrowed(tree, gate);
            let is_full = cross_once(alloc, tree, splits, part, required, matched, links)?;
            Ok(is_full)
        }
        None => Ok(false),
    }
}

#[cycle(splitting)]
fn cross_provided_parts(
    alloc: Global,
    tree: &Tree,
    splits: usize,
    parts: &Parts,
    required: Gate,
    matched: &mut Matched,
    links: &mut Links,
) -> Result<bool, Memory>
    requires is_tree { IsTree tree.now }
    requires within { parts.now.depth ≤ 8 }
    requires required { IsShallow required }
    requires matched { IsAdding tree.now.d.now matched.old links.old.list.items }
    ensures matched { OnOk result (IsAdding tree.now.d.now matched.new links.new.list.items) }
    ensures grown { IfOk result (λ is_full. Grown (IsCrossLink tree.now.d.now (part_ends tree.now.d.now parts.now) (gate_ends tree.now.d.now required)) links.old.list.items links.new.list.items is_full) }
{
    for inner in parts.ports {
        if cross_provided_part(alloc, tree, splits, parts, *inner, required, matched, links)? {
            return Ok(true);
        }
    }
    Ok(false)
}

/// Adds the links of the ports below an inner port of a required gate.
#[cycle(splitting)]
fn cross_required_part(
    alloc: Global,
    tree: &Tree,
    splits: usize,
    provided: Gate,
    parts: &Parts,
    inner: InnerPort,
    matched: &mut Matched,
    links: &mut Links,
) -> Result<bool, Memory>
    requires is_tree { IsTree tree.now }
    requires within { parts.now.depth ≤ 8 }
    requires provided { IsShallow provided }
    requires matched { IsAdding tree.now.d.now matched.old links.old.list.items }
    ensures matched { OnOk result (IsAdding tree.now.d.now matched.new links.new.list.items) }
    ensures grown { IfOk result (λ is_full. Grown (IsCrossLink tree.now.d.now (gate_ends tree.now.d.now provided) (inner_ends tree.now.d.now parts.now.depth (ends tree.now.d.now parts.now.depth) parts.now.composition parts.now.first inner)) links.old.list.items links.new.list.items is_full) }
{
    match inner_gate(tree, parts.depth, parts.composition, parts.first, inner) {
        Some(gate) => {
            let part = narrowed(tree, gate);
            let is_full = cross_once(alloc, tree, splits, provided, part, matched, links)?;
            Ok(is_full)
        }
        None => Ok(false),
    }
}

#[cycle(splitting)]
fn cross_required_parts(
    alloc: Global,
    tree: &Tree,
    splits: usize,
    provided: Gate,
    parts: &Parts,
    matched: &mut Matched,
    links: &mut Links,
) -> Result<bool, Memory>
    requires is_tree { IsTree tree.now }
    requires within { parts.now.depth ≤ 8 }
    requires provided { IsShallow provided }
    requires matched { IsAdding tree.now.d.now matched.old links.old.list.items }
    ensures matched { OnOk result (IsAdding tree.now.d.now matched.new links.new.list.items) }
    ensures grown { IfOk result (λ is_full. Grown (IsCrossLink tree.now.d.now (gate_ends tree.now.d.now provided) (part_ends tree.now.d.now parts.now)) links.old.list.items links.new.list.items is_full) }
{
    for inner in parts.ports {
        if cross_required_part(alloc, tree, splits, provided, parts, *inner, matched, links)? {
            return Ok(true);
        }
    }
    Ok(false)
}

/// Adds the links of the ports below two gates. The one of less parts is split, if one is split at all.
#[cycle(splitting)]
fn cross_split(
    alloc: Global,
    tree: &Tree,
    splits: usize,
    provided: Gate,
    required: Gate,
    matched: &mut Matched,
    links: &mut Links,
) -> Result<bool, Memory>
    requires is_tree { IsTree tree.now }
    requires provided { IsShallow provided }
    requires required { IsShallow required }
    requires matched { IsAdding tree.now.d.now matched.old links.old.list.items }
    ensures matched { OnOk result (IsAdding tree.now.d.now matched.new links.new.list.items) }
    ensures grown { IfOk result (λ is_full. Grown (IsCrossLink tree.now.d.now (gate_ends tree.now.d.now provided) (gate_ends tree.now.d.now required)) links.old.list.items links.new.list.items is_full) }
{
    if splits == 0 || matched.has_crossed_much() {
        return add_sides(alloc, tree, provided, required, matched, links);
    }
    let splits = splits - 1;
    match parts_of(tree, provided) {
        Some(first) => match parts_of(tree, required) {
            Some(second) => {
                if second.ports.len() < first.ports.len() {
                    let is_full = cross_required_parts(
                        alloc, tree, splits, provided, &second, matched, links,
                    )?;
                    return Ok(is_full);
                }
                let is_full = cross_provided_parts(
                    alloc, tree, splits, &first, required, matched, links,
                )?;
                Ok(is_full)
            }
            None => {
                let is_full = cross_provided_parts(
                    alloc, tree, splits, &first, required, matched, links,
                )?;
                Ok(is_full)
            }
        },
        None => match parts_of(tree, required) {
            Some(second) => {
                let is_full = cross_required_parts(
                    alloc, tree, splits, provided, &second, matched, links,
                )?;
                Ok(is_full)
            }
            None => add_sides(alloc, tree, provided, required, matched, links),
        },
    }
}

/// Adds the links of the ports below two gates, unless they were added before.
#[cycle(splitting)]
fn cross_once(
    alloc: Global,
    tree: &Tree,
    splits: usize,
    provided: Gate,
    required: Gate,
    matched: &mut Matched,
    links: &mut Links,
) -> Result<bool, Memory>
    requires is_tree { IsTree tree.now }
    requires provided { IsShallow provided }
    requires required { IsShallow required }
    requires matched { IsAdding tree.now.d.now matched.old links.old.list.items }
    ensures matched { OnOk result (IsAdding tree.now.d.now matched.new links.new.list.items) }
    ensures grown { IfOk result (λ is_full. Grown (IsCrossLink tree.now.d.now (gate_ends tree.now.d.now provided) (gate_ends tree.now.d.now required)) links.old.list.items links.new.list.items is_full) }
{
    let crossing = Crossing::Gates(provided, required);
    if matched.is_crossed(crossing) {
        return Ok(false);
    }
    if cross_split(alloc, tree, splits, provided, required, matched, links)? {
        return Ok(true);
    }
    matched.note_crossed(crossing)?;
    Ok(false)
}

/// The port at a gate that is a port of an instance or of the root.
fn lone_end(d: &Description, gate: Gate) -> Option<PortEnd>
    ensures { IfSome result (λ end. gate_ends d.now gate ≡ end ∷ []) }
{
    match gate {
        Gate::Outer(port, interface) => Some(PortEnd {
            owner: Owner::Environment,
            port,
            interface,
        }),
        Gate::Component(component, first, port) => {
            let interface = interface_of(d, PrototypeType::Component(component), port)?;
            Some(PortEnd {
                owner: Owner::Instance(first),
                port,
                interface,
            })
        }
        Gate::Composition(_, _, _, _) => None,
    }
}

/// The ports at two gates, if each is a port of an instance or of the root.
fn lone_ends(d: &Description, provided: Gate, required: Gate) -> Option<(PortEnd, PortEnd)>
    ensures { IfSome result (λ ends. (gate_ends d.now provided ≡ ends.0 ∷ []) × (gate_ends d.now required ≡ ends.1 ∷ [])) }
{
    let first = lone_end(d, provided)?;
    let second = lone_end(d, required)?;
    Some((first, second))
}

/// Adds the links of the ports below two gates, unless they were added before. The answer is whether there are more links
/// now than the limit; then the rest may be missing.
#[tactic(auto, using(crate::proofs::SamePorts::lone_cross))]
pub fn cross_gates(
    alloc: Global,
    tree: &Tree,
    provided: Gate,
    required: Gate,
    matched: &mut Matched,
    links: &mut Links,
) -> Result<bool, Memory>
    requires is_tree { IsTree tree.now }
    requires provided { IsShallow provided }
    requires required { IsShallow required }
    requires matched { IsAdding tree.now.d.now matched.old links.old.list.items }
    ensures matched { OnOk result (IsAdding tree.now.d.now matched.new links.new.list.items) }
    ensures grown { IfOk result (λ is_full. Grown (IsCrossLink tree.now.d.now (gate_ends tree.now.d.now provided) (gate_ends tree.now.d.now required)) links.old.list.items links.new.list.items is_full) }
{
    match lone_ends(tree.d, provided, required) {
        Some((first, second)) => add_pair(alloc, tree.d, first, second, matched, links),
        None => cross_once(alloc, tree, SPLITS, provided, required, matched, links),
    }
}
