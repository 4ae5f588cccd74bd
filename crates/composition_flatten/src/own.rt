//! The links that the assemblies of a composition make.

ghost use Rattle.std.specs.Prelude.{◌≡◌, ◌≤◌, IfOk, OnOk};
ghost use Rattle.composition_tables.specs.Ends.{ends, inner_ends};
ghost use Rattle.description_types.specs.Growing.{Grown};
ghost use Rattle.composition_flatten.specs.Links.{IsAssemblyLink, IsOwnLink};
ghost use Rattle.end_crossing.specs.PortLinks.{IsCrossLink};
ghost use Rattle.end_crossing.specs.Crossings.{IsAdding};
ghost use Rattle.composition_tables.specs.Trees.{IsTree};

use composition_tables::connectors::{connectors_of, lets_join};
use composition_tables::gathering::Links;
use composition_tables::tree::Tree;
use description_types::{Connector, InnerPort};
use end_crossing::matched::Matched;
use end_crossing::splitting::cross_gates;
use end_search::gates::{inner_gate, narrowed};
use rte_text::Memory;
use std::alloc::Global;

fn add_crossing(
    alloc: Global,
    tree: &Tree,
    depth: usize,
    composition: u32,
    provider: InnerPort,
    requester: InnerPort,
    matched: &mut Matched,
    links: &mut Links,
) -> Result<bool, Memory>
    requires is_tree { IsTree tree.now }
    requires within { depth ≤ 8 }
    requires matched { IsAdding tree.now.d.now matched.old links.old.list.items }
    ensures matched { OnOk result (IsAdding tree.now.d.now matched.new links.new.list.items) }
    ensures grown { IfOk result (λ is_full. Grown (IsCrossLink tree.now.d.now
        (inner_ends tree.now.d.now depth (ends tree.now.d.now depth) composition 0 provider)
        (inner_ends tree.now.d.now depth (ends tree.now.d.now depth) composition 0 requester)) links.old.list.items links.new.list.items is_full) }
{
    match inner_gate(tree, depth, composition, 0, provider) {
        Some(provided) => match inner_gate(tree, depth, composition, 0, requester) {
            Some(required) => {
                let first = narrowed(tree, provided);
                let second = narrowed(tree, required);
                let is_full = cross_gates(alloc, tree, first, second, matched, links)?;
                Ok(is_full)
            }
            None => Ok(false),
        },
        None => Ok(false),
    }
}

fn add_assembly(
    alloc: Global,
    tree: &Tree,
    depth: usize,
    composition: u32,
    connector: Connector,
    matched: &mut Matched,
    links: &mut Links,
) -> Result<bool, Memory>
    requires is_tree { IsTree tree.now }
    requires within { depth ≤ 8 }
    requires matched { IsAdding tree.now.d.now matched.old links.old.list.items }
    ensures matched { OnOk result (IsAdding tree.now.d.now matched.new links.new.list.items) }
    ensures grown { IfOk result (λ is_full. Grown (IsAssemblyLink tree.now.d.now depth composition connector) links.old.list.items links.new.list.items is_full) }
{
    match connector {
        Connector::Assembly {
            provider,
            requester,
        } => {
            if !lets_join(tree.d, composition as usize, connector) {
                return Ok(false);
            }
            let is_full = add_crossing(
                alloc,
                tree,
                depth,
                composition,
                provider,
                requester,
                matched,
                links,
            )?;
            Ok(is_full)
        }
        Connector::Delegation { .. } => Ok(false),
    }
}

/// Adds the links that the assemblies of a composition make. The answer is whether there are more links now than the limit.
pub fn add_own(
    alloc: Global,
    tree: &Tree,
    depth: usize,
    composition: u32,
    matched: &mut Matched,
    links: &mut Links,
) -> Result<bool, Memory>
    requires is_tree { IsTree tree.now }
    requires within { depth ≤ 8 }
    requires matched { IsAdding tree.now.d.now matched.old links.old.list.items }
    ensures matched { OnOk result (IsAdding tree.now.d.now matched.new links.new.list.items) }
    ensures grown { IfOk result (λ is_full. Grown (IsOwnLink tree.now.d.now depth composition) links.old.list.items links.new.list.items is_full) }
{
    for connector in connectors_of(tree.d, composition as usize) {
        if add_assembly(alloc, tree, depth, composition, *connector, matched, links)? {
            return Ok(true);
        }
    }
    Ok(false)
}
