//! All links of a description.

ghost use Rattle.std.specs.Prelude.{◌≡◌, ◌≤◌, ◌^◌, [], ℕ, IfOk, OnOk, Some, nat_eq};
ghost use Rattle.std.specs.List.{flat_map};
ghost use Rattle.indexmap.specs.IndexSet.{insert_all};
ghost use Rattle.composition_tables.specs.declared.links.Link.{Link};
ghost use Rattle.composition_tables.specs.declared.nodes.Node.{Node};
ghost use Rattle.composition_tables.specs.Ends.{ends};
ghost use Rattle.end_search.specs.Gates.{gate_ends, IsShallow};
ghost use Rattle.end_search.specs.Matching.{HasFewItems};
ghost use Rattle.description_types.specs.Members.{Among};
ghost use Rattle.description_types.specs.Growing.{AnyOf, Grown};
ghost use Rattle.composition_flatten.specs.Links.{IsOwn, IsNodeLink, IsInnerLink, IsOuterLink, IsLink, link_from, item_from, outer_link};
ghost use Rattle.composition_flatten.specs.Outers.{outers_of};
ghost use Rattle.end_crossing.specs.Crossings.{IsAdding, IsMatched};
ghost use Rattle.composition_tables.specs.Trees.{IsTree};

use crate::own::add_own;
use composition_tables::connectors::{connectors_of, interface_of, kind_of};
use composition_tables::counts::DEPTH_LIMIT;
use composition_tables::gathering::{Links, add_link, no_links, put_in_order};
use composition_tables::links::{Item, Link, owner_from};
use composition_tables::nodes::{Node, nodes_of};
use composition_tables::tree::Tree;
use description_types::{Connector, PortKind, PrototypeType};
use end_crossing::matched::Matched;
use end_crossing::splitting::cross_gates;
use end_search::gates::{Gate, narrowed};
use indexmap::IndexSet;
use rte_text::Memory;
use std::alloc::Global;

/// A number that no composition has: the links of none are taken first.
const NO_COMPOSITION: u32 = u32::MAX;

/// The links that a composition's assemblies make, with instances numbered from its first one on. If there are more
/// than the limit, some may be missing.
#[derive(Drop)]
pub struct Own {
    pub depth: usize,
    pub composition: u32,
    pub links: Vec<Link>,
    pub is_full: bool,
}

fn item_from(first: u32, item: Item) -> Item
    ensures { result ≡ item_from first item }
{
    Item {
        owner: owner_from(first, item.owner),
        port: item.port,
        element: item.element,
    }
}

fn link_from(first: u32, link: Link) -> Link
    ensures { result ≡ link_from first link }
{
    Link {
        provided: item_from(first, link.provided),
        required: item_from(first, link.required),
    }
}

fn add_one_from(first: u32, link: Link, links: &mut Links) -> Result<bool, Memory>
    ensures { IfOk result (λ is_full. Grown (λ x. x ≡ link_from first link) links.old.list.items links.new.list.items is_full) }
{
    let is_full = add_link(links, link_from(first, link))?;
    Ok(is_full)
}

fn add_from(first: u32, own: &[Link], links: &mut Links) -> Result<bool, Memory>
    ensures { IfOk result (λ is_full. Grown (AnyOf (λ (y : Link) x. x ≡ link_from first y) own.now) links.old.list.items links.new.list.items is_full) }
{
    for link in own {
        if add_one_from(first, *link, links)? {
            return Ok(true);
        }
    }
    Ok(false)
}

fn own_of(
    alloc: Global,
    tree: &Tree,
    depth: usize,
    composition: u32,
    matched: &mut Matched,
) -> Result<Own, Memory>
    requires is_tree { IsTree tree.now }
    requires within { depth ≤ 8 }
    requires matched { IsMatched tree.now.d.now matched.old }
    ensures matched { OnOk result (IsMatched tree.now.d.now matched.new) }
    ensures depth { IfOk result (λ own. own.depth ≡ depth) }
    ensures composition { IfOk result (λ own. own.composition ≡ composition) }
    ensures own { IfOk result (λ own. IsOwn tree.now.d.now own) }
{
    let mut found = no_links(alloc);
    matched.begin(alloc, tree.d);
    let is_full = add_own(alloc, tree, depth, composition, matched, &mut found)?;
    put_in_order(&mut found)?;
    Ok(Own {
        depth,
        composition,
        links: found.list,
        is_full,
    })
}

/// Takes the links of a composition, if they are not the last that were taken.
fn take_own(
    alloc: Global,
    tree: &Tree,
    node: Node,
    own: &mut Own,
    matched: &mut Matched,
) -> Result<(), Memory>
    requires is_tree { IsTree tree.now }
    requires within { node.depth ≤ 8 }
    requires own { IsOwn tree.now.d.now own.old }
    requires matched { IsMatched tree.now.d.now matched.old }
    ensures matched { OnOk result (IsMatched tree.now.d.now matched.new) }
    ensures depth { OnOk result (own.new.depth ≡ node.depth) }
    ensures composition { OnOk result (own.new.composition ≡ node.composition) }
    ensures own { OnOk result (IsOwn tree.now.d.now own.new) }
{
    if own.depth != node.depth || own.composition != node.composition {
        *own = own_of(alloc, tree, node.depth, node.composition, matched)?;
    }
    Ok(())
}

/// Adds the links that a composition's assemblies make where its first instance is the first of all. They are not listed before,
/// since their instances have these numbers. The answer is whether there are more links than the limit.
#[tactic(auto, using(crate::proofs::Wholes::node_first))]
fn add_as_they_are(
    alloc: Global,
    tree: &Tree,
    node: Node,
    matched: &mut Matched,
    links: &mut Links,
) -> Result<bool, Memory>
    requires is_tree { IsTree tree.now }
    requires depth { node.depth ≤ 8 }
    requires first { node.first ≡ 0 }
    requires matched { IsMatched tree.now.d.now matched.old }
    ensures matched { OnOk result (IsMatched tree.now.d.now matched.new) }
    ensures grown { IfOk result (λ is_full. Grown (IsNodeLink tree.now.d.now node) links.old.list.items links.new.list.items is_full) }
{
    matched.begin(alloc, tree.d);
    let is_full = add_own(alloc, tree, node.depth, node.composition, matched, links)?;
    Ok(is_full)
}

/// Adds the links that a composition's assemblies make where it stands. The answer is whether there are more links than
/// the limit.
fn add_node(
    alloc: Global,
    tree: &Tree,
    node: Node,
    own: &mut Own,
    matched: &mut Matched,
    links: &mut Links,
) -> Result<bool, Memory>
    requires is_tree { IsTree tree.now }
    requires depth { node.depth ≤ 8 }
    requires first { node.first ≤ 2 ^ 31 }
    requires own { IsOwn tree.now.d.now own.old }
    requires matched { IsMatched tree.now.d.now matched.old }
    ensures matched { OnOk result (IsMatched tree.now.d.now matched.new) }
    ensures own { OnOk result (IsOwn tree.now.d.now own.new) }
    ensures grown { IfOk result (λ is_full. Grown (IsNodeLink tree.now.d.now node) links.old.list.items links.new.list.items is_full) }
{
    if node.first == 0 {
        let is_full = add_as_they_are(alloc, tree, node, matched, links)?;
        return Ok(is_full);
    }
    take_own(alloc, tree, node, own, matched)?;
    if own.is_full {
        return Ok(true);
    }
    let is_full = add_from(node.first, own.links.as_slice(), links)?;
    Ok(is_full)
}

/// Adds the links of each of these, if some composition's links were taken last.
fn add_each_node(
    alloc: Global,
    tree: &Tree,
    nodes: &[Node],
    last: Own,
    matched: &mut Matched,
    links: &mut Links,
) -> Result<bool, Memory>
    requires is_tree { IsTree tree.now }
    requires within { (x : Node) → Among x nodes.now → (x.depth ≤ 8) × (x.first ≤ 2 ^ 31) }
    requires own { IsOwn tree.now.d.now last }
    requires matched { IsMatched tree.now.d.now matched.old }
    ensures matched { OnOk result (IsMatched tree.now.d.now matched.new) }
    ensures grown { IfOk result (λ is_full. Grown (AnyOf (IsNodeLink tree.now.d.now) nodes.now) links.old.list.items links.new.list.items is_full) }
{
    let mut own = last;
    for node in nodes {
        if add_node(alloc, tree, *node, &mut own, matched, links)? {
            return Ok(true);
        }
    }
    Ok(false)
}

fn add_nodes(
    alloc: Global,
    tree: &Tree,
    nodes: &[Node],
    matched: &mut Matched,
    links: &mut Links,
) -> Result<bool, Memory>
    requires is_tree { IsTree tree.now }
    requires within { (x : Node) → Among x nodes.now → (x.depth ≤ 8) × (x.first ≤ 2 ^ 31) }
    requires matched { IsMatched tree.now.d.now matched.old }
    ensures matched { OnOk result (IsMatched tree.now.d.now matched.new) }
    ensures grown { IfOk result (λ is_full. Grown (AnyOf (IsNodeLink tree.now.d.now) nodes.now) links.old.list.items links.new.list.items is_full) }
{
    let own = own_of(alloc, tree, 0, NO_COMPOSITION, matched)?;
    let is_full = add_each_node(alloc, tree, nodes, own, matched, links)?;
    Ok(is_full)
}

fn add_by_kind(
    alloc: Global,
    tree: &Tree,
    kind: PortKind,
    own: Gate,
    inner: Gate,
    matched: &mut Matched,
    links: &mut Links,
) -> Result<bool, Memory>
    requires is_tree { IsTree tree.now }
    requires own { IsShallow own }
    requires inner { IsShallow inner }
    requires matched { IsAdding tree.now.d.now matched.old links.old.list.items }
    ensures matched { OnOk result (IsAdding tree.now.d.now matched.new links.new.list.items) }
    ensures grown { IfOk result (λ is_full. Grown (outer_link (Some kind) tree.now.d.now (gate_ends tree.now.d.now own) (gate_ends tree.now.d.now inner)) links.old.list.items links.new.list.items is_full) }
{
    match kind {
        PortKind::Required => {
            let is_full = cross_gates(alloc, tree, own, inner, matched, links)?;
            Ok(is_full)
        }
        PortKind::Provided => {
            let is_full = cross_gates(alloc, tree, inner, own, matched, links)?;
            Ok(is_full)
        }
    }
}

fn add_between(
    alloc: Global,
    tree: &Tree,
    kind: Option<PortKind>,
    own: Gate,
    inner: Gate,
    matched: &mut Matched,
    links: &mut Links,
) -> Result<bool, Memory>
    requires is_tree { IsTree tree.now }
    requires own { IsShallow own }
    requires inner { IsShallow inner }
    requires matched { IsAdding tree.now.d.now matched.old links.old.list.items }
    ensures matched { OnOk result (IsAdding tree.now.d.now matched.new links.new.list.items) }
    ensures grown { IfOk result (λ is_full. Grown (outer_link kind tree.now.d.now (gate_ends tree.now.d.now own) (gate_ends tree.now.d.now inner)) links.old.list.items links.new.list.items is_full) }
{
    match kind {
        Some(kind) => {
            let is_full = add_by_kind(alloc, tree, kind, own, inner, matched, links)?;
            Ok(is_full)
        }
        None => Ok(false),
    }
}

/// The gate that a port of the root is, followed down.
fn root_gate(tree: &Tree, port: u32) -> Gate
    requires { IsTree tree.now }
    ensures shallow { IsShallow result }
    ensures ends { gate_ends tree.now.d.now result ≡ ends tree.now.d.now 8 (PrototypeType.Composition tree.now.d.now.root) 0 port }
{
    narrowed(tree, Gate::Composition(DEPTH_LIMIT, tree.d.root, 0, port))
}

/// Adds the links of a port of the root, the environment's.
fn add_outer(
    alloc: Global,
    tree: &Tree,
    port: u32,
    matched: &mut Matched,
    links: &mut Links,
) -> Result<bool, Memory>
    requires is_tree { IsTree tree.now }
    requires matched { IsMatched tree.now.d.now matched.old }
    ensures matched { OnOk result (IsMatched tree.now.d.now matched.new) }
    ensures grown { IfOk result (λ is_full. Grown (IsOuterLink tree.now.d.now port) links.old.list.items links.new.list.items is_full) }
{
    let root = PrototypeType::Composition(tree.d.root);
    match interface_of(tree.d, root, port) {
        Some(interface) => {
            let inner = root_gate(tree, port);
            let kind = kind_of(tree.d, root, port);
            let own = Gate::Outer(port, interface);
            matched.begin(alloc, tree.d);
            let is_full = add_between(alloc, tree, kind, own, inner, matched, links)?;
            Ok(is_full)
        }
        None => Ok(false),
    }
}

/// Notes the outer port of a delegation.
fn note_outer(connector: Connector, ports: &mut IndexSet<u32>) -> Result<(), Memory>
    ensures { OnOk result (ports.new.keys ≡ insert_all nat_eq ports.old.keys (outers_of connector)) }
{
    match connector {
        Connector::Assembly { .. } => Ok(()),
        Connector::Delegation { outer, .. } => {
            ports.insert(outer)?;
            Ok(())
        }
    }
}

/// The outer ports that connectors delegate, each once.
fn delegated_ports(alloc: Global, connectors: &[Connector]) -> Result<IndexSet<u32>, Memory>
    ensures { IfOk result (λ ports. ports.keys ≡ insert_all nat_eq [] (flat_map outers_of connectors.now)) }
{
    let mut ports = IndexSet::new(alloc);
    for connector in connectors {
        note_outer(*connector, &mut ports)?;
    }
    Ok(ports)
}

/// Adds the links of these ports of the root.
fn add_each_outer(
    alloc: Global,
    tree: &Tree,
    ports: &[u32],
    matched: &mut Matched,
    links: &mut Links,
) -> Result<bool, Memory>
    requires is_tree { IsTree tree.now }
    requires matched { IsMatched tree.now.d.now matched.old }
    ensures { IfOk result (λ is_full. Grown (AnyOf (IsOuterLink tree.now.d.now) ports.now) links.old.list.items links.new.list.items is_full) }
{
    for port in ports {
        if add_outer(alloc, tree, *port, matched, links)? {
            return Ok(true);
        }
    }
    Ok(false)
}

/// Adds the links of all ports of the root. A port has some only if a connector delegates it.
fn add_outers(
    alloc: Global,
    tree: &Tree,
    matched: &mut Matched,
    links: &mut Links,
) -> Result<bool, Memory>
    requires is_tree { IsTree tree.now }
    requires matched { IsMatched tree.now.d.now matched.old }
    ensures { IfOk result (λ is_full. Grown (λ (x : Link). (port : ℕ) × IsOuterLink tree.now.d.now port x) links.old.list.items links.new.list.items is_full) }
{
    let ports = delegated_ports(alloc, connectors_of(tree.d, tree.d.root as usize))?;
    let is_full = add_each_outer(alloc, tree, ports.as_slice(), matched, links)?;
    Ok(is_full)
}

/// Adds the links that the assemblies of compositions make, wherever these stand.
fn add_inner(
    alloc: Global,
    tree: &Tree,
    matched: &mut Matched,
    links: &mut Links,
) -> Result<bool, Memory>
    requires is_tree { IsTree tree.now }
    requires matched { IsMatched tree.now.d.now matched.old }
    ensures matched { OnOk result (IsMatched tree.now.d.now matched.new) }
    ensures grown { IfOk result (λ is_full. Grown (IsInnerLink tree.now.d.now) links.old.list.items links.new.list.items is_full) }
{
    let nodes = nodes_of(alloc, tree)?;
    let is_full = add_nodes(alloc, tree, nodes.as_slice(), matched, links)?;
    Ok(is_full)
}

/// Adds all links of a description, keeping what is found for several of them.
fn add_over(
    alloc: Global,
    tree: &Tree,
    matched: &mut Matched,
    links: &mut Links,
) -> Result<bool, Memory>
    requires is_tree { IsTree tree.now }
    requires matched { IsMatched tree.now.d.now matched.old }
    ensures { IfOk result (λ is_full. Grown (IsLink tree.now.d.now) links.old.list.items links.new.list.items is_full) }
{
    if add_inner(alloc, tree, matched, links)? {
        return Ok(true);
    }
    let is_full = add_outers(alloc, tree, matched, links)?;
    Ok(is_full)
}

/// Adds all links of a description. The answer is whether there are more of them than the limit; then the rest may be
/// missing.
pub fn add_links(alloc: Global, tree: &Tree, links: &mut Links) -> Result<bool, Memory>
    requires is_tree { IsTree tree.now }
    requires few { HasFewItems tree.now.d.now }
    ensures { IfOk result (λ is_full. Grown (IsLink tree.now.d.now) links.old.list.items links.new.list.items is_full) }
{
    let mut matched = Matched::new(alloc, tree.d)?;
    let is_full = add_over(alloc, tree, &mut matched, links);
    drop(matched);
    is_full
}
