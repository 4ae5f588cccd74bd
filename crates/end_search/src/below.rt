//! The interfaces of the ports below a gate.

ghost use Rattle.std.specs.Prelude.{◌≡◌, ◌<◌, ℕ, length, get_or, IfOk, OnOk};
ghost use Rattle.composition_tables.specs.declared.tree.PortEnd.{PortEnd};
ghost use Rattle.end_search.specs.Below.{Stays, IsCovered, IsInnerCovered, IsFollowed, IsDone};
ghost use Rattle.composition_tables.specs.Ends.{ends};
ghost use Rattle.end_search.specs.Gates.{gate_ends};
ghost use Rattle.description_types.specs.Members.{Among};
ghost use Rattle.composition_tables.specs.Trees.{IsTree};

use crate::gates::Gate;
use composition_tables::connectors::{interface_of, type_in};
use composition_tables::ends::inner_ports;
use composition_tables::tree::Tree;
use description_types::{Description, InnerPort, PrototypeType};
use indexmap::IndexSet;
use rte_text::Memory;
use std::alloc::Global;

/// What a search has come to. A port of a composition is seen once, in however many places the composition stands.
#[derive(Drop)]
pub struct Search {
    /// The compositions and their ports that were seen, in the order in which their delegations are followed.
    seen: IndexSet<(u32, u32)>,
    /// The interfaces of the ports of components.
    found: IndexSet<u32>,
}

fn note_interface(search: &mut Search, interface: u32) -> Result<(), Memory>
    ensures stays { OnOk result (Stays search.old search.new) }
    ensures found { OnOk result (Among interface search.new.found.keys) }
{
    search.found.insert(interface)?;
    Ok(())
}

fn note_port(search: &mut Search, composition: u32, port: u32) -> Result<(), Memory>
    ensures stays { OnOk result (Stays search.old search.new) }
    ensures seen { OnOk result (Among (composition, port) search.new.seen.keys) }
{
    search.seen.insert((composition, port))?;
    Ok(())
}

/// Comes to a port of a component or composition.
fn cover(
    d: &Description,
    of_type: PrototypeType,
    port: u32,
    search: &mut Search,
) -> Result<(), Memory>
    ensures stays { OnOk result (Stays search.old search.new) }
    ensures covered { OnOk result (IsCovered d.now search.new of_type port) }
{
    match of_type {
        PrototypeType::Component(_) => {
            if let Some(interface) = interface_of(d, of_type, port) {
                note_interface(search, interface)?;
            }
            Ok(())
        }
        PrototypeType::Composition(composition) => {
            note_port(search, composition, port)?;
            Ok(())
        }
    }
}

fn cover_inner(
    d: &Description,
    composition: u32,
    inner: InnerPort,
    search: &mut Search,
) -> Result<(), Memory>
    ensures stays { OnOk result (Stays search.old search.new) }
    ensures covered { OnOk result (IsInnerCovered d.now search.new composition inner) }
{
    match type_in(d, composition, inner.prototype) {
        Some(of_type) => {
            cover(d, of_type, inner.port, search)?;
            Ok(())
        }
        None => Ok(()),
    }
}

/// Follows the delegations of a port of a composition.
fn follow_port(tree: &Tree, node: (u32, u32), search: &mut Search) -> Result<(), Memory>
    requires { IsTree tree.now }
    ensures stays { OnOk result (Stays search.old search.new) }
    ensures followed { OnOk result (IsFollowed tree.now.d.now search.new node) }
{
    for inner in inner_ports(tree, node.0, node.1) {
        cover_inner(tree.d, node.0, *inner, search)?;
    }
    Ok(())
}

/// The port that was seen at a position.
fn seen_at(search: &Search, position: usize) -> (u32, u32)
    requires { position < length search.now.seen.keys }
    ensures { result ≡ get_or search.now.seen.keys position (0, 0) }
{
    search.seen.as_slice()[position]
}

/// Follows the delegations of all ports that are seen, one after the other, and of those that are seen on the way.
fn follow_all(tree: &Tree, search: &mut Search) -> Result<(), Memory>
    requires { IsTree tree.now }
    ensures stays { OnOk result (Stays search.old search.new) }
    ensures done { OnOk result (IsDone tree.now.d.now search.new) }
{
    let mut position = 0;
    while position < search.seen.len() {
        let node = seen_at(search, position);
        follow_port(tree, node, search)?;
        position += 1;
    }
    Ok(())
}

fn begun(
    alloc: Global,
    d: &Description,
    of_type: PrototypeType,
    port: u32,
) -> Result<Search, Memory>
    ensures { IfOk result (λ search. IsCovered d.now search of_type port) }
{
    let mut search = Search {
        seen: IndexSet::new(alloc),
        found: IndexSet::new(alloc),
    };
    cover(d, of_type, port, &mut search)?;
    Ok(search)
}

fn interfaces_from(
    alloc: Global,
    tree: &Tree,
    of_type: PrototypeType,
    port: u32,
) -> Result<IndexSet<u32>, Memory>
    requires { IsTree tree.now }
    ensures { IfOk result (λ found. (n first : ℕ) (x : PortEnd) → Among x (ends tree.now.d.now n of_type first port) → Among x.interface found.keys) }
{
    let mut search = begun(alloc, tree.d, of_type, port)?;
    follow_all(tree, &mut search)?;
    Ok(search.found)
}

fn one_interface(alloc: Global, interface: u32) -> Result<IndexSet<u32>, Memory>
    ensures { IfOk result (λ found. Among interface found.keys) }
{
    let mut found = IndexSet::new(alloc);
    found.insert(interface)?;
    Ok(found)
}

/// The interfaces of the ends at or below a gate, and maybe of ports where nothing stands. It takes as long as there are
/// delegations, in however many places their compositions stand.
pub fn interfaces_below(alloc: Global, tree: &Tree, gate: Gate) -> Result<IndexSet<u32>, Memory>
    requires { IsTree tree.now }
    ensures { IfOk result (λ found. (x : PortEnd) → Among x (gate_ends tree.now.d.now gate) → Among x.interface found.keys) }
{
    match gate {
        Gate::Outer(_, interface) => {
            let found = one_interface(alloc, interface)?;
            Ok(found)
        }
        Gate::Component(component, _, port) => {
            let found = interfaces_from(alloc, tree, PrototypeType::Component(component), port)?;
            Ok(found)
        }
        Gate::Composition(_, composition, _, port) => {
            let of_type = PrototypeType::Composition(composition);
            let found = interfaces_from(alloc, tree, of_type, port)?;
            Ok(found)
        }
    }
}
