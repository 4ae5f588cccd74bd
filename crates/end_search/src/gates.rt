//! Ports from which delegations are followed.

ghost use Rattle.std.specs.Prelude.{◌≡◌, ◌≤◌, ◌↔◌, [], ◌∷◌, false, IfOk, IfSome, Some};
ghost use Rattle.std.specs.Option.{option_map_or};
ghost use Rattle.end_search.specs.declared.seek.Wanted.{Wanted};
ghost use Rattle.composition_tables.specs.Ends.{ends, inner_ends};
ghost use Rattle.end_search.specs.Wishes.{AreFound, IsCutBelow};
ghost use Rattle.end_search.specs.Gates.{gate_ends, IsShallow, outer_ends};
ghost use Rattle.composition_tables.specs.Trees.{IsTree};
ghost use Rattle.description_types.specs.declared.description.Description.{Description};

use crate::seek::{Found, Wish, ends_below, ends_of_instance};
use composition_tables::connectors::type_in;
use composition_tables::counts::DEPTH_LIMIT;
use composition_tables::ends::{inner_ports, number_from, start_of};
use composition_tables::tree::{Owner, PortEnd, Tree};
use description_types::{InnerPort, PrototypeType};
use indexmap::IndexSet;
use rte_text::Memory;
use std::alloc::Global;

/// A port from which delegations are followed down to the ports of instances.
#[derive(Clone, Copy, PartialEq, Eq, Hash)]
pub enum Gate {
    /// A port of the root, as the environment's: the port and its interface.
    Outer(u32, u32),
    /// A port of an instance: the component, the number of the instance, the port.
    Component(u32, u32, u32),
    /// A port of a composition: how many prototypes down it is followed, the composition, the number of the first instance
    /// below it, the port.
    Composition(usize, u32, u32, u32),
}

/// The gate that a port of a component or composition is.
pub fn gate_at(depth: usize, of_type: PrototypeType, first: u32, port: u32) -> Gate
    requires { depth ≤ 8 }
    ensures shallow { IsShallow result }
    ensures ends { (d : Description) → gate_ends d result ≡ ends d depth of_type first port }
{
    match of_type {
        PrototypeType::Component(component) => Gate::Component(component, first, port),
        PrototypeType::Composition(composition) => {
            Gate::Composition(depth, composition, first, port)
        }
    }
}

/// The gate that an inner port of a composition is.
pub fn inner_gate(
    tree: &Tree,
    depth: usize,
    composition: u32,
    first: u32,
    inner: InnerPort,
) -> Option<Gate>
    requires is_tree { IsTree tree.now }
    requires within { depth ≤ 8 }
    ensures shallow { IfSome result IsShallow }
    ensures ends { option_map_or (gate_ends tree.now.d.now) result [] ≡ inner_ends tree.now.d.now depth (ends tree.now.d.now depth) composition first inner }
{
    match type_in(tree.d, composition, inner.prototype) {
        Some(of_type) => {
            let start = start_of(tree, depth, composition, inner.prototype);
            Some(gate_at(depth, of_type, number_from(first, start), inner.port))
        }
        None => None,
    }
}

fn only_port(ports: &[InnerPort]) -> Option<InnerPort>
    ensures { IfSome result (λ port. ports.now ≡ port ∷ []) }
{
    match ports {
        [port] => Some(*port),
        _ => None,
    }
}

/// The gate one delegation further down, if a port of a composition is delegated to one port alone.
fn further(tree: &Tree, gate: Gate) -> Option<Gate>
    requires is_tree { IsTree tree.now }
    requires shallow { IsShallow gate }
    ensures shallow { IfSome result IsShallow }
    ensures ends { IfSome result (λ next. gate_ends tree.now.d.now next ≡ gate_ends tree.now.d.now gate) }
{
    match gate {
        Gate::Composition(depth, composition, first, port) => {
            if depth == 0 {
                return None;
            }
            let inner = only_port(inner_ports(tree, composition, port))?;
            inner_gate(tree, depth - 1, composition, first, inner)
        }
        Gate::Outer(_, _) | Gate::Component(_, _, _) => None,
    }
}

/// The gate to which a gate leads, as far as each port is delegated to one port alone. So ports that all lead to one port
/// are followed as that one.
pub fn narrowed(tree: &Tree, gate: Gate) -> Gate
    requires is_tree { IsTree tree.now }
    requires shallow { IsShallow gate }
    ensures shallow { IsShallow result }
    ensures ends { gate_ends tree.now.d.now result ≡ gate_ends tree.now.d.now gate }
{
    let mut last = gate;
    for _ in 0..DEPTH_LIMIT {
        match further(tree, last) {
            Some(next) => last = next,
            None => return last,
        }
    }
    last
}

/// The ends at or below a gate that are wished for, each once. With the limit `usize::MAX` no search is cut short.
pub fn ends_at(alloc: Global, tree: &Tree, gate: Gate, wish: &Wish) -> Result<Found, Memory>
    requires is_tree { IsTree tree.now }
    requires shallow { IsShallow gate }
    ensures found { IfOk result (AreFound wish.now.wanted (gate_ends tree.now.d.now gate)) }
    ensures cut { IfOk result (λ found. IsCutBelow wish.now.limit found.is_cut) }
{
    match gate {
        Gate::Outer(port, interface) => {
            let found = one_end(alloc, port, interface)?;
            Ok(found)
        }
        Gate::Component(component, first, port) => {
            let found = ends_of_instance(alloc, tree, component, first, port, wish)?;
            Ok(found)
        }
        Gate::Composition(depth, composition, first, port) => {
            let found = ends_below(alloc, tree, depth, composition, first, port, wish)?;
            Ok(found)
        }
    }
}

fn one_end(alloc: Global, port: u32, interface: u32) -> Result<Found, Memory>
    ensures found { IfOk result (λ found. (w : Wanted) → AreFound w (outer_ends (Some interface) port) found) }
    ensures whole { IfOk result (λ found. found.is_cut ≡ false) }
{
    let mut ends = IndexSet::new(alloc);
    let owner = Owner::Environment;
    ends.insert(PortEnd {
        owner,
        port,
        interface,
    })?;
    Ok(Found {
        ends,
        is_cut: false,
    })
}
