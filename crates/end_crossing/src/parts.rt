//! The inner ports that gates are split into.

ghost use Rattle.std.specs.Prelude.{◌≡◌, ◌≤◌, ◌&&◌, IfSome, nat_le, length};
ghost use Rattle.end_search.specs.Gates.{gate_ends, IsShallow};
ghost use Rattle.end_crossing.specs.Parts.{holds_composition, leads_on, part_ends};
ghost use Rattle.composition_tables.specs.Trees.{IsTree};

use composition_tables::connectors::type_in;
use composition_tables::ends::inner_ports;
use composition_tables::tree::Tree;
use description_types::{Description, InnerPort, PrototypeType};
use end_search::gates::Gate;

/// How many inner ports a gate has at most that is split.
const SPLIT_LIMIT: usize = 128;

/// The inner ports that a port of a composition is delegated to, followed down as its gate is.
#[derive(Drop)]
pub struct Parts<'a> {
    pub depth: usize,
    pub composition: u32,
    pub first: u32,
    pub ports: &'a [InnerPort],
}

fn holds_composition(d: &Description, composition: u32, prototype: u32) -> bool
    ensures { result ≡ holds_composition d.now composition prototype }
{
    match type_in(d, composition, prototype) {
        Some(PrototypeType::Composition(_)) => true,
        Some(PrototypeType::Component(_)) | None => false,
    }
}

fn leads_on(d: &Description, composition: u32, ports: &[InnerPort]) -> bool
    ensures { result ≡ leads_on d.now composition ports.now }
{
    ports
        .iter()
        .any(|inner| holds_composition(d, composition, inner.prototype))
}

/// Whether a port that is delegated to these is split: there are few of them, and not all are ports of components. So a
/// part that many gates share is crossed once, and what is below it is not listed for each of them.
fn is_split(d: &Description, composition: u32, ports: &[InnerPort]) -> bool
    ensures { result ≡ (nat_le (length ports.now) 128 && leads_on d.now composition ports.now) }
{
    ports.len() <= SPLIT_LIMIT && leads_on(d, composition, ports)
}

/// The inner ports that a gate is split into, if it is.
pub fn parts_of<'a>(tree: &'a Tree, gate: Gate) -> Option<Parts<'a>>
    requires is_tree { IsTree tree.now }
    requires shallow { IsShallow gate }
    ensures within { IfSome result (λ parts. parts.depth ≤ 8) }
    ensures ends { IfSome result (λ parts. gate_ends tree.now.d.now gate ≡ part_ends tree.now.d.now parts) }
{
    match gate {
        Gate::Composition(depth, composition, first, port) => {
            if depth == 0 {
                return None;
            }
            let ports = inner_ports(tree, composition, port);
            if !is_split(tree.d, composition, ports) {
                return None;
            }
            Some(Parts {
                depth: depth - 1,
                composition,
                first,
                ports,
            })
        }
        Gate::Outer(_, _) | Gate::Component(_, _, _) => None,
    }
}
