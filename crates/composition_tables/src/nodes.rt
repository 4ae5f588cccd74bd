//! The compositions that stand in a description.

ghost use Rattle.std.specs.Prelude.{◌≡◌, ◌≤◌, ◌<◌, ◌↔◌, ◌⊎◌, OnOk, IfOk};
ghost use Rattle.composition_tables.specs.declared.nodes.Node.{Node};
ghost use Rattle.composition_tables.specs.Nodes.{IsNode, IsInnerNode};
ghost use Rattle.description_types.specs.Members.{Among};
ghost use Rattle.composition_tables.specs.Trees.{IsTree};

use crate::connectors::inner_type;
use crate::counts::{DEPTH_LIMIT, count_below};
use crate::ends::{number_from, start_at};
use crate::prototypes::prototypes_of;
use crate::tree::Tree;
use description_types::PrototypeType;
use rte_text::Memory;
use std::alloc::Global;

/// A composition where it stands: `first` is the number of the first instance below it, and its prototypes have instances
/// at most `depth` prototypes deep.
#[derive(Clone, Copy, PartialEq, Eq, PartialOrd, Ord)]
pub struct Node {
    pub depth: usize,
    pub composition: u32,
    pub first: u32,
}

#[cycle(listing_nodes)]
fn list_nodes(
    tree: &Tree,
    depth: usize,
    composition: u32,
    first: u32,
    nodes: &mut Vec<Node>,
) -> Result<(), Memory>
    requires is_tree { IsTree tree.now }
    requires within { depth ≤ 8 }
    ensures { OnOk result ((x : Node) → Among x nodes.new.items ↔ (Among x nodes.old.items ⊎ IsNode tree.now.d.now depth composition first x)) }
{
    if depth == 0 {
        return Ok(());
    }
    nodes.push(Node {
        depth: depth - 1,
        composition,
        first,
    })?;
    for prototype in 0..prototypes_of(tree.d, composition as usize).len() {
        list_node(tree, depth - 1, composition, first, prototype, nodes)?;
    }
    Ok(())
}

/// Lists the compositions at or below a prototype. Those without instances are left out.
#[cycle(listing_nodes)]
fn list_node(
    tree: &Tree,
    depth: usize,
    composition: u32,
    first: u32,
    prototype: usize,
    nodes: &mut Vec<Node>,
) -> Result<(), Memory>
    requires is_tree { IsTree tree.now }
    requires within { depth < 8 }
    ensures { OnOk result ((x : Node) → Among x nodes.new.items ↔ (Among x nodes.old.items ⊎ IsInnerNode tree.now.d.now depth composition first prototype x)) }
{
    match inner_type(tree.d, composition as usize, prototype) {
        Some(PrototypeType::Composition(held)) => {
            if count_below(tree.levels.as_slice(), depth, held) == 0 {
                return Ok(());
            }
            let start = start_at(tree, depth, composition, prototype);
            list_nodes(tree, depth, held, number_from(first, start), nodes)?;
            Ok(())
        }
        Some(PrototypeType::Component(_)) | None => Ok(()),
    }
}

/// The root and all compositions with instances that stand in a description, those of one composition and depth together.
pub fn nodes_of(alloc: Global, tree: &Tree) -> Result<Vec<Node>, Memory>
    requires { IsTree tree.now }
    ensures { IfOk result (λ nodes. (x : Node) → Among x nodes.items ↔ IsNode tree.now.d.now 8 tree.now.d.now.root 0 x) }
{
    let mut nodes = Vec::new(alloc);
    list_nodes(tree, DEPTH_LIMIT, tree.d.root, 0, &mut nodes)?;
    nodes.sort()?;
    Ok(nodes)
}
