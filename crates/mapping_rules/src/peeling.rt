//! Whether edges lead in a circle.

ghost use Rattle.std.specs.Prelude.{◌≡◌, ℕ, filter, nat_eq, IfOk};
ghost use Rattle.indexmap.specs.IndexSet.{contains};
ghost use Rattle.mapping_rules.specs.Edges.{has_edge_to, IsDecided};

use indexmap::IndexSet;
use rte_text::Memory;
use std::alloc::Global;

/// A wait, from one task to another.
pub type Edge = (u32, u32);

fn targets_of(alloc: Global, edges: &[Edge]) -> Result<IndexSet<u32>, Memory>
    ensures { IfOk result (λ targets. (q : ℕ) → contains nat_eq targets q ≡ has_edge_to q edges.now) }
{
    let mut targets = IndexSet::new(alloc);
    for edge in edges {
        targets.insert(edge.1)?;
    }
    Ok(targets)
}

fn starting_in(alloc: Global, targets: &IndexSet<u32>, edges: &[Edge]) -> Result<Vec<Edge>, Memory>
    ensures { IfOk result (λ kept. kept.items ≡ filter (λ e. contains nat_eq targets.now e.0) edges.now) }
{
    let mut kept = Vec::new(alloc);
    for edge in edges {
        if targets.contains(&edge.0) {
            kept.push(*edge)?;
        }
    }
    Ok(kept)
}

/// The edges that begin where one of them ends.
fn peeled(alloc: Global, edges: &[Edge]) -> Result<Vec<Edge>, Memory>
    ensures { IfOk result (λ kept. kept.items ≡ filter (λ e. has_edge_to e.0 edges.now) edges.now) }
{
    let targets = targets_of(alloc, edges)?;
    let kept = starting_in(alloc, &targets, edges)?;
    Ok(kept)
}

/// Whether no edges lead in a circle, so that tasks can be put in an order in which each edge goes forward. Takes off again and
/// again the edges that begin where none ends.
pub fn are_acyclic(alloc: Global, edges: Vec<Edge>) -> Result<bool, Memory>
    ensures { IfOk result (λ answer. IsDecided answer edges.items) }
{
    let mut left = edges;
    loop {
        let kept = peeled(alloc, left.as_slice())?;
        if kept.len() == left.len() {
            return Ok(left.is_empty());
        }
        left = kept;
    }
}
