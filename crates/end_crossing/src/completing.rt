//! Sides of which not all ends are at hand, completed interface by interface.

ghost use Rattle.std.specs.Prelude.{◌≡◌, ◌↔◌, ℕ, true, false, IfOk, IfSome, OnOk};
ghost use Rattle.description_types.specs.declared.description.Description.{Description};
ghost use Rattle.composition_tables.specs.declared.tree.PortEnd.{PortEnd};
ghost use Rattle.end_search.specs.Gates.{IsShallow, gate_ends};
ghost use Rattle.end_search.specs.Sides.{AreOf, HasInterface, IsSide};
ghost use Rattle.description_types.specs.Members.{Among};
ghost use Rattle.composition_tables.specs.Trees.{IsTree};

use composition_tables::links::LINK_LIMIT;
use composition_tables::tree::{PortEnd, Tree};
use end_search::gates::{Gate, ends_at};
use end_search::groups::{group_of, groups_of};
use end_search::seek::{Found, Wanted, Wish};
use end_search::sides::Side;
use indexmap::IndexSet;
use rte_text::Memory;
use std::alloc::Global;

fn only(alloc: Global, interface: u32) -> Result<IndexSet<u32>, Memory>
    ensures { IfOk result (λ found. Among interface found.keys) }
{
    let mut found = IndexSet::new(alloc);
    found.insert(interface)?;
    Ok(found)
}

/// The ends among some that have an interface.
fn with_interface(alloc: Global, ends: &[PortEnd], interface: u32) -> Result<Vec<PortEnd>, Memory>
    ensures { IfOk result (λ list. (x : PortEnd) → Among x list.items ↔ (Among x ends.now × (x.interface ≡ interface))) }
{
    let groups = groups_of(alloc, ends)?;
    let list = Vec::from_slice(alloc, group_of(&groups, interface))?;
    Ok(list)
}

/// Notes that these are all ends of an interface below the gate of a side.
fn note_known(side: &mut Side, gate: Gate, interface: u32, ends: Vec<PortEnd>) -> Result<(), Memory>
    ensures side { OnOk result ((d : Description) → IsSide d gate side.old → AreOf d gate interface ends.items → IsSide d gate side.new) }
    ensures stays { OnOk result ((q : ℕ) → HasInterface side.old q → HasInterface side.new q) }
    ensures has { OnOk result (HasInterface side.new interface) }
{
    side.count = side.count.saturating_add(ends.len());
    side.groups.insert(interface, ends)?;
    side.known.insert(interface)?;
    Ok(())
}

/// The ends of an interface below a gate, cut short if there are more than there may be links.
fn found_of(alloc: Global, tree: &Tree, gate: Gate, interface: u32) -> Result<Found, Memory>
    requires is_tree { IsTree tree.now }
    requires shallow { IsShallow gate }
    ensures sound { IfOk result (λ found. (x : PortEnd) → Among x found.ends.keys → Among x (gate_ends tree.now.d.now gate)) }
    ensures whole { IfOk result (λ found. found.is_cut ≡ false → (x : PortEnd) → Among x (gate_ends tree.now.d.now gate) → x.interface ≡ interface → Among x found.ends.keys) }
{
    let wish = Wish {
        wanted: Wanted::Only(only(alloc, interface)?),
        limit: LINK_LIMIT,
    };
    let below = ends_at(alloc, tree, gate, &wish);
    drop(wish);
    let found = below?;
    Ok(found)
}

/// All ends of an interface below a gate, or none if there are more than there may be links.
fn ends_of(
    alloc: Global,
    tree: &Tree,
    gate: Gate,
    interface: u32,
) -> Result<Option<Vec<PortEnd>>, Memory>
    requires is_tree { IsTree tree.now }
    requires shallow { IsShallow gate }
    ensures { IfOk result (λ found. IfSome found (λ list. AreOf tree.now.d.now gate interface list.items)) }
{
    let found = found_of(alloc, tree, gate, interface)?;
    if found.is_cut {
        return Ok(None);
    }
    let list = with_interface(alloc, found.ends.as_slice(), interface)?;
    Ok(Some(list))
}

/// Finds all ends of an interface below the gate of a side, unless they are at hand. The answer is whether they are now.
fn complete(
    alloc: Global,
    tree: &Tree,
    gate: Gate,
    interface: u32,
    side: &mut Side,
) -> Result<bool, Memory>
    requires is_tree { IsTree tree.now }
    requires shallow { IsShallow gate }
    requires side { IsSide tree.now.d.now gate side.old }
    ensures side { OnOk result (IsSide tree.now.d.now gate side.new) }
    ensures stays { OnOk result ((q : ℕ) → HasInterface side.old q → HasInterface side.new q) }
    ensures has { IfOk result (λ answer. answer ≡ true → HasInterface side.new interface) }
{
    if side.known.contains(&interface) {
        return Ok(true);
    }
    let found = ends_of(alloc, tree, gate, interface)?;
    match found {
        Some(ends) => {
            note_known(side, gate, interface, ends)?;
            Ok(true)
        }
        None => Ok(false),
    }
}

/// Finds all ends of some interfaces below the gate of a side. The answer is whether they are at hand now.
pub fn complete_all(
    alloc: Global,
    tree: &Tree,
    gate: Gate,
    interfaces: &[u32],
    side: &mut Side,
) -> Result<bool, Memory>
    requires is_tree { IsTree tree.now }
    requires shallow { IsShallow gate }
    requires side { IsSide tree.now.d.now gate side.old }
    ensures side { OnOk result (IsSide tree.now.d.now gate side.new) }
    ensures has { IfOk result (λ answer. answer ≡ true → (q : ℕ) → Among q interfaces.now → HasInterface side.new q) }
{
    if !side.is_cut {
        return Ok(true);
    }
    for interface in interfaces {
        if !complete(alloc, tree, gate, *interface, side)? {
            return Ok(false);
        }
    }
    Ok(true)
}
