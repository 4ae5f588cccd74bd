//! The bundles that coherent access lists make of groups.

ghost use Rattle.std.specs.Prelude.{◌≡◌, ◌<◌, ◌^◌, ◌==◌, [], ◌∷◌, ◌++◌, if◌then◌else◌, Option, Some, None, IfOk, OnOk, get_or, length, map};
ghost use Rattle.bus_semantics.specs.Common.{flat_map, list_all, list_any, least, together, positions};
ghost use Rattle.plan_definitions.specs.Common.{elem_seen, group_number, groups, groups_listed};
ghost use Rattle.plan_definitions.specs.Listed.{group_at};
ghost use Rattle.plan_elements.specs.Bundled.{leaders_over, lowest};

use crate::groups::grouping_of;
use crate::members::all_members;
use bus_semantics::{CoherentList, ElemPlan};
use rte_text::{Memory, Seq};
use std::alloc::Global;

/// For each group its bundle, and the groups of each bundle.
#[derive(Drop)]
pub struct Bundling {
    pub homes: Seq<u32>,
    pub bundles: Seq<Seq<u32>>,
}

/// Adds the group of an element.
fn note_group(found: &mut Vec<u32>, elements: &[ElemPlan], element: u32) -> Result<(), Memory>
    ensures { OnOk result (found.new.items ≡ found.old.items ++ group_at (map elem_seen elements.now) element) }
{
    if let Some(plan) = elements.get(element as usize) {
        found.push(plan.group)?;
    }
    Ok(())
}

fn groups_at(alloc: Global, elements: &[ElemPlan], elems: &[u32]) -> Result<Vec<u32>, Memory>
    ensures { IfOk result (λ found. found.items ≡ flat_map (group_at (map elem_seen elements.now)) elems.now) }
{
    let mut found = Vec::with_capacity(alloc, elems.len())?;
    for element in elems {
        note_group(&mut found, elements, *element)?;
    }
    Ok(found)
}

/// Each group its own label.
fn own_labels(alloc: Global, groups: u32) -> Result<Vec<u32>, Memory>
    ensures { IfOk result (λ labels. labels.items ≡ positions groups) }
{
    let mut labels = Vec::with_capacity(alloc, groups as usize)?;
    for group in 0..groups {
        labels.push(group)?;
    }
    Ok(labels)
}

fn label_at(labels: &[u32], group: u32) -> u32
    ensures { result ≡ get_or labels.now group group }
{
    match labels.get(group as usize) {
        Some(label) => *label,
        None => group,
    }
}

fn labels_at(alloc: Global, labels: &[u32], groups: &[u32]) -> Result<Vec<u32>, Memory>
    ensures { IfOk result (λ theirs. theirs.items ≡ map (λ g. get_or labels.now g g) groups.now) }
{
    let mut theirs = Vec::with_capacity(alloc, groups.len())?;
    for group in groups {
        theirs.push(label_at(labels, *group))?;
    }
    Ok(theirs)
}

/// The least of some labels and of a first one.
fn least(first: u32, labels: &[u32]) -> u32
    ensures { result ≡ least first labels.now }
{
    let mut low = first;
    for label in labels {
        low = low.min(*label);
    }
    low
}

fn is_same(label: u32, other: u32) -> bool
    ensures { result ≡ (label == other) }
{
    label == other
}

fn are_one(theirs: &[u32], first: u32) -> bool
    ensures { result ≡ list_all (λ t. t == first) theirs.now }
{
    theirs.iter().all(|label| is_same(*label, first))
}

/// The least of some labels, if they are not all one.
fn lowest(theirs: &[u32]) -> Option<u32>
    ensures { result ≡ lowest theirs.now }
{
    let first = *theirs.get(0)?;
    if are_one(theirs, first) {
        None
    } else {
        Some(least(first, theirs))
    }
}

fn is_theirs(theirs: &[u32], label: u32) -> bool
    ensures { result ≡ list_any (λ t. t == label) theirs.now }
{
    theirs.iter().any(|other| is_same(*other, label))
}

/// The new label of a group, if those of these labels are connected.
fn label_of(theirs: &[u32], low: u32, label: u32) -> u32
    ensures { result ≡ (if list_any (λ t. t == label) theirs.now then low else label) }
{
    if is_theirs(theirs, label) { low } else { label }
}

/// The new labels of all groups, if those of these labels are connected.
fn relabeled(alloc: Global, labels: &[u32], theirs: &[u32], low: u32) -> Result<Vec<u32>, Memory>
    ensures { IfOk result (λ found. found.items ≡ map (λ l. if list_any (λ t. t == l) theirs.now then low else l) labels.now) }
{
    let mut found = Vec::with_capacity(alloc, labels.len())?;
    for label in labels {
        found.push(label_of(theirs, low, *label))?;
    }
    Ok(found)
}

/// The labels of all groups once some are connected: all that have a label of theirs get the least of these.
fn connected(alloc: Global, labels: Vec<u32>, groups: &[u32]) -> Result<Vec<u32>, Memory>
    ensures { IfOk result (λ found. found.items ≡ together groups.now labels.items) }
{
    let theirs = labels_at(alloc, labels.as_slice(), groups)?;
    match lowest(theirs.as_slice()) {
        Some(low) => relabeled(alloc, labels.as_slice(), theirs.as_slice(), low),
        None => Ok(labels),
    }
}

#[tactic(auto, using(crate::proofs::Connecting::leaders_more, crate::proofs::Connecting::leaders_all))]
fn leaders_over(
    alloc: Global,
    elements: &[ElemPlan],
    lists: &[CoherentList],
    groups: u32,
) -> Result<Vec<u32>, Memory>
    ensures { IfOk result (λ labels. labels.items ≡ leaders_over (map elem_seen elements.now) lists.now groups) }
{
    let mut labels = own_labels(alloc, groups)?;
    for list in lists {
        let found = groups_at(alloc, elements, list.elems.items())?;
        labels = connected(alloc, labels, found.as_slice())?;
    }
    Ok(labels)
}

/// The bundles that lists make of so many groups: groups whose elements are in one list have one bundle. Bundles are numbered by
/// their least groups. Each list that connects something costs a walk over the groups, so at most as many walks as there are groups.
pub fn bundle_lists(
    alloc: Global,
    elements: &[ElemPlan],
    lists: &[CoherentList],
    count: u32,
) -> Result<Bundling, Memory>
    ensures homes { IfOk result (λ found. let leaders = leaders_over (map elem_seen elements.now) lists.now count in found.homes ≡ map (group_number leaders) leaders) }
    ensures bundles { IfOk result (λ found. found.bundles ≡ groups (leaders_over (map elem_seen elements.now) lists.now count)) }
{
    let leaders = leaders_over(alloc, elements, lists, count)?;
    let grouping = grouping_of(alloc, leaders.as_slice())?;
    let bundles = all_members(alloc, grouping.numbers.as_slice(), grouping.count)?;
    let homes = Seq::of(grouping.numbers);
    Ok(Bundling { homes, bundles })
}
