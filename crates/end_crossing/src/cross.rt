//! Links of ports.

ghost use Rattle.std.specs.Prelude.{◌≡◌, ℕ, List, IfOk, OnOk};
ghost use Rattle.description_types.specs.Growing.{AnyOf, Grown};
ghost use Rattle.composition_tables.specs.declared.tree.PortEnd.{PortEnd};
ghost use Rattle.end_crossing.specs.PortLinks.{item_of, link_of, IsPairLink, IsCrossLink};
ghost use Rattle.end_search.specs.Tables.{AreGroups};
ghost use Rattle.end_crossing.specs.Crossings.{HasPairs, IsAdding, IsBetween};

use crate::matched::Matched;
use composition_tables::gathering::{Links, add_link};
use composition_tables::links::{Item, Link};
use composition_tables::tree::PortEnd;
use description_types::Description;
use end_search::groups::{Groups, group_of, groups_of};
use rte_text::Memory;
use std::alloc::Global;

fn item_of(end: PortEnd, element: u32) -> Item
    ensures { result ≡ item_of end element }
{
    Item {
        owner: end.owner,
        port: end.port,
        element,
    }
}

fn link_of(provided: PortEnd, required: PortEnd, items: (u32, u32)) -> Link
    ensures { result ≡ link_of provided required items }
{
    Link {
        provided: item_of(provided, items.0),
        required: item_of(required, items.1),
    }
}

fn add_item(
    provided: PortEnd,
    required: PortEnd,
    items: (u32, u32),
    links: &mut Links,
) -> Result<bool, Memory>
    ensures { IfOk result (λ is_full. Grown (λ x. x ≡ link_of provided required items) links.old.list.items links.new.list.items is_full) }
{
    let is_full = add_link(links, link_of(provided, required, items))?;
    Ok(is_full)
}

/// Adds the links of these items of two ports. The answer is whether there are more links now than the limit; then the rest
/// may be missing.
fn add_items(
    provided: PortEnd,
    required: PortEnd,
    pairs: &[(u32, u32)],
    links: &mut Links,
) -> Result<bool, Memory>
    ensures { IfOk result (λ is_full. Grown (AnyOf (λ (items : ℕ × ℕ) x. x ≡ link_of provided required items) pairs.now) links.old.list.items links.new.list.items is_full) }
{
    for pair in pairs {
        if add_item(provided, required, *pair, links)? {
            return Ok(true);
        }
    }
    Ok(false)
}

/// Adds the links of two ports, unless they were added before.
pub fn add_pair(
    alloc: Global,
    d: &Description,
    provided: PortEnd,
    required: PortEnd,
    matched: &mut Matched,
    links: &mut Links,
) -> Result<bool, Memory>
    requires { IsAdding d.now matched.old links.old.list.items }
    ensures matched { OnOk result (IsAdding d.now matched.new links.new.list.items) }
    ensures grown { IfOk result (λ is_full. Grown (IsPairLink d.now provided required) links.old.list.items links.new.list.items is_full) }
{
    if matched.is_done(provided, required) {
        return Ok(false);
    }
    let pair = (provided.interface, required.interface);
    matched.find(alloc, d, pair)?;
    if add_items(provided, required, matched.kept(pair), links)? {
        return Ok(true);
    }
    matched.note_done(provided, required)?;
    Ok(false)
}

/// Adds the links of a provided port with each of the required ones.
pub fn add_ends(
    alloc: Global,
    d: &Description,
    provided: PortEnd,
    required: &[PortEnd],
    matched: &mut Matched,
    links: &mut Links,
) -> Result<bool, Memory>
    requires { IsAdding d.now matched.old links.old.list.items }
    ensures matched { OnOk result (IsAdding d.now matched.new links.new.list.items) }
    ensures grown { IfOk result (λ is_full. Grown (AnyOf (IsPairLink d.now provided) required.now) links.old.list.items links.new.list.items is_full) }
{
    for end in required {
        if add_pair(alloc, d, provided, *end, matched, links)? {
            return Ok(true);
        }
    }
    Ok(false)
}

fn add_all(
    alloc: Global,
    d: &Description,
    provided: &[PortEnd],
    required: &[PortEnd],
    matched: &mut Matched,
    links: &mut Links,
) -> Result<bool, Memory>
    requires { IsAdding d.now matched.old links.old.list.items }
    ensures matched { OnOk result (IsAdding d.now matched.new links.new.list.items) }
    ensures grown { IfOk result (λ is_full. Grown (IsCrossLink d.now provided.now required.now) links.old.list.items links.new.list.items is_full) }
{
    for end in provided {
        if add_ends(alloc, d, *end, required, matched, links)? {
            return Ok(true);
        }
    }
    Ok(false)
}

/// Adds the links of the provided ports of one interface with the required ones of another.
fn add_groups(
    alloc: Global,
    d: &Description,
    pair: (u32, u32),
    provided: &Groups,
    required: &Groups,
    matched: &mut Matched,
    links: &mut Links,
) -> Result<bool, Memory>
    requires { IsAdding d.now matched.old links.old.list.items }
    ensures matched { OnOk result (IsAdding d.now matched.new links.new.list.items) }
    ensures grown { IfOk result (λ is_full. Grown (IsBetween d.now provided.now required.now pair) links.old.list.items links.new.list.items is_full) }
{
    let first = group_of(provided, pair.0);
    let second = group_of(required, pair.1);
    let is_full = add_all(alloc, d, first, second, matched, links)?;
    Ok(is_full)
}

/// Adds the links of groups of ports, given which pairs of their interfaces share an item.
pub fn add_grouped(
    alloc: Global,
    d: &Description,
    pairs: &[(u32, u32)],
    provided: &Groups,
    required: &Groups,
    matched: &mut Matched,
    links: &mut Links,
) -> Result<bool, Memory>
    requires { IsAdding d.now matched.old links.old.list.items }
    ensures matched { OnOk result (IsAdding d.now matched.new links.new.list.items) }
    ensures grown { IfOk result (λ is_full. Grown (AnyOf (IsBetween d.now provided.now required.now) pairs.now) links.old.list.items links.new.list.items is_full) }
{
    for pair in pairs {
        if add_groups(alloc, d, *pair, provided, required, matched, links)? {
            return Ok(true);
        }
    }
    Ok(false)
}

/// Adds the links of provided ports, in groups, with each of the required ones, given which pairs of their interfaces share an item.
fn add_provided(
    alloc: Global,
    d: &Description,
    provided: &Groups,
    required: &[PortEnd],
    pairs: &[(u32, u32)],
    matched: &mut Matched,
    links: &mut Links,
) -> Result<bool, Memory>
    requires { IsAdding d.now matched.old links.old.list.items }
    ensures matched { OnOk result (IsAdding d.now matched.new links.new.list.items) }
    ensures grown { IfOk result (λ is_full. (ends : List PortEnd) → AreGroups ends provided.now → HasPairs d.now ends required.now pairs.now → Grown (IsCrossLink d.now ends required.now) links.old.list.items links.new.list.items is_full) }
{
    let second = groups_of(alloc, required)?;
    let is_full = add_grouped(alloc, d, pairs, provided, &second, matched, links)?;
    Ok(is_full)
}

/// Adds the links of each of the provided ports with each of the required ones, given which pairs of their interfaces share
/// an item. Ports of interfaces that share none cost one look each and not one for each pair.
pub fn cross(
    alloc: Global,
    d: &Description,
    provided: &[PortEnd],
    required: &[PortEnd],
    pairs: &[(u32, u32)],
    matched: &mut Matched,
    links: &mut Links,
) -> Result<bool, Memory>
    requires matched { IsAdding d.now matched.old links.old.list.items }
    requires pairs { HasPairs d.now provided.now required.now pairs.now }
    ensures matched { OnOk result (IsAdding d.now matched.new links.new.list.items) }
    ensures grown { IfOk result (λ is_full. Grown (IsCrossLink d.now provided.now required.now) links.old.list.items links.new.list.items is_full) }
{
    let first = groups_of(alloc, provided)?;
    let is_full = add_provided(alloc, d, &first, required, pairs, matched, links)?;
    Ok(is_full)
}
