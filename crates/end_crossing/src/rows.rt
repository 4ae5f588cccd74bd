//! Links of the ports below two gates, port by port.

ghost use Rattle.std.specs.Prelude.{◌≡◌, nat_eq, IfOk, OnOk};
ghost use Rattle.indexmap.specs.IndexMap.{get};
ghost use Rattle.description_types.specs.Growing.{AnyOf, Grown};
ghost use Rattle.end_crossing.specs.PortLinks.{IsPairLink, IsCrossLink};
ghost use Rattle.end_search.specs.Sides.{AreOf};
ghost use Rattle.end_crossing.specs.Crossings.{HaveFirsts, HaveSeconds, IsAdding, IsBetween};
ghost use Rattle.composition_tables.specs.Multi.{under};
ghost use Rattle.composition_tables.specs.declared.tree.PortEnd.{PortEnd};

use crate::cross::{add_ends, add_pair};
use crate::crossings::Crossing;
use crate::matched::Matched;
use composition_tables::gathering::Links;
use composition_tables::tree::PortEnd;
use description_types::Description;
use end_search::gates::Gate;
use end_search::groups::{Groups, group_of};
use rte_text::Memory;
use std::alloc::Global;

/// Adds the links of a provided port with the required ones of an interface below a gate, unless they were added before. So
/// a port that many gates lead to is joined with those of a gate once.
fn add_row(
    alloc: Global,
    d: &Description,
    end: PortEnd,
    required: Gate,
    interface: u32,
    second: &[PortEnd],
    matched: &mut Matched,
    links: &mut Links,
) -> Result<bool, Memory>
    requires matched { IsAdding d.now matched.old links.old.list.items }
    requires second { AreOf d.now required interface second.now }
    ensures matched { OnOk result (IsAdding d.now matched.new links.new.list.items) }
    ensures grown { IfOk result (λ is_full. Grown (AnyOf (IsPairLink d.now end) second.now) links.old.list.items links.new.list.items is_full) }
{
    let crossing = Crossing::Row(end, required, interface);
    if matched.is_crossed(crossing) {
        return Ok(false);
    }
    if add_ends(alloc, d, end, second, matched, links)? {
        return Ok(true);
    }
    matched.note_crossed(crossing)?;
    Ok(false)
}

fn add_rows(
    alloc: Global,
    d: &Description,
    first: &[PortEnd],
    required: Gate,
    interface: u32,
    second: &[PortEnd],
    matched: &mut Matched,
    links: &mut Links,
) -> Result<bool, Memory>
    requires matched { IsAdding d.now matched.old links.old.list.items }
    requires second { AreOf d.now required interface second.now }
    ensures matched { OnOk result (IsAdding d.now matched.new links.new.list.items) }
    ensures grown { IfOk result (λ is_full. Grown (IsCrossLink d.now first.now second.now) links.old.list.items links.new.list.items is_full) }
{
    for end in first {
        if add_row(alloc, d, *end, required, interface, second, matched, links)? {
            return Ok(true);
        }
    }
    Ok(false)
}

fn add_providers(
    alloc: Global,
    d: &Description,
    provided: &[PortEnd],
    required: PortEnd,
    matched: &mut Matched,
    links: &mut Links,
) -> Result<bool, Memory>
    requires { IsAdding d.now matched.old links.old.list.items }
    ensures matched { OnOk result (IsAdding d.now matched.new links.new.list.items) }
    ensures grown { IfOk result (λ is_full. Grown (AnyOf (λ (p : PortEnd). IsPairLink d.now p required) provided.now) links.old.list.items links.new.list.items is_full) }
{
    for end in provided {
        if add_pair(alloc, d, *end, required, matched, links)? {
            return Ok(true);
        }
    }
    Ok(false)
}

/// Adds the links of the provided ports of an interface below a gate with a required one, unless they were added before.
fn add_column(
    alloc: Global,
    d: &Description,
    provided: Gate,
    interface: u32,
    first: &[PortEnd],
    end: PortEnd,
    matched: &mut Matched,
    links: &mut Links,
) -> Result<bool, Memory>
    requires matched { IsAdding d.now matched.old links.old.list.items }
    requires first { AreOf d.now provided interface first.now }
    ensures matched { OnOk result (IsAdding d.now matched.new links.new.list.items) }
    ensures grown { IfOk result (λ is_full. Grown (AnyOf (λ (p : PortEnd). IsPairLink d.now p end) first.now) links.old.list.items links.new.list.items is_full) }
{
    let crossing = Crossing::Column(provided, interface, end);
    if matched.is_crossed(crossing) {
        return Ok(false);
    }
    if add_providers(alloc, d, first, end, matched, links)? {
        return Ok(true);
    }
    matched.note_crossed(crossing)?;
    Ok(false)
}

fn add_columns(
    alloc: Global,
    d: &Description,
    provided: Gate,
    interface: u32,
    first: &[PortEnd],
    second: &[PortEnd],
    matched: &mut Matched,
    links: &mut Links,
) -> Result<bool, Memory>
    requires matched { IsAdding d.now matched.old links.old.list.items }
    requires first { AreOf d.now provided interface first.now }
    ensures matched { OnOk result (IsAdding d.now matched.new links.new.list.items) }
    ensures grown { IfOk result (λ is_full. Grown (AnyOf (λ (r : PortEnd). AnyOf (λ (p : PortEnd). IsPairLink d.now p r) first.now) second.now) links.old.list.items links.new.list.items is_full) }
{
    for end in second {
        if add_column(alloc, d, provided, interface, first, *end, matched, links)? {
            return Ok(true);
        }
    }
    Ok(false)
}

/// Adds the links of the provided ports of one interface with the required ones of another, by the ports of the side that
/// has less of them: each of these is looked up, and what was added before costs nothing more.
fn add_between(
    alloc: Global,
    d: &Description,
    provided: Gate,
    required: Gate,
    pair: (u32, u32),
    first: &[PortEnd],
    second: &[PortEnd],
    matched: &mut Matched,
    links: &mut Links,
) -> Result<bool, Memory>
    requires matched { IsAdding d.now matched.old links.old.list.items }
    requires first { AreOf d.now provided pair.0 first.now }
    requires second { AreOf d.now required pair.1 second.now }
    ensures matched { OnOk result (IsAdding d.now matched.new links.new.list.items) }
    ensures grown { IfOk result (λ is_full. Grown (IsCrossLink d.now first.now second.now) links.old.list.items links.new.list.items is_full) }
{
    if first.len() <= second.len() {
        let is_full = add_rows(alloc, d, first, required, pair.1, second, matched, links)?;
        return Ok(is_full);
    }
    let is_full = add_columns(alloc, d, provided, pair.0, first, second, matched, links)?;
    Ok(is_full)
}

fn add_interfaces(
    alloc: Global,
    d: &Description,
    provided: Gate,
    required: Gate,
    pair: (u32, u32),
    first: &Groups,
    second: &Groups,
    matched: &mut Matched,
    links: &mut Links,
) -> Result<bool, Memory>
    requires matched { IsAdding d.now matched.old links.old.list.items }
    requires first { AreOf d.now provided pair.0 (under (get nat_eq first.now pair.0)) }
    requires second { AreOf d.now required pair.1 (under (get nat_eq second.now pair.1)) }
    ensures matched { OnOk result (IsAdding d.now matched.new links.new.list.items) }
    ensures grown { IfOk result (λ is_full. Grown (IsBetween d.now first.now second.now pair) links.old.list.items links.new.list.items is_full) }
{
    let firsts = group_of(first, pair.0);
    let seconds = group_of(second, pair.1);
    let is_full = add_between(
        alloc, d, provided, required, pair, firsts, seconds, matched, links,
    )?;
    Ok(is_full)
}

/// Adds the links of the ports below two gates, given which pairs of their interfaces share an item, if all ports of these
/// interfaces are at hand.
pub fn add_known(
    alloc: Global,
    d: &Description,
    provided: Gate,
    required: Gate,
    pairs: &[(u32, u32)],
    first: &Groups,
    second: &Groups,
    matched: &mut Matched,
    links: &mut Links,
) -> Result<bool, Memory>
    requires matched { IsAdding d.now matched.old links.old.list.items }
    requires first { HaveFirsts d.now provided pairs.now first.now }
    requires second { HaveSeconds d.now required pairs.now second.now }
    ensures matched { OnOk result (IsAdding d.now matched.new links.new.list.items) }
    ensures grown { IfOk result (λ is_full. Grown (AnyOf (IsBetween d.now first.now second.now) pairs.now) links.old.list.items links.new.list.items is_full) }
{
    for pair in pairs {
        if add_interfaces(
            alloc, d, provided, required, *pair, first, second, matched, links,
        )? {
            return Ok(true);
        }
    }
    Ok(false)
}
