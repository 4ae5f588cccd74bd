//! The ports at which an end breaks a rule, so that others need not be looked through item by item.

ghost use Rattle.std.specs.Prelude.{◌≡◌, ◌&&◌, ◌||◌, IfOk, OnOk, false, true};
ghost use Rattle.plan_definitions.specs.Common.{End, are_several, is_many_to_many, providers};
ghost use Rattle.indexmap.specs.IndexSet.{contains};
ghost use Rattle.join_search.specs.Partners.{key_of, same_key};
ghost use Rattle.join_search.specs.Suspects.{PortKey, among_at, port_of, same_port, several_at};

use crate::groups::many_to_many;
use crate::item::Item;
use crate::partners::{Degrees, Key, key_of, key_of_end};
use description_types::{End, Join};
use indexmap::IndexSet;
use rte_text::Memory;
use std::alloc::Global;

/// A port, of an instance or of the environment, as a key of a set.
type PortKey = (Option<usize>, usize);

fn port_of(end: End) -> PortKey
    ensures { result ≡ port_of end }
{
    let item = Item::of(end);
    (item.instance(), item.port())
}

fn mark(marked: &mut IndexSet<PortKey>, end: End, is_marked: bool) -> Result<(), Memory>
    ensures { OnOk result ((q : PortKey) → contains same_port marked.new q ≡ ((is_marked && same_port (port_of end) q) || contains same_port marked.old q)) }
{
    if is_marked {
        marked.insert(port_of(end))?;
    }
    Ok(())
}

fn ports_of_several(alloc: Global, degrees: &Degrees) -> Result<IndexSet<PortKey>, Memory>
    ensures { IfOk result (λ found. (q : PortKey) → contains same_port found q ≡ several_at degrees.now.joins.now q) }
{
    let mut found = IndexSet::new(alloc);
    for join in degrees.joins {
        let several = degrees.has_several_providers(&Item::of(join.required));
        mark(&mut found, join.required, several)?;
    }
    Ok(found)
}

/// The ports of required ends that have several provided ones.
fn served_by_several(alloc: Global, degrees: &Degrees) -> Result<IndexSet<PortKey>, Memory>
    ensures { IfOk result (λ found. (e : End) → are_several (providers degrees.now.joins.now e) ≡ true → contains same_port found (port_of e) ≡ true) }
{
    if degrees.are_single() {
        return Ok(IndexSet::new(alloc));
    }
    ports_of_several(alloc, degrees)
}

fn ports_of_crowded(
    alloc: Global,
    joins: &[Join],
    crowded: &IndexSet<Key>,
) -> Result<IndexSet<PortKey>, Memory>
    ensures { IfOk result (λ found. (q : PortKey) → contains same_port found q ≡ among_at (contains same_key crowded.now) joins.now q) }
{
    let mut found = IndexSet::new(alloc);
    for join in joins {
        let is_among = crowded.contains(&key_of_end(join.required));
        mark(&mut found, join.required, is_among)?;
    }
    Ok(found)
}

/// The ports of these required ends, which are those in groups of many to many.
fn crowded_ports(
    alloc: Global,
    joins: &[Join],
    crowded: &IndexSet<Key>,
) -> Result<IndexSet<PortKey>, Memory>
    requires { (e : End) → contains same_key crowded.now (key_of e) ≡ is_many_to_many joins.now e }
    ensures { IfOk result (λ found. (e : End) → is_many_to_many joins.now e ≡ true → contains same_port found (port_of e) ≡ true) }
{
    if crowded.is_empty() {
        return Ok(IndexSet::new(alloc));
    }
    ports_of_crowded(alloc, joins, crowded)
}

/// The required ends in groups of many to many, and the ports at which an end breaks a rule.
#[derive(Drop)]
pub struct Suspects<'a> {
    joins: &'a [Join],
    /// The required ends in groups of many to many.
    crowded: IndexSet<Key>,
    /// The ports at which a required end has several provided ones.
    several_at: IndexSet<PortKey>,
    /// The ports at which a required end is in a group of many to many.
    crowded_at: IndexSet<PortKey>,
    ghost known: { (e : End) → contains same_key crowded (key_of e) ≡ is_many_to_many joins.now e },
    ghost several: { (e : End) → are_several (providers joins.now e) ≡ true → contains same_port several_at (port_of e) ≡ true },
    ghost many: { (e : End) → is_many_to_many joins.now e ≡ true → contains same_port crowded_at (port_of e) ≡ true },
}

impl Suspects<'_> {
    /// The suspects among the ends of joins.
    pub fn new<'a>(alloc: Global, degrees: &Degrees<'a>) -> Result<Suspects<'a>, Memory>
        ensures { IfOk result (λ suspects. suspects.joins.now ≡ degrees.now.joins.now) }
    {
        let crowded = many_to_many(alloc, degrees)?;
        let several_at = served_by_several(alloc, degrees)?;
        let crowded_at = crowded_ports(alloc, degrees.joins, &crowded)?;
        Ok(Suspects {
            joins: degrees.joins,
            crowded,
            several_at,
            crowded_at,
        })
    }

    /// Whether a required end is in a group of many to many.
    pub fn is_crowded(&self, item: &Item) -> bool
        ensures { result ≡ is_many_to_many self.now.joins.now item.now }
    {
        self.crowded.contains(&key_of(item))
    }

    /// Whether a required end of a port may have several provided ones.
    pub fn may_be_several(&self, instance: Option<usize>, port: usize) -> bool
        ensures { (e : End) → result ≡ false → port_of e ≡ (instance, port) → are_several (providers self.now.joins.now e) ≡ false }
    {
        has_port(&self.several_at, instance, port)
    }

    /// Whether a required end of a port may be in a group of many to many.
    pub fn may_be_crowded(&self, instance: Option<usize>, port: usize) -> bool
        ensures { (e : End) → result ≡ false → port_of e ≡ (instance, port) → is_many_to_many self.now.joins.now e ≡ false }
    {
        has_port(&self.crowded_at, instance, port)
    }
}

/// Whether a port is one of these.
fn has_port(ports: &IndexSet<PortKey>, instance: Option<usize>, port: usize) -> bool
    ensures { result ≡ contains same_port ports.now (instance, port) }
{
    !ports.is_empty() && ports.contains(&(instance, port))
}
