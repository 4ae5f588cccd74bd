//! Groups of data elements that joins connect.

ghost use Rattle.std.specs.Prelude.{◌≡◌, ◌&&◌, ◌↔◌, ◌||◌, IfOk, IsTrue, OnOk};
ghost use Rattle.plan_definitions.specs.Common.{End, IsManyToMany, is_crowded, is_many_to_many};
ghost use Rattle.indexmap.specs.IndexSet.{contains};
ghost use Rattle.join_search.specs.Partners.{key_of, same_key, Key};

use crate::partners::{Degrees, Key, key_of_end};
use description_types::{End, Join};
use indexmap::IndexSet;
use rte_text::Memory;
use std::alloc::Global;

fn mark(marked: &mut IndexSet<Key>, end: End, is_marked: bool) -> Result<(), Memory>
    ensures { OnOk result ((q : Key) → contains same_key marked.new q ≡ ((is_marked && same_key (key_of end) q) || contains same_key marked.old q)) }
{
    if is_marked {
        marked.insert(key_of_end(end))?;
    }
    Ok(())
}

/// The provided ends that have several required ones, of which one has several provided ones.
#[derive(Drop)]
struct Crowded<'a> {
    joins: &'a [Join],
    ends: IndexSet<Key>,
    ghost known: { (e : End) → contains same_key ends (key_of e) ≡ is_crowded joins.now e },
}

impl Crowded<'_> {
    fn new<'a>(alloc: Global, degrees: &Degrees<'a>) -> Result<Crowded<'a>, Memory>
        ensures { IfOk result (λ crowded. crowded.joins.now ≡ degrees.now.joins.now) }
    {
        let ends = crowded_ends(alloc, degrees)?;
        Ok(Crowded {
            joins: degrees.joins,
            ends,
        })
    }

    fn has(&self, provided: End) -> bool
        ensures { result ≡ is_crowded self.now.joins.now provided }
    {
        !self.ends.is_empty() && self.ends.contains(&key_of_end(provided))
    }
}

fn crowded_ends(alloc: Global, degrees: &Degrees) -> Result<IndexSet<Key>, Memory>
    ensures { IfOk result (λ found. (e : End) → contains same_key found (key_of e) ≡ is_crowded degrees.now.joins.now e) }
{
    let mut found = IndexSet::new(alloc);
    for join in degrees.joins {
        mark(&mut found, join.provided, degrees.crowds(join))?;
    }
    Ok(found)
}

/// The required ends that are in a group of many to many: a crowded end provides them.
fn provided_by(alloc: Global, crowded: &Crowded) -> Result<IndexSet<Key>, Memory>
    ensures { IfOk result (λ found. (e : End) → contains same_key found (key_of e) ≡ is_many_to_many crowded.now.joins.now e) }
{
    let mut found = IndexSet::new(alloc);
    for join in crowded.joins {
        mark(&mut found, join.required, crowded.has(join.provided))?;
    }
    Ok(found)
}

/// The required ends that are in a group of many to many. An end is exactly if one of its provided ends has several required ones,
/// of which one has several provided ones: so it shows nearby, and is the same by all chains of joins.
pub fn many_to_many(alloc: Global, degrees: &Degrees) -> Result<IndexSet<Key>, Memory>
    ensures nearby { IfOk result (λ found. (e : End) → contains same_key found (key_of e) ≡ is_many_to_many degrees.now.joins.now e) }
    ensures groups { IfOk result (λ found. (e : End) → IsTrue (contains same_key found (key_of e)) ↔ IsManyToMany degrees.now.joins.now e) }
{
    let crowded = Crowded::new(alloc, degrees)?;
    provided_by(alloc, &crowded)
}
