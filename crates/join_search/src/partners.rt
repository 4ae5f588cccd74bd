//! Who is joined with an end.

ghost use Rattle.std.specs.Prelude.{◌≡◌, ◌||◌, IfOk, IfSome, IsTrue, OnOk, Some, false, not};
ghost use Rattle.description_types.specs.declared.flat.End.{End};
ghost use Rattle.indexmap.specs.IndexMap.{Updates, get};
ghost use Rattle.indexmap.specs.IndexSet.{contains};
ghost use Rattle.plan_definitions.specs.Joins.{are_several, crowds, is_none, providers, same_end};
ghost use Rattle.join_search.specs.declared.partners.Side.TheVariants as side;
ghost use Rattle.join_search.specs.Partners.{AreKept, AreSingle, IsKeptBy, Key, TellsAll, has_several, key_of, other, own, same_key, with_one};

use crate::item::Item;
use description_types::{End, Join};
use indexmap::{IndexMap, IndexSet};
use rte_text::Memory;
use std::alloc::Global;

/// A side of a join.
#[derive(Clone, Copy)]
pub enum Side {
    Provided,
    Required,
}

impl Side {
    fn own(self, join: &Join) -> End
        ensures { result ≡ own self join.now }
    {
        match self {
            Side::Provided => join.provided,
            Side::Required => join.required,
        }
    }

    fn other(self, join: &Join) -> End
        ensures { result ≡ other self join.now }
    {
        match self {
            Side::Provided => join.required,
            Side::Required => join.provided,
        }
    }
}

/// What is kept of the ends that are joined with an end: the first, and whether there is another.
#[derive(Clone, Copy)]
pub struct Partners {
    first: End,
    several: bool,
}

/// An item as a key of a map.
pub type Key = (Option<usize>, usize, usize);

/// The key of an item.
pub fn key_of(item: &Item) -> Key
    ensures { result ≡ key_of item.now }
{
    (item.instance(), item.port(), item.element())
}

/// The key of an end.
pub fn key_of_end(end: End) -> Key
    ensures { result ≡ key_of end }
{
    let item = Item::of(end);
    key_of(&item)
}

fn same_end(a: End, b: End) -> bool
    ensures { result ≡ same_end a b }
{
    key_of_end(a) == key_of_end(b)
}

fn kept_of(map: &IndexMap<Key, Partners>, item: &Item) -> Option<Partners>
    ensures { result ≡ get same_key map.now (key_of item.now) }
{
    map.get(&key_of(item)).copied()
}

fn with_one(kept: Option<Partners>, partner: End) -> Partners
    ensures { result ≡ with_one kept partner }
{
    match kept {
        None => Partners {
            first: partner,
            several: false,
        },
        Some(found) => Partners {
            first: found.first,
            several: found.several || !same_end(found.first, partner),
        },
    }
}

fn note(map: &mut IndexMap<Key, Partners>, end: End, partner: End) -> Result<(), Memory>
    ensures { OnOk result (Updates same_key map.old map.new (key_of end) (Some (with_one (get same_key map.old (key_of end)) partner))) }
{
    let kept = map
        .entry(key_of_end(end))?
        .or_insert(with_one(None, partner));
    *kept = with_one(Some(*kept), partner);
    Ok(())
}

fn kept_of_all(alloc: Global, side: Side, joins: &[Join]) -> Result<IndexMap<Key, Partners>, Memory>
    ensures { IfOk result (λ kept. AreKept side joins.now kept) }
{
    let mut kept = IndexMap::with_capacity(alloc, joins.len())?;
    for join in joins {
        note(&mut kept, side.own(join), side.other(join))?;
    }
    Ok(kept)
}

fn has_several(kept: &IndexMap<Key, Partners>, item: &Item) -> bool
    ensures { result ≡ has_several (get same_key kept.now (key_of item.now)) }
{
    match kept_of(kept, item) {
        None => false,
        Some(found) => found.several,
    }
}

/// Notes a required end. The answer is whether it was not among those before.
fn note_required(found: &mut IndexSet<Key>, end: End) -> Result<bool, Memory>
    ensures is_new { IfOk result (λ is_new. is_new ≡ not (contains same_key found.old (key_of end))) }
    ensures found { OnOk result ((q : Key) → contains same_key found.new q ≡ (same_key (key_of end) q || contains same_key found.old q)) }
{
    let is_new = found.insert(key_of_end(end))?;
    Ok(is_new)
}

/// The required ends, if each has one partner alone.
fn single_ends(alloc: Global, joins: &[Join]) -> Result<Option<IndexSet<Key>>, Memory>
    ensures { IfOk result (λ found. IfSome found (AreSingle joins.now)) }
{
    let mut found = IndexSet::with_capacity(alloc, joins.len())?;
    for join in joins {
        if !note_required(&mut found, join.required)? {
            return Ok(None);
        }
    }
    Ok(Some(found))
}

/// What is kept of the ends of joins, as far as it matters.
#[derive(Drop)]
pub enum Kept {
    /// The required ends, none of which has several partners. Then nobody asks for those of provided ends.
    Single(IndexSet<Key>),
    /// The partners of required ends, and of provided ones.
    Several(IndexMap<Key, Partners>, IndexMap<Key, Partners>),
}

/// The partners of all ends.
fn several_over(alloc: Global, joins: &[Join]) -> Result<Kept, Memory>
    ensures { IfOk result (IsKeptBy joins.now) }
{
    let required = kept_of_all(alloc, Side::Required, joins)?;
    match kept_of_all(alloc, Side::Provided, joins) {
        Ok(provided) => Ok(Kept::Several(required, provided)),
        Err(memory) => {
            drop(required);
            Err(memory)
        }
    }
}

fn kept_over(alloc: Global, joins: &[Join]) -> Result<Kept, Memory>
    ensures { IfOk result (IsKeptBy joins.now) }
{
    match single_ends(alloc, joins)? {
        Some(ends) => Ok(Kept::Single(ends)),
        None => several_over(alloc, joins),
    }
}

/// How many partners the ends of joins have, as far as it matters.
#[derive(Drop)]
pub struct Degrees<'a> {
    pub joins: &'a [Join],
    kept: Kept,
    ghost known: { TellsAll joins.now kept },
}

impl Degrees<'_> {
    /// The degrees of the ends of these joins.
    #[tactic(auto, using(crate::proofs::Keeping::tells_all))]
    pub fn new(alloc: Global, joins: &[Join]) -> Result<Degrees<'_>, Memory>
        ensures { IfOk result (λ degrees. degrees.joins.now ≡ joins.now) }
    {
        let kept = kept_over(alloc, joins)?;
        Ok(Degrees { joins, kept })
    }

    /// Whether no required end has several provided ones, if that is known at once.
    pub fn are_single(&self) -> bool
        ensures { IsTrue result → (e : End) → are_several (providers self.now.joins.now e) ≡ false }
    {
        match &self.kept {
            Kept::Single(_) => true,
            Kept::Several(_, _) => false,
        }
    }

    /// Whether two provided ends or more are joined with a required one.
    pub fn has_several_providers(&self, required: &Item) -> bool
        ensures { result ≡ are_several (providers self.now.joins.now required.now) }
    {
        match &self.kept {
            Kept::Single(_) => false,
            Kept::Several(of_required, _) => has_several(of_required, required),
        }
    }

    /// Whether no provided end is joined with a required one.
    pub fn has_no_provider(&self, required: &Item) -> bool
        ensures { result ≡ is_none (providers self.now.joins.now required.now) }
    {
        match &self.kept {
            Kept::Single(ends) => !ends.contains(&key_of(required)),
            Kept::Several(of_required, _) => kept_of(of_required, required).is_none(),
        }
    }

    /// Whether both ends of a join have several partners.
    pub fn crowds(&self, join: &Join) -> bool
        ensures { result ≡ crowds self.now.joins.now join.now }
    {
        match &self.kept {
            Kept::Single(_) => false,
            Kept::Several(of_required, of_provided) => {
                has_several(of_provided, &Item::of(join.provided))
                    && has_several(of_required, &Item::of(join.required))
            }
        }
    }
}
