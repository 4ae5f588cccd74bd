//! Coherent access lists.

ghost use Rattle.std.specs.Prelude.{◌≡◌, ◌-◌, ◌++◌, IfOk, OnOk, map, nat_le, sum_by};
ghost use Rattle.bus_semantics.specs.Common.{flat_map, list_all, is_in};
ghost use Rattle.plan_definitions.specs.Coherent.{item_of, read_by, written_by, listed, comes_in, comes_once, words_at, list_fits, incoherent_among, incoherent};

use crate::items::words_at;
use crate::tally::Tally;
use description_types::{Access, Component, ItemPair, Runnable, TypeTable};
use plan_definitions::Spot;
use rte_text::{Memory, Seq};
use runnable_lang::AccessKind;
use std::alloc::Global;

/// An item, after its port.
type PortItem = (u32, u32);

/// How many words the items of a list may have together.
const WORDS: usize = 16;

fn item_of(pair: ItemPair) -> PortItem
    ensures { result ≡ item_of pair }
{
    (pair.port, pair.item)
}

fn note_listed(found: &mut Vec<PortItem>, pairs: &[ItemPair]) -> Result<(), Memory>
    ensures { OnOk result (found.new.items ≡ found.old.items ++ map item_of pairs.now) }
{
    for pair in pairs {
        found.push(item_of(*pair))?;
    }
    Ok(())
}

fn listed(alloc: Global, lists: &[Seq<ItemPair>]) -> Result<Vec<PortItem>, Memory>
    ensures { IfOk result (λ found. found.items ≡ flat_map (λ pairs. map item_of pairs) lists.now) }
{
    let mut found = Vec::new(alloc);
    for pairs in lists {
        note_listed(&mut found, pairs.items())?;
    }
    Ok(found)
}

fn note_read(found: &mut Vec<PortItem>, access: Access) -> Result<(), Memory>
    ensures { OnOk result (found.new.items ≡ found.old.items ++ read_by access) }
{
    if matches!(access.kind, AccessKind::IRead) {
        found.push((access.port, access.item))?;
    }
    Ok(())
}

fn read(alloc: Global, accesses: &[Access]) -> Result<Vec<PortItem>, Memory>
    ensures { IfOk result (λ found. found.items ≡ flat_map read_by accesses.now) }
{
    let mut found = Vec::new(alloc);
    for access in accesses {
        note_read(&mut found, *access)?;
    }
    Ok(found)
}

fn note_written(found: &mut Vec<PortItem>, access: Access) -> Result<(), Memory>
    ensures { OnOk result (found.new.items ≡ found.old.items ++ written_by access) }
{
    if matches!(access.kind, AccessKind::IWrite) {
        found.push((access.port, access.item))?;
    }
    Ok(())
}

fn written(alloc: Global, accesses: &[Access]) -> Result<Vec<PortItem>, Memory>
    ensures { IfOk result (λ found. found.items ≡ flat_map written_by accesses.now) }
{
    let mut found = Vec::new(alloc);
    for access in accesses {
        note_written(&mut found, *access)?;
    }
    Ok(found)
}

/// What is left of a number of words after those of some items.
#[tactic(auto, using(crate::proofs::Spending::spent))]
fn words_left(left: usize, types: &TypeTable, component: &Component, pairs: &[ItemPair]) -> usize
    ensures { result ≡ left - sum_by (words_at types.now component.now) pairs.now }
{
    let mut rest = left;
    for pair in pairs {
        rest = rest.saturating_sub(words_at(types, component, *pair) as usize);
    }
    rest
}

/// Whether some items have at most 16 words. The count goes down, so that no sum is too large.
#[tactic(auto, using(crate::proofs::Spending::some_left))]
fn are_short(types: &TypeTable, component: &Component, pairs: &[ItemPair]) -> bool
    ensures { result ≡ nat_le (sum_by (words_at types.now component.now) pairs.now) 16 }
{
    words_left(WORDS + 1, types, component, pairs) > 0
}

fn comes_once(items: &Tally<PortItem>, pair: &ItemPair) -> bool
    ensures { result ≡ comes_once items.now.keys.items pair.now }
{
    items.comes_once(item_of(*pair))
}

/// Whether each item of a list comes once.
fn come_once(items: &Tally<PortItem>, pairs: &[ItemPair]) -> bool
    ensures { result ≡ list_all (comes_once items.now.keys.items) pairs.now }
{
    pairs.iter().all(|pair| comes_once(items, pair))
}

fn comes_in(items: &Tally<PortItem>, pair: &ItemPair) -> bool
    ensures { result ≡ comes_in items.now.keys.items pair.now }
{
    items.comes(item_of(*pair))
}

/// Whether each item of a list comes.
fn come(items: &Tally<PortItem>, pairs: &[ItemPair]) -> bool
    ensures { result ≡ list_all (comes_in items.now.keys.items) pairs.now }
{
    pairs.iter().all(|pair| comes_in(items, pair))
}

/// The items that the lists of a runnable name, those that it reads implicitly, and those that it writes so.
#[derive(Drop)]
struct Items<'a> {
    runnable: &'a Runnable,
    all: Tally<PortItem>,
    read: Tally<PortItem>,
    written: Tally<PortItem>,
    ghost are_listed: { all.keys.items ≡ listed runnable.now },
    ghost are_read: { read.keys.items ≡ flat_map read_by runnable.now.accesses },
    ghost are_written: { written.keys.items ≡ flat_map written_by runnable.now.accesses },
}

impl Items<'_> {
    fn of(alloc: Global, runnable: &Runnable) -> Result<Items<'_>, Memory>
        ensures { IfOk result (λ items. items.runnable.now ≡ runnable.now) }
    {
        let accesses = runnable.accesses.items();
        // Lists are dropped at less cost than tallies, so they all come first.
        let all = listed(alloc, runnable.coherent.items())?;
        let read = read(alloc, accesses)?;
        let written = written(alloc, accesses)?;
        let all = Tally::new(alloc, all)?;
        let read = Tally::new(alloc, read)?;
        let written = Tally::new(alloc, written)?;
        Ok(Items {
            runnable,
            all,
            read,
            written,
        })
    }

    fn fit(&self, types: &TypeTable, component: &Component, pairs: &[ItemPair]) -> bool
        ensures { result ≡ list_fits types.now component.now self.now.runnable.now pairs.now }
    {
        (pairs.len() >= 2 && pairs.len() <= 16)
            && (come_once(&self.all, pairs)
                && ((come(&self.read, pairs) || come(&self.written, pairs))
                    && are_short(types, component, pairs)))
    }

    #[tactic(auto, using(plan_definitions::proofs::Turns::first_more, plan_definitions::proofs::Turns::first_here, plan_definitions::proofs::Turns::first_none))]
    fn first_broken(
        &self,
        types: &TypeTable,
        component: &Component,
        runnable: usize,
    ) -> Option<Spot>
        ensures { result ≡ incoherent_among types.now component.now runnable self.now.runnable.now }
    {
        for (list, pairs) in self.runnable.coherent.items().iter().enumerate() {
            if !self.fit(types, component, pairs.items()) {
                return Some(Spot::List { runnable, list });
            }
        }
        None
    }
}

/// The first list of a runnable that does not fit. If there is none, nothing is counted.
fn incoherent_among(
    alloc: Global,
    types: &TypeTable,
    component: &Component,
    number: usize,
    runnable: &Runnable,
) -> Result<Option<Spot>, Memory>
    ensures { IfOk result (λ spot. spot ≡ incoherent_among types.now component.now number runnable.now) }
{
    if runnable.coherent.is_empty() {
        return Ok(None);
    }
    let items = Items::of(alloc, runnable)?;
    let spot = items.first_broken(types, component, number);
    drop(items);
    Ok(spot)
}

/// The first coherent access list of a component that does not fit: with fewer than 2 or more than 16 items, with an item that
/// comes again in the lists of its runnable, with one that its runnable does not access as it does the others, or with more than
/// 16 words.
#[tactic(auto, using(plan_definitions::proofs::Turns::first_more, plan_definitions::proofs::Turns::first_here, plan_definitions::proofs::Turns::first_none))]
pub fn incoherent(
    alloc: Global,
    types: &TypeTable,
    component: &Component,
) -> Result<Option<Spot>, Memory>
    ensures { IfOk result (λ spot. spot ≡ incoherent types.now component.now) }
{
    for (number, runnable) in component.behavior.runnables.items().iter().enumerate() {
        if let Some(spot) = incoherent_among(alloc, types, component, number, runnable)? {
            return Ok(Some(spot));
        }
    }
    Ok(None)
}
