//! Pairs of interfaces that share an item.

ghost use Rattle.std.specs.Prelude.{◌≡◌, ◌↔◌, ◌⊎◌, ℕ, List, IfOk, OnOk};
ghost use Rattle.std.specs.Borrow.{Bor};
ghost use Rattle.indexmap.specs.IndexMap.{get};
ghost use Rattle.description_types.specs.Items.{interface_at};
ghost use Rattle.end_search.specs.Matching.{AreListed};
ghost use Rattle.description_types.specs.Members.{Among};
ghost use Rattle.end_search.specs.Sharing.{interface_keys, keys_of, same_item, IsIndexed, SharesKey, AreShared};
ghost use Rattle.composition_tables.specs.Multi.{under};

use crate::interfaces::Listed;
use composition_tables::multi::add_under;
use description_types::Description;
use indexmap::{IndexMap, IndexSet};
use rte_text::Memory;
use std::alloc::Global;

/// For each key of items the interfaces that have it.
pub type Index<'a> = IndexMap<(u8, &'a [u8]), Vec<u32>>;

fn note_keys<'a>(
    alloc: Global,
    interface: u32,
    keys: &[(u8, &'a [u8])],
    index: &mut Index<'a>,
) -> Result<(), Memory>
    ensures stays { OnOk result ((q : ℕ × Bor (List ℕ)) (i : ℕ) → Among i (under (get same_item index.old q)) → Among i (under (get same_item index.new q))) }
    ensures has { OnOk result ((q : ℕ × Bor (List ℕ)) → Among (q.0, q.1.now) (keys_of keys.now) → Among interface (under (get same_item index.new q))) }
{
    for place in 0..keys.len() {
        add_under(alloc, index, keys[place], interface)?;
    }
    Ok(())
}

fn note_interface<'a>(
    alloc: Global,
    d: &Description,
    interfaces: &[Listed<'a>],
    interface: u32,
    index: &mut Index<'a>,
) -> Result<(), Memory>
    requires { AreListed d.now interfaces.now }
    ensures stays { OnOk result ((q : ℕ × Bor (List ℕ)) (i : ℕ) → Among i (under (get same_item index.old q)) → Among i (under (get same_item index.new q))) }
    ensures has { OnOk result ((q : ℕ × Bor (List ℕ)) → Among (q.0, q.1.now) (interface_keys (interface_at d.now interface)) → Among interface (under (get same_item index.new q))) }
{
    match interfaces.get(interface as usize) {
        Some(listed) => {
            note_keys(alloc, interface, listed.keys.as_slice(), index)?;
            Ok(())
        }
        None => Ok(()),
    }
}

/// The keys of some interfaces, each with those that have it.
pub fn index_of<'a>(
    alloc: Global,
    d: &Description,
    interfaces: &[Listed<'a>],
    chosen: &[u32],
) -> Result<Index<'a>, Memory>
    requires { AreListed d.now interfaces.now }
    ensures { IfOk result (λ index. IsIndexed d.now chosen.now index) }
{
    let mut index = IndexMap::new(alloc);
    for interface in chosen {
        note_interface(alloc, d, interfaces, *interface, &mut index)?;
    }
    Ok(index)
}

fn note_pair(pair: (u32, u32), pairs: &mut IndexSet<(u32, u32)>) -> Result<(), Memory>
    ensures { OnOk result ((k : ℕ × ℕ) → Among k pairs.new.keys ↔ (Among k pairs.old.keys ⊎ (k ≡ pair))) }
{
    pairs.insert(pair)?;
    Ok(())
}

fn note_pairs(
    interface: u32,
    others: &[u32],
    pairs: &mut IndexSet<(u32, u32)>,
) -> Result<(), Memory>
    ensures stays { OnOk result ((k : ℕ × ℕ) → Among k pairs.old.keys → Among k pairs.new.keys) }
    ensures has { OnOk result ((j : ℕ) → Among j others.now → Among (interface, j) pairs.new.keys) }
{
    for other in others {
        note_pair((interface, *other), pairs)?;
    }
    Ok(())
}

fn under_key<'b, 'a>(index: &'b Index<'a>, key: (u8, &'a [u8])) -> &'b [u32]
    ensures { result.now ≡ under (get same_item index.now key.entry) }
{
    match index.get(&key) {
        Some(list) => list.as_slice(),
        None => &[],
    }
}

fn note_partners<'a>(
    interface: u32,
    keys: &[(u8, &'a [u8])],
    index: &Index<'a>,
    pairs: &mut IndexSet<(u32, u32)>,
) -> Result<(), Memory>
    ensures stays { OnOk result ((k : ℕ × ℕ) → Among k pairs.old.keys → Among k pairs.new.keys) }
    ensures has { OnOk result ((q : ℕ × Bor (List ℕ)) (j : ℕ) → Among q keys.now → Among j (under (get same_item index.now q)) → Among (interface, j) pairs.new.keys) }
{
    for place in 0..keys.len() {
        note_pairs(interface, under_key(index, keys[place]), pairs)?;
    }
    Ok(())
}

fn note_shared<'a>(
    d: &Description,
    interfaces: &[Listed<'a>],
    interface: u32,
    index: &Index<'a>,
    pairs: &mut IndexSet<(u32, u32)>,
) -> Result<(), Memory>
    requires { AreListed d.now interfaces.now }
    ensures stays { OnOk result ((k : ℕ × ℕ) → Among k pairs.old.keys → Among k pairs.new.keys) }
    ensures has { OnOk result ((others : List ℕ) → IsIndexed d.now others index.now → (j : ℕ) → Among j others → SharesKey d.now interface j → Among (interface, j) pairs.new.keys) }
{
    match interfaces.get(interface as usize) {
        Some(listed) => {
            note_partners(interface, listed.keys.as_slice(), index, pairs)?;
            Ok(())
        }
        None => Ok(()),
    }
}

/// The pairs of one of these interfaces and one of the indexed ones that share a key. Looking costs what these have, and
/// what is found.
pub fn partners<'a>(
    alloc: Global,
    d: &Description,
    interfaces: &[Listed<'a>],
    chosen: &[u32],
    index: &Index<'a>,
) -> Result<IndexSet<(u32, u32)>, Memory>
    requires { AreListed d.now interfaces.now }
    ensures { IfOk result (λ pairs. (others : List ℕ) → IsIndexed d.now others index.now → AreShared d.now chosen.now others pairs.keys) }
{
    let mut pairs = IndexSet::new(alloc);
    for interface in chosen {
        note_shared(d, interfaces, *interface, index, &mut pairs)?;
    }
    Ok(pairs)
}
