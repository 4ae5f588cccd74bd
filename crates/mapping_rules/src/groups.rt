//! Values under keys.

ghost use Rattle.std.specs.Prelude.{◌≡◌, [], ◌∷◌, ◌++◌, IfOk, OnOk, if◌then◌else◌};
ghost use Rattle.indexmap.specs.IndexMap.{get};
ghost use Rattle.mapping_rules.specs.Groups.{under, values_at, AreGrouped};

use indexmap::IndexMap;
use rte_text::Memory;
use std::alloc::Global;
use std::hash::Hash;

/// Keys with values, in order, and all values of each key, found by hash.
#[derive(Drop)]
pub struct Groups<K: Eq + Hash + Copy, V: Copy + Drop> {
    pub entries: Vec<(K, V)>,
    lists: IndexMap<K, Vec<V>>,
    ghost known: { AreGrouped K.eq entries.items lists },
}

fn add_under<K: Eq + Hash + Copy, V: Copy + Drop>(
    alloc: Global,
    map: &mut IndexMap<K, Vec<V>>,
    key: K,
    value: V,
) -> Result<(), Memory>
    ensures { OnOk result ((q : K) → under (get K.eq map.new q) ≡ under (get K.eq map.old q) ++ (if K.eq q key then value ∷ [] else [])) }
{
    let mut list = match map.swap_remove(&key) {
        Some(list) => list,
        None => Vec::new(alloc),
    };
    list.push(value)?;
    map.insert(key, list)?;
    Ok(())
}

fn lists_of<K: Eq + Hash + Copy, V: Copy + Drop>(
    alloc: Global,
    entries: &[(K, V)],
) -> Result<IndexMap<K, Vec<V>>, Memory>
    ensures { IfOk result (λ lists. AreGrouped K.eq entries.now lists) }
{
    let mut lists = IndexMap::new(alloc);
    for entry in entries {
        add_under(alloc, &mut lists, entry.0, entry.1)?;
    }
    Ok(lists)
}

impl<K: Eq + Hash + Copy, V: Copy + Drop> Groups<K, V> {
    /// Groups these entries by their keys.
    pub fn new(alloc: Global, entries: Vec<(K, V)>) -> Result<Groups<K, V>, Memory>
        ensures { IfOk result (λ groups. groups.entries.items ≡ entries.items) }
    {
        let lists = lists_of(alloc, entries.as_slice())?;
        Ok(Groups { entries, lists })
    }

    /// The values of a key, in the order of the entries.
    pub fn at(&self, key: K) -> &[V]
        ensures { result.now ≡ values_at (K.eq key) self.now.entries.items }
    {
        match self.lists.get(&key) {
            Some(list) => list.as_slice(),
            None => &[],
        }
    }
}
