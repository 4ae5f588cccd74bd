//! Maps with a list for each key.

ghost use Rattle.std.specs.Prelude.{◌≡◌, ◌↔◌, ◌⊎◌, ℕ, IfOk, OnOk, IsTrue};
ghost use Rattle.indexmap.specs.IndexMap.{get};
ghost use Rattle.composition_tables.specs.Multi.{under};
ghost use Rattle.description_types.specs.Members.{Among};

use indexmap::IndexMap;
use rte_text::Memory;
use std::alloc::Global;
use std::hash::Hash;

/// Adds one more value under a key, after those that are there.
pub fn add_under<K: Eq + Hash + Copy, V: Drop>(
    alloc: Global,
    map: &mut IndexMap<K, Vec<V>>,
    key: K,
    value: V,
) -> Result<(), Memory>
    ensures { OnOk result ((q : K) (x : V) → Among x (under (get K.eq map.new q)) ↔ (Among x (under (get K.eq map.old q)) ⊎ ((x ≡ value) × IsTrue (K.eq key q)))) }
{
    let mut list = match map.swap_remove(&key) {
        Some(list) => list,
        None => Vec::new(alloc),
    };
    list.push(value)?;
    map.insert(key, list)?;
    Ok(())
}
