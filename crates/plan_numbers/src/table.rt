//! Tables of the first values of keys.

ghost use Rattle.std.specs.Prelude.{◌≡◌, IfOk, OnOk, Some};
ghost use Rattle.std.specs.Map.{lookup};
ghost use Rattle.std.specs.Option.{option_or};
ghost use Rattle.indexmap.specs.IndexMap.{Updates, get};
ghost use Rattle.plan_numbers.specs.Tables.{HasFirsts};

use indexmap::IndexMap;
use rte_text::Memory;
use std::alloc::Global;
use std::hash::Hash;

/// Keys with their values, in order, and the first value of each key, found by hash.
#[derive(Drop)]
pub struct Table<K: Eq + Hash + Copy, V: Copy> {
    pub entries: Vec<(K, V)>,
    firsts: IndexMap<K, V>,
    ghost known: { HasFirsts K.eq entries.items firsts },
}

fn note<K: Eq + Hash + Copy, V: Copy>(
    map: &mut IndexMap<K, V>,
    key: K,
    value: V,
) -> Result<(), Memory>
    ensures { OnOk result (Updates K.eq map.old map.new key (option_or (get K.eq map.old key) (Some value))) }
{
    map.entry(key)?.or_insert(value);
    Ok(())
}

fn firsts_of<K: Eq + Hash + Copy, V: Copy>(
    alloc: Global,
    entries: &[(K, V)],
) -> Result<IndexMap<K, V>, Memory>
    ensures { IfOk result (λ firsts. HasFirsts K.eq entries.now firsts) }
{
    let mut firsts = IndexMap::with_capacity(alloc, entries.len())?;
    for entry in entries {
        note(&mut firsts, entry.0, entry.1)?;
    }
    Ok(firsts)
}

impl<K: Eq + Hash + Copy, V: Copy> Table<K, V> {
    /// A table of these entries.
    pub fn new(alloc: Global, entries: Vec<(K, V)>) -> Result<Table<K, V>, Memory>
        ensures { IfOk result (λ table. table.entries.items ≡ entries.items) }
    {
        let firsts = firsts_of(alloc, entries.as_slice())?;
        Ok(Table { entries, firsts })
    }

    /// The value of the first entry with this key. None if there is none.
    pub fn find(&self, key: K) -> Option<V>
        ensures { result ≡ lookup (K.eq key) self.now.entries.items }
    {
        self.firsts.get(&key).copied()
    }
}
