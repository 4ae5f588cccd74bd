//! How often keys come.

ghost use Rattle.std.specs.Prelude.{◌≡◌, ◌==◌, Some, IfOk, OnOk, nat_lt};
ghost use Rattle.indexmap.specs.IndexMap.{Updates, get};
ghost use Rattle.plan_definitions.specs.Counts.{count};
ghost use Rattle.component_rules.specs.Tallies.{AreTallied, noted};

use indexmap::IndexMap;
use rte_text::Memory;
use std::alloc::Global;
use std::hash::Hash;

/// Which of some keys come once, and which come again.
#[derive(Drop)]
pub struct Tally<K: Eq + Hash + Copy> {
    pub keys: Vec<K>,
    /// Whether a key comes again, for each that comes.
    again: IndexMap<K, bool>,
    ghost known: { AreTallied K.eq keys.items again },
}

fn noted(again: Option<bool>) -> bool
    ensures { Some result ≡ noted again }
{
    again.is_some()
}

fn note<K: Eq + Hash + Copy>(map: &mut IndexMap<K, bool>, key: K) -> Result<(), Memory>
    ensures { OnOk result (Updates K.eq map.old map.new key (noted (get K.eq map.old key))) }
{
    let again = noted(map.get(&key).copied());
    map.insert(key, again)?;
    Ok(())
}

fn again_of<K: Eq + Hash + Copy>(alloc: Global, keys: &[K]) -> Result<IndexMap<K, bool>, Memory>
    ensures { IfOk result (λ again. AreTallied K.eq keys.now again) }
{
    let mut again = IndexMap::new(alloc);
    for key in keys {
        note(&mut again, *key)?;
    }
    Ok(again)
}

impl<K: Eq + Hash + Copy> Tally<K> {
    /// A tally of these keys.
    pub fn new(alloc: Global, keys: Vec<K>) -> Result<Tally<K>, Memory>
        ensures { IfOk result (λ tally. tally.keys.items ≡ keys.items) }
    {
        let again = again_of(alloc, keys.as_slice())?;
        Ok(Tally { keys, again })
    }

    /// Whether the key comes exactly once.
    pub fn comes_once(&self, key: K) -> bool
        ensures { result ≡ (count (K.eq key) self.now.keys.items == 1) }
    {
        match self.again.get(&key) {
            Some(again) => !*again,
            None => false,
        }
    }

    /// Whether the key comes.
    pub fn comes(&self, key: K) -> bool
        ensures { result ≡ nat_lt 0 (count (K.eq key) self.now.keys.items) }
    {
        self.again.get(&key).is_some()
    }
}
