//! Where keys stand first.

ghost use Rattle.std.specs.Prelude.{◌≡◌, [], ◌∷◌, ◌++◌, IfOk, OnOk};
ghost use Rattle.std.specs.List.{position_from};
ghost use Rattle.std.specs.Map.{keys_of, lookup};

use crate::table::Table;
use rte_text::Memory;
use std::alloc::Global;
use std::hash::Hash;
use std::marker::Model;

/// Keys in an order, seen as their list, and where each stands first, found by hash.
#[derive(Drop)]
pub struct Positions<K: Eq + Hash + Copy> {
    table: Table<K, usize>,
}

impl<K: Eq + Hash + Copy> Model for Positions<K> {
    ghost use Rattle.std.specs.Prelude.{◌≡◌, List};
    ghost use Rattle.std.specs.Map.{keys_of};
    ghost use Rattle.plan_numbers.specs.Positions.{IsNumbering};

    ghost Value = { List K };

    ghost view = { λ p. keys_of p.table.entries.items };

    ghost invariant = { λ p. IsNumbering K.eq p.table.entries.items };
}

fn push_entry<K: Copy>(list: &mut Vec<(K, usize)>, key: K, number: usize) -> Result<(), Memory>
    ensures { OnOk result (list.new.items ≡ list.old.items ++ (key, number) ∷ []) }
{
    list.push((key, number))?;
    Ok(())
}

fn entries_of<K: Eq + Hash + Copy>(alloc: Global, keys: &[K]) -> Result<Vec<(K, usize)>, Memory>
    ensures keys { IfOk result (λ entries. keys_of entries.items ≡ keys.now) }
    ensures numbers { IfOk result (λ entries. (q : K) → lookup (K.eq q) entries.items ≡ position_from (K.eq q) 0 keys.now) }
{
    let mut list = Vec::with_capacity(alloc, keys.len())?;
    for (number, key) in keys.iter().enumerate() {
        push_entry(&mut list, *key, number)?;
    }
    Ok(list)
}

impl<K: Eq + Hash + Copy> Positions<K> {
    ghost use Rattle.std.specs.Prelude.{◌≡◌, IfOk, length};
    ghost use Rattle.std.specs.List.{position_from};

    /// The keys with their positions.
    pub fn of(alloc: Global, keys: &[K]) -> Result<Positions<K>, Memory>
        ensures { IfOk result (λ positions. positions ≡ keys.now) }
    {
        let entries = entries_of(alloc, keys)?;
        let table = Table::new(alloc, entries)?;
        Ok(Positions { table })
    }

    /// The first position of a key.
    pub fn find(&self, key: K) -> Option<usize>
        ensures { result ≡ position_from (K.eq key) 0 self.now }
    {
        self.table.find(key)
    }

    /// How many keys there are.
    pub fn len(&self) -> usize
        ensures { result ≡ length self.now }
    {
        self.table.entries.len()
    }
}
