//! Names, and where they stand.

ghost use Rattle.std.specs.Prelude.{◌≡◌, ◌<◌, ◌^◌, ◌↔◌, ◌⊎◌, ℕ, List, IfOk, OnOk, Some, slice_get, option_map, length};
ghost use Rattle.std.specs.Borrow.{Bor};
ghost use Rattle.indexmap.specs.IndexMap.{get};
ghost use Rattle.end_search.specs.Tables.{names_of, same_name, ArePlaces};
ghost use Rattle.composition_tables.specs.Multi.{under};
ghost use Rattle.description_types.specs.Members.{Among};

use composition_tables::multi::add_under;
use indexmap::IndexMap;
use rte_text::Memory;
use std::alloc::Global;
use std::marker::Model;

/// Names in order, with the positions of each. One name may stand at several.
#[derive(Drop)]
pub struct Names<'a> {
    names: Vec<&'a [u8]>,
    count: u32,
    places: IndexMap<&'a [u8], Vec<u32>>,
}

impl<'a> Model for Names<'a> {
    ghost use Rattle.std.specs.Prelude.{◌≡◌, ℕ, List, length};
    ghost use Rattle.end_search.specs.Tables.{names_of, ArePlaces};

    ghost Value = { List (List ℕ) };

    ghost view = { λ n. names_of n.names.items };

    ghost invariant = { λ n. (n.count ≡ length (names_of n.names.items)) × ArePlaces (names_of n.names.items) n.places };
}

impl<'a> Names<'a> {
    /// The names, of which there are fewer than 2^32, with their positions.
    pub fn of(alloc: Global, names: Vec<&'a [u8]>) -> Result<Names<'a>, Memory>
        requires { length names.items < 2 ^ 32 }
        ensures { IfOk result (λ n. n ≡ names_of names.entry.items) }
    {
        let count = names.len() as u32;
        let mut places = IndexMap::new(alloc);
        for position in 0..count {
            add_under(alloc, &mut places, names[position as usize], position)?;
        }
        Ok(Names {
            names,
            count,
            places,
        })
    }

    /// How many names there are.
    pub fn count(&self) -> u32
        ensures { result ≡ length self.now }
    {
        self.count
    }

    /// The name at a position.
    pub fn at(&self, position: u32) -> Option<&'a [u8]>
        ensures { option_map (λ name. name.now) result ≡ slice_get self.now position }
    {
        self.names.get(position as usize).copied()
    }

    /// All positions of a name.
    pub fn find(&self, name: &[u8]) -> &[u32]
        ensures { (j : ℕ) → Among j result.now ↔ (slice_get self.now j ≡ Some name.now) }
    {
        match self.places.get(name) {
            Some(positions) => positions.as_slice(),
            None => &[],
        }
    }
}
