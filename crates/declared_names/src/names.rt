//! Names, and where they stand.

ghost use Rattle.std.specs.Prelude.{◌≡◌, ◌<◌, ◌^◌, IfOk, length, map};
ghost use Rattle.serde_json.specs.View.{view};
ghost use Rattle.declared_names.specs.Names.{ArePlaced, has_at, has_name, position_at, position_in, short_names, text_of, texts};
ghost use Rattle.declared_names.specs.Sizes.{IsSmall};
ghost use Rattle.declared_names.specs.Values.{items_at};

use crate::values::{items_at, text_at, text_in};
use indexmap::IndexMap;
use rte_text::Memory;
use serde_json::Value;
use std::alloc::Global;
use std::marker::Model;

/// A list of at most so many names is looked through: that takes less than to look a name up by hash.
const FEW: usize = 8;

/// The names of a list, however long it is, with where each of more than a few stands.
#[derive(Drop)]
pub struct NameList<'a> {
    names: Vec<&'a str>,
    places: IndexMap<&'a str, usize>,
}

impl<'a> Model for NameList<'a> {
    ghost use Rattle.std.specs.Prelude.{ℕ, ◌<◌, List, length, map};
    ghost use Rattle.declared_names.specs.Names.{ArePlaced, text_of};

    ghost Value = { List (List ℕ) };

    ghost view = { λ p. map text_of p.names.items };

    ghost invariant = { λ p. 8 < length p.names.items → ArePlaced p.names.items p.places };
}

/// Where each of the names first stands.
fn places_of<'a>(alloc: Global, names: &[&'a str]) -> Result<IndexMap<&'a str, usize>, Memory>
    ensures { IfOk result (ArePlaced names.now) }
{
    let mut places = IndexMap::new(alloc);
    let mut left = names.len();
    while left > 0 {
        left -= 1;
        places.insert(names[left], left)?;
    }
    Ok(places)
}

/// Where the name first stands, and how many names there are where it is none of them.
#[tactic(auto, using(crate::proofs::Placed::place_turn))]
fn first_of(names: &[&str], name: &str) -> usize
    ensures { result ≡ position_in (map text_of names.now) name.now }
{
    for place in 0..names.len() {
        if names[place] == name {
            return place;
        }
    }
    names.len()
}

impl<'a> NameList<'a> {
    /// The list of these names. A name that is doubled stands where the first one does.
    pub fn of(alloc: Global, names: Vec<&'a str>) -> Result<NameList<'a>, Memory>
        ensures { IfOk result (λ p. p ≡ map text_of names.entry.items) }
    {
        let places = if names.len() <= FEW {
            IndexMap::new(alloc)
        } else {
            places_of(alloc, names.as_slice())?
        };
        Ok(NameList { names, places })
    }

    /// The names.
    pub fn names(&self) -> &[&'a str]
        ensures { map text_of result.now ≡ self.now }
    {
        self.names.as_slice()
    }

    /// How many names there are.
    pub fn count(&self) -> usize
        ensures { result ≡ length self.now }
    {
        self.names.len()
    }

    /// Where the name stands, and how many names there are where it is none of them.
    pub fn find(&self, name: &str) -> usize
        ensures { result ≡ position_in self.now name.now }
    {
        if self.names.len() <= FEW {
            return first_of(self.names.as_slice(), name);
        }
        match self.places.get(name) {
            Some(position) => *position,
            None => self.names.len(),
        }
    }

    /// Whether the name is one of them.
    pub fn has(&self, name: &str) -> bool
        ensures { result ≡ has_name self.now name.now }
    {
        self.find(name) < self.count()
    }
}

/// Whether the list of this position has the name.
pub fn has_at(lists: &[NameList], position: usize, name: &str) -> bool
    ensures { result ≡ has_at lists.now position name.now }
{
    match lists.get(position) {
        Some(names) => names.has(name),
        None => false,
    }
}

/// The names of a list of fewer than 2^32, with where each stands.
#[derive(Drop)]
pub struct Positions<'a> {
    list: NameList<'a>,
}

impl<'a> Model for Positions<'a> {
    ghost use Rattle.std.specs.Prelude.{ℕ, ◌<◌, ◌^◌, List, length};

    ghost Value = { List (List ℕ) };

    ghost view = { λ p. p.list };

    ghost invariant = { λ p. length p.list < 2 ^ 32 };
}

impl<'a> Positions<'a> {
    /// The positions of these names, of which there are fewer than 2^32; the first one's if a name is doubled.
    pub fn of(alloc: Global, names: Vec<&'a str>) -> Result<Positions<'a>, Memory>
        requires { length names.items < 2 ^ 32 }
        ensures { IfOk result (λ p. p ≡ map text_of names.entry.items) }
    {
        let list = NameList::of(alloc, names)?;
        Ok(Positions { list })
    }

    /// The names.
    pub fn names(&self) -> &[&'a str]
        ensures { map text_of result.now ≡ self.now }
    {
        self.list.names()
    }

    /// How many names there are.
    pub fn count(&self) -> u32
        ensures { result ≡ length self.now }
    {
        self.list.count() as u32
    }

    /// Where the name stands, and how many names there are if it is none of them.
    #[tactic(auto, using(crate::proofs::Placed::position_most))]
    pub fn find(&self, name: &str) -> u32
        ensures { result ≡ position_in self.now name.now }
    {
        self.list.find(name) as u32
    }
}

/// Where the name stands in the list of this position, and 0 if there is no such list.
pub fn find_at(lists: &[Positions], position: u32, name: &str) -> u32
    ensures { result ≡ position_at lists.now position name.now }
{
    match lists.get(position as usize) {
        Some(names) => names.find(name),
        None => 0,
    }
}

/// The short names of what is declared in a list.
pub fn short_names<'a>(alloc: Global, values: &'a [Value]) -> Result<Vec<&'a str>, Memory>
    ensures { IfOk result (λ names. map text_of names.items ≡ short_names (map view values.now)) }
{
    let mut names = Vec::new(alloc);
    for value in values {
        names.push(text_at(value, "shortName"))?;
    }
    Ok(names)
}

/// The texts of a list of them.
pub fn texts<'a>(alloc: Global, values: &'a [Value]) -> Result<Vec<&'a str>, Memory>
    ensures { IfOk result (λ names. map text_of names.items ≡ texts (map view values.now)) }
{
    let mut names = Vec::new(alloc);
    for value in values {
        names.push(text_in(value))?;
    }
    Ok(names)
}

/// What is declared in the array at the key, by its short names.
pub fn declared<'a>(alloc: Global, value: &'a Value, key: &str) -> Result<Positions<'a>, Memory>
    requires { IsSmall (view value.now) }
    ensures { IfOk result (λ p. p ≡ short_names (items_at key.now (view value.now))) }
{
    let names = short_names(alloc, items_at(value, key))?;
    Positions::of(alloc, names)
}

/// What is declared by the texts in the array at the key.
pub fn declared_texts<'a>(
    alloc: Global,
    value: &'a Value,
    key: &str,
) -> Result<Positions<'a>, Memory>
    requires { IsSmall (view value.now) }
    ensures { IfOk result (λ p. p ≡ texts (items_at key.now (view value.now))) }
{
    let names = texts(alloc, items_at(value, key))?;
    Positions::of(alloc, names)
}
