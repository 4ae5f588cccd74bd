//! Which items of pairs of interfaces are joined, found once for each pair.

ghost use Rattle.std.specs.Prelude.{◌≡◌, ◌≤◌, ◌<◌, ◌↔◌, ◌⊎◌, ℕ, List, IfOk, OnOk, IsTrue, length, nat_le};
ghost use Rattle.end_crossing.specs.declared.crossings.Crossing.{Crossing};
ghost use Rattle.composition_tables.specs.declared.links.Link.{Link};
ghost use Rattle.composition_tables.specs.declared.tree.PortEnd.{PortEnd};
ghost use Rattle.description_types.specs.Members.{Among};
ghost use Rattle.indexmap.specs.IndexMap.{get};
ghost use Rattle.end_search.specs.Gates.{IsShallow};
ghost use Rattle.end_crossing.specs.Crossings.{same_pair, AreJoining, IsAdding, IsMatched};
ghost use Rattle.end_search.specs.Matching.{AreMatches, HasFewItems};
ghost use Rattle.end_search.specs.Sides.{IsSide};
ghost use Rattle.end_search.specs.Sharing.{IsIndexed};
ghost use Rattle.description_types.specs.Items.{interface_at, ItemsJoin};
ghost use Rattle.composition_tables.specs.Multi.{under};
ghost use Rattle.composition_tables.specs.Trees.{IsTree};

use crate::crossings::Crossing;
use composition_tables::links::LINK_LIMIT;
use composition_tables::tree::{PortEnd, Tree};
use description_types::Description;
use end_search::gates::Gate;
use end_search::interfaces::Listed;
use end_search::matches::{interfaces_of, matches};
use end_search::near::{Near, nothing_near};
use end_search::sides::{Side, shared, side_of, weight};
use indexmap::{IndexMap, IndexSet};
use rte_text::Memory;
use std::alloc::Global;

/// What was found, so that it is found once: a provided interface or port stands before a required one.
#[derive(Drop)]
pub struct Matched<'a> {
    pub interfaces: Vec<Listed<'a>>,
    /// The joined items of pairs of interfaces.
    pub kept: IndexMap<(u32, u32), Vec<(u32, u32)>>,
    /// What is below gates.
    pub sides: IndexMap<Gate, Side<'a>>,
    /// How many interfaces and ends the sides have.
    pub weight: usize,
    /// The ends below ports, for further gates.
    pub near: Near,
    /// The pairs of ports whose links were added.
    pub done: IndexSet<(PortEnd, PortEnd)>,
    /// The crossings whose links were added.
    pub crossed: IndexSet<Crossing>,
}

/// How many interfaces and ends the sides that are kept have at most, but for the last one. Gates that are not split mostly
/// lead to ports of components alone, each by a delegation of its own. So there is mostly room for all of them.
const SIDE_LIMIT: usize = 4_194_304;

/// How many crossings are noted until gates are split no more.
const CROSSED_LIMIT: usize = 524_288;

/// Forgets what was found if it is of as many pairs as there may be links. So what is kept is bounded.
fn make_room(matched: &mut Matched, d: &Description)
    requires { IsMatched d.now matched.old }
    ensures matched { IsMatched d.now matched.new }
    ensures done { matched.new.done ≡ matched.old.done }
    ensures crossed { matched.new.crossed ≡ matched.old.crossed }
{
    if matched.kept.len() >= LINK_LIMIT {
        matched.kept.clear();
    }
}

/// Keeps what was found of a pair.
fn keep(
    matched: &mut Matched,
    d: &Description,
    pair: (u32, u32),
    items: Vec<(u32, u32)>,
) -> Result<(), Memory>
    requires matched { IsMatched d.now matched.old }
    requires found { AreMatches d.now pair.0 pair.1 items.items }
    ensures matched { OnOk result (IsMatched d.now matched.new) }
    ensures kept { OnOk result (AreMatches d.now pair.0 pair.1 (under (get same_pair matched.new.kept pair))) }
    ensures done { OnOk result (matched.new.done ≡ matched.old.done) }
    ensures crossed { OnOk result (matched.new.crossed ≡ matched.old.crossed) }
{
    make_room(matched, d);
    matched.kept.insert(pair, items)?;
    Ok(())
}

impl<'a> Matched<'a> {
    /// Nothing is found yet.
    pub fn new(alloc: Global, d: &'a Description) -> Result<Matched<'a>, Memory>
        requires { HasFewItems d.now }
        ensures { IfOk result (IsMatched d.now) }
    {
        let interfaces = interfaces_of(alloc, d)?;
        Ok(Matched {
            interfaces,
            kept: IndexMap::new(alloc),
            sides: IndexMap::new(alloc),
            weight: 0,
            near: nothing_near(alloc),
            done: IndexSet::new(alloc),
            crossed: IndexSet::new(alloc),
        })
    }

    /// Finds the items of a pair of interfaces that are joined, unless it is kept.
    pub fn find(&mut self, alloc: Global, d: &Description, pair: (u32, u32)) -> Result<(), Memory>
        requires { IsMatched d.now self.old }
        ensures matched { OnOk result (IsMatched d.now self.new) }
        ensures kept { OnOk result (AreMatches d.now pair.0 pair.1 (under (get same_pair self.new.kept pair))) }
        ensures done { OnOk result (self.new.done ≡ self.old.done) }
        ensures crossed { OnOk result (self.new.crossed ≡ self.old.crossed) }
    {
        if self.kept.contains_key(&pair) {
            return Ok(());
        }
        let items = matches(alloc, d, self.interfaces.as_slice(), pair.0, pair.1)?;
        keep(self, d, pair, items)
    }

    /// What is kept of a pair of interfaces.
    pub fn kept(&self, pair: (u32, u32)) -> &[(u32, u32)]
        ensures { result.now ≡ under (get same_pair self.now.kept pair) }
    {
        match self.kept.get(&pair) {
            Some(items) => items.as_slice(),
            None => &[],
        }
    }

    /// Begins with another set of links: no pair of ports and no crossing is done.
    pub fn begin(&mut self, alloc: Global, d: &Description)
        requires { IsMatched d.now self.old }
        ensures { (links : List Link) → IsAdding d.now self.new links }
    {
        self.done = IndexSet::new(alloc);
        self.crossed = IndexSet::new(alloc);
    }

    /// Whether the links of two ports were added.
    pub fn is_done(&self, provided: PortEnd, required: PortEnd) -> bool
        ensures { IsTrue result ↔ Among (provided, required) self.now.done.keys }
    {
        self.done.contains(&(provided, required))
    }

    /// Notes that the links of two ports were added.
    pub fn note_done(&mut self, provided: PortEnd, required: PortEnd) -> Result<(), Memory>
        ensures listed { self.new.interfaces ≡ self.old.interfaces }
        ensures kept { self.new.kept ≡ self.old.kept }
        ensures sides { self.new.sides ≡ self.old.sides }
        ensures near { self.new.near ≡ self.old.near }
        ensures crossed { self.new.crossed ≡ self.old.crossed }
        ensures done { OnOk result ((k : PortEnd × PortEnd) → Among k self.new.done.keys ↔ (Among k self.old.done.keys ⊎ (k ≡ (provided, required)))) }
    {
        self.done.insert((provided, required))?;
        Ok(())
    }

    /// Whether the links of a crossing were added.
    pub fn is_crossed(&self, crossing: Crossing) -> bool
        ensures { IsTrue result ↔ Among crossing self.now.crossed.keys }
    {
        self.crossed.contains(&crossing)
    }

    /// Whether so many crossings are noted that gates are split no more. If there are very many ways between ports, each of
    /// them would be followed.
    pub fn has_crossed_much(&self) -> bool
        ensures { result ≡ nat_le 524288 (length self.now.crossed.keys) }
    {
        self.crossed.len() >= CROSSED_LIMIT
    }

    /// Notes that the links of a crossing were added.
    pub fn note_crossed(&mut self, crossing: Crossing) -> Result<(), Memory>
        ensures listed { self.new.interfaces ≡ self.old.interfaces }
        ensures kept { self.new.kept ≡ self.old.kept }
        ensures sides { self.new.sides ≡ self.old.sides }
        ensures near { self.new.near ≡ self.old.near }
        ensures done { self.new.done ≡ self.old.done }
        ensures crossed { OnOk result ((k : Crossing) → Among k self.new.crossed.keys ↔ (Among k self.old.crossed.keys ⊎ (k ≡ crossing))) }
    {
        self.crossed.insert(crossing)?;
        Ok(())
    }

    /// What is below a gate, taken from what is kept or found now.
    pub fn take_side(&mut self, alloc: Global, tree: &Tree, gate: Gate) -> Result<Side<'a>, Memory>
        requires is_tree { IsTree tree.now }
        requires shallow { IsShallow gate }
        requires matched { IsMatched tree.now.d.now self.old }
        ensures matched { OnOk result (IsMatched tree.now.d.now self.new) }
        ensures done { OnOk result (self.new.done ≡ self.old.done) }
        ensures crossed { OnOk result (self.new.crossed ≡ self.old.crossed) }
        ensures side { IfOk result (λ side. IsSide tree.now.d.now gate side) }
    {
        match self.sides.swap_remove(&gate) {
            Some(side) => {
                self.weight = self.weight.saturating_sub(weight(&side));
                Ok(side)
            }
            None => {
                let interfaces = self.interfaces.as_slice();
                let side = side_of(alloc, tree, gate, interfaces, &mut self.near)?;
                Ok(side)
            }
        }
    }

    /// Forgets what is below gates if it is much. So what is kept is bounded.
    fn make_room_for(&mut self, d: &Description, more: usize)
        requires { IsMatched d.now self.old }
        ensures matched { IsMatched d.now self.new }
        ensures done { self.new.done ≡ self.old.done }
        ensures crossed { self.new.crossed ≡ self.old.crossed }
    {
        self.weight = self.weight.saturating_add(more);
        if self.weight > SIDE_LIMIT {
            self.sides.clear();
            self.weight = more;
        }
    }

    /// Keeps what is below a gate.
    pub fn keep_side(&mut self, d: &Description, gate: Gate, side: Side<'a>) -> Result<(), Memory>
        requires matched { IsMatched d.now self.old }
        requires side { IsSide d.now gate side }
        ensures matched { OnOk result (IsMatched d.now self.new) }
        ensures done { OnOk result (self.new.done ≡ self.old.done) }
        ensures crossed { OnOk result (self.new.crossed ≡ self.old.crossed) }
    {
        self.make_room_for(d, weight(&side));
        drop(self.sides.insert(gate, side)?);
        Ok(())
    }

    /// The pair of a provided interface and a required one, if items of them are joined, and these are looked up at once.
    fn lone_pair(
        &mut self,
        alloc: Global,
        d: &Description,
        pair: (u32, u32),
    ) -> Result<Vec<(u32, u32)>, Memory>
        requires { IsMatched d.now self.old }
        ensures matched { OnOk result (IsMatched d.now self.new) }
        ensures done { OnOk result (self.new.done ≡ self.old.done) }
        ensures crossed { OnOk result (self.new.crossed ≡ self.old.crossed) }
        ensures pairs { IfOk result (λ pairs. (i j : ℕ) → ItemsJoin (interface_at d.now pair.0) (interface_at d.now pair.1) i j → Among pair pairs.items) }
    {
        self.find(alloc, d, pair)?;
        let mut pairs = Vec::new(alloc);
        if !self.kept(pair).is_empty() {
            pairs.push(pair)?;
        }
        Ok(pairs)
    }

    /// The pairs of one provided interface at most and one required interface at most that have joined items.
    fn lone_pairs(
        &mut self,
        alloc: Global,
        d: &Description,
        provided: &[u32],
        required: &[u32],
    ) -> Result<Vec<(u32, u32)>, Memory>
        requires matched { IsMatched d.now self.old }
        requires provided { length provided.now ≤ 1 }
        requires required { length required.now ≤ 1 }
        ensures matched { OnOk result (IsMatched d.now self.new) }
        ensures done { OnOk result (self.new.done ≡ self.old.done) }
        ensures crossed { OnOk result (self.new.crossed ≡ self.old.crossed) }
        ensures pairs { IfOk result (λ pairs. AreJoining d.now provided.now required.now pairs.items) }
    {
        match provided.first() {
            Some(first) => match required.first() {
                Some(second) => self.lone_pair(alloc, d, (*first, *second)),
                None => Ok(Vec::new(alloc)),
            },
            None => Ok(Vec::new(alloc)),
        }
    }

    /// The pairs of an interface of a provided side and one of a required side that have joined items. Others may be among
    /// them that share an item's name.
    pub fn pairs(
        &mut self,
        alloc: Global,
        d: &Description,
        provided: &Side,
        required: &Side,
    ) -> Result<Vec<(u32, u32)>, Memory>
        requires matched { IsMatched d.now self.old }
        requires provided { 1 < length provided.now.interfaces.keys → IsIndexed d.now provided.now.interfaces.keys provided.now.index }
        requires required { 1 < length required.now.interfaces.keys → IsIndexed d.now required.now.interfaces.keys required.now.index }
        ensures matched { OnOk result (IsMatched d.now self.new) }
        ensures done { OnOk result (self.new.done ≡ self.old.done) }
        ensures crossed { OnOk result (self.new.crossed ≡ self.old.crossed) }
        ensures pairs { IfOk result (λ pairs. AreJoining d.now provided.now.interfaces.keys required.now.interfaces.keys pairs.items) }
    {
        if provided.interfaces.len() <= 1 && required.interfaces.len() <= 1 {
            return self.lone_pairs(
                alloc,
                d,
                provided.interfaces.as_slice(),
                required.interfaces.as_slice(),
            );
        }
        let pairs = shared(alloc, d, self.interfaces.as_slice(), provided, required)?;
        Ok(pairs)
    }
}
