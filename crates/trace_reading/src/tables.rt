//! Tables in which names are found by hash.

ghost use Rattle.std.specs.Prelude.{◌≡◌, ◌<◌, [], ◌∷◌, ◌++◌, IfOk, List, OnOk, length, position};
ghost use Rattle.indexmap.specs.IndexMap.{get};
ghost use Rattle.bus_semantics.specs.Plan.{plan_of};
ghost use Rattle.line_fields.specs.Named.{is_area, is_elem, is_event, is_machine, is_mode_port, is_point, is_runnable, is_text};
ghost use Rattle.trace_reading.specs.Finding.{is_result};
ghost use Rattle.trace_reading.specs.Tables.{AreTables, HasTables, IsNoted, IsTable, first_of, label_at, label_of, labels, number_of, result_label, same_key};
ghost use Rattle.trace_reading.specs.declared.tables.Kind.{Kind};
ghost use Rattle.trace_reading.specs.declared.tables.Kind.TheVariants.{Area, Elem, Event, Instance, Machine, ModePort, Point, Result, Runnable};

use crate::looking::home_of_caller;
use bus_semantics::{BusPlan, PointPlan};
use indexmap::IndexMap;
use line_fields::instance_of;
use rte_text::Memory;
use std::alloc::Global;

/// What has names in a plan.
#[derive(Clone, Copy)]
pub enum Kind {
    Instance,
    Runnable,
    Elem,
    Point,
    /// A point at which a runnable calls without waiting, by the name that all runnables of its instance use.
    Result,
    Area,
    Machine,
    ModePort,
    Event,
}

/// A name, with the number of the instance, or of a point the runnable, that has it.
pub type Key<'p> = (Option<usize>, &'p [u8]);

/// A number as a place.
pub fn place(number: Option<u32>) -> Option<usize>
    ensures { result ≡ number }
{
    match number {
        Some(number) => Some(number as usize),
        None => None,
    }
}

/// The key of a point among those whose results are taken.
fn result_key_of<'p>(p: &BusPlan, point: &'p PointPlan) -> Option<Key<'p>>
    ensures { label_of result ≡ result_label (plan_of p.now) point.now }
{
    if point.asynchronous {
        Some((place(home_of_caller(p, point.runnable)), point.name.bytes()))
    } else {
        None
    }
}

/// How many things of the kind there are.
fn how_many(p: &BusPlan, kind: Kind) -> usize
    ensures { result ≡ length (labels kind (plan_of p.now)) }
{
    match kind {
        Kind::Instance => p.names.len(),
        Kind::Runnable => p.runnables.len(),
        Kind::Elem => p.elements.len(),
        Kind::Point => p.points.len(),
        Kind::Result => p.points.len(),
        Kind::Area => p.areas.len(),
        Kind::Machine => p.machines.len(),
        Kind::ModePort => p.mode_ports.len(),
        Kind::Event => p.events.len(),
    }
}

fn instance_key<'p>(p: &'p BusPlan, at: usize) -> Option<Key<'p>>
    ensures { label_of result ≡ label_at Instance (plan_of p.now) at }
{
    match p.names.items().get(at) {
        Some(path) => Some((None, path.bytes())),
        None => None,
    }
}

fn runnable_key<'p>(p: &'p BusPlan, at: usize) -> Option<Key<'p>>
    ensures { label_of result ≡ label_at Runnable (plan_of p.now) at }
{
    match p.runnables.items().get(at) {
        Some(runnable) => Some((Some(runnable.instance as usize), runnable.name.bytes())),
        None => None,
    }
}

fn elem_key<'p>(p: &'p BusPlan, at: usize) -> Option<Key<'p>>
    ensures { label_of result ≡ label_at Elem (plan_of p.now) at }
{
    match p.elements.items().get(at) {
        Some(elem) => Some((place(elem.instance), elem.name.bytes())),
        None => None,
    }
}

fn point_key<'p>(p: &'p BusPlan, at: usize) -> Option<Key<'p>>
    ensures { label_of result ≡ label_at Point (plan_of p.now) at }
{
    match p.points.items().get(at) {
        Some(point) => Some((place(point.runnable), point.name.bytes())),
        None => None,
    }
}

fn result_key<'p>(p: &'p BusPlan, at: usize) -> Option<Key<'p>>
    ensures { label_of result ≡ label_at Result (plan_of p.now) at }
{
    match p.points.items().get(at) {
        Some(point) => result_key_of(p, point),
        None => None,
    }
}

fn area_key<'p>(p: &'p BusPlan, at: usize) -> Option<Key<'p>>
    ensures { label_of result ≡ label_at Area (plan_of p.now) at }
{
    match p.areas.items().get(at) {
        Some(area) => Some((Some(area.instance as usize), area.name.bytes())),
        None => None,
    }
}

fn machine_key<'p>(p: &'p BusPlan, at: usize) -> Option<Key<'p>>
    ensures { label_of result ≡ label_at Machine (plan_of p.now) at }
{
    match p.machines.items().get(at) {
        Some(machine) => Some((place(machine.instance), machine.name.bytes())),
        None => None,
    }
}

fn mode_port_key<'p>(p: &'p BusPlan, at: usize) -> Option<Key<'p>>
    ensures { label_of result ≡ label_at ModePort (plan_of p.now) at }
{
    match p.mode_ports.items().get(at) {
        Some(port) => Some((place(port.instance), port.name.bytes())),
        None => None,
    }
}

fn event_key<'p>(p: &'p BusPlan, at: usize) -> Option<Key<'p>>
    ensures { label_of result ≡ label_at Event (plan_of p.now) at }
{
    match p.events.items().get(at) {
        Some(event) => Some((place(instance_of(p, event.runnable)), event.name.bytes())),
        None => None,
    }
}

/// The key of the thing at this place.
fn key_at<'p>(p: &'p BusPlan, kind: Kind, at: usize) -> Option<Key<'p>>
    ensures { label_of result ≡ label_at kind (plan_of p.now) at }
{
    match kind {
        Kind::Instance => instance_key(p, at),
        Kind::Runnable => runnable_key(p, at),
        Kind::Elem => elem_key(p, at),
        Kind::Point => point_key(p, at),
        Kind::Result => result_key(p, at),
        Kind::Area => area_key(p, at),
        Kind::Machine => machine_key(p, at),
        Kind::ModePort => mode_port_key(p, at),
        Kind::Event => event_key(p, at),
    }
}

/// Puts the place into the table under the key, if there is one.
fn note<'p>(
    table: &mut IndexMap<Key<'p>, usize>,
    key: Option<Key<'p>>,
    place: usize,
) -> Result<(), Memory>
    ensures { OnOk result (IsNoted key.entry place table.old table.new) }
{
    if let Some(key) = key {
        table.insert(key, place)?;
    }
    Ok(())
}

/// The table of the things of a kind. If a key is doubled it has the first.
fn table_of<'p>(
    alloc: Global,
    p: &'p BusPlan,
    kind: Kind,
) -> Result<IndexMap<Key<'p>, usize>, Memory>
    ensures { IfOk result (λ table. IsTable kind (plan_of p.now) table) }
{
    let mut table = IndexMap::new(alloc);
    let mut left = how_many(p, kind);
    while left > 0 {
        left -= 1;
        note(&mut table, key_at(p, kind, left), left)?;
    }
    Ok(table)
}

/// What the table has under the key.
fn find<'a>(table: &'a IndexMap<Key<'a>, usize>, key: Key<'a>) -> Option<usize>
    ensures { result ≡ get same_key table.now key.entry }
{
    table.get(&key).copied()
}

/// Where the table of a kind stands among those of a plan.
fn number_of(kind: Kind) -> usize
    ensures number { result ≡ number_of kind }
    ensures few { result < 9 }
{
    match kind {
        Kind::Instance => 0,
        Kind::Runnable => 1,
        Kind::Elem => 2,
        Kind::Point => 3,
        Kind::Result => 4,
        Kind::Area => 5,
        Kind::Machine => 6,
        Kind::ModePort => 7,
        Kind::Event => 8,
    }
}

/// Adds the table of a kind behind those of others.
fn add_table<'p>(
    alloc: Global,
    plan: &'p BusPlan,
    kind: Kind,
    tables: &mut Vec<IndexMap<Key<'p>, usize>>,
) -> Result<(), Memory>
    ensures { OnOk result ((ks : List Kind) → AreTables (plan_of plan.now) ks tables.old.items → AreTables (plan_of plan.now) (ks ++ kind ∷ []) tables.new.items) }
{
    let table = table_of(alloc, plan, kind)?;
    tables.push(table)?;
    Ok(())
}

/// Adds the tables of all kinds to no tables.
fn add_tables<'p>(
    alloc: Global,
    plan: &'p BusPlan,
    tables: &mut Vec<IndexMap<Key<'p>, usize>>,
) -> Result<(), Memory>
    requires { tables.old.items ≡ [] }
    ensures all_kinds { OnOk result (length tables.new.items ≡ 9) }
    ensures has_tables { OnOk result (HasTables (plan_of plan.now) tables.new.items) }
{
    add_table(alloc, plan, Kind::Instance, tables)?;
    add_table(alloc, plan, Kind::Runnable, tables)?;
    add_table(alloc, plan, Kind::Elem, tables)?;
    add_table(alloc, plan, Kind::Point, tables)?;
    add_table(alloc, plan, Kind::Result, tables)?;
    add_table(alloc, plan, Kind::Area, tables)?;
    add_table(alloc, plan, Kind::Machine, tables)?;
    add_table(alloc, plan, Kind::ModePort, tables)?;
    add_table(alloc, plan, Kind::Event, tables)?;
    Ok(())
}

/// The names of a plan, each found by hash.
#[derive(Drop)]
pub struct Tables<'p> {
    pub plan: &'p BusPlan,
    /// A table of each kind, in the order of `number_of`. They are in one list, which is dropped by one call, where nine fields are dropped
    /// one by one at each way out.
    by_kind: Vec<IndexMap<Key<'p>, usize>>,
    ghost all_kinds: { length by_kind.items ≡ 9 },
    ghost has_tables: { HasTables (plan_of plan.now) by_kind.items },
}

impl<'p> Tables<'p> {
    /// The tables of a plan.
    pub fn new(alloc: Global, plan: &'p BusPlan) -> Result<Tables<'p>, Memory>
        ensures { IfOk result (λ tables. tables.plan.now ≡ plan.now) }
    {
        let mut by_kind = Vec::with_capacity(alloc, 9)?;
        match add_tables(alloc, plan, &mut by_kind) {
            Ok(()) => Ok(Tables { plan, by_kind }),
            Err(memory) => {
                drop(by_kind);
                Err(memory)
            }
        }
    }

    /// The table of the things of the kind.
    fn table(&self, kind: Kind) -> &IndexMap<Key<'p>, usize>
        ensures { IsTable kind (plan_of self.now.plan.now) result.now }
    {
        &self.by_kind[number_of(kind)]
    }

    /// The place of the first thing of the kind with this key.
    fn find(&self, kind: Kind, home: Option<usize>, name: &[u8]) -> Option<usize>
        ensures { result ≡ first_of kind (plan_of self.now.plan.now) home name.now }
    {
        find(self.table(kind), (home, name))
    }

    /// Where the first instance of this path stands.
    pub fn instance(&self, path: &[u8]) -> Option<usize>
        ensures { result ≡ position (is_text path.now) (plan_of self.now.plan.now).names }
    {
        self.find(Kind::Instance, None, path)
    }

    /// Where the home's first runnable of this name stands.
    pub fn runnable(&self, home: Option<u32>, name: &[u8]) -> Option<usize>
        ensures { result ≡ position (is_runnable home name.now) (plan_of self.now.plan.now).runnables }
    {
        self.find(Kind::Runnable, place(home), name)
    }

    /// Where the home's first element of this name stands.
    pub fn elem(&self, home: Option<u32>, name: &[u8]) -> Option<usize>
        ensures { result ≡ position (is_elem home name.now) (plan_of self.now.plan.now).elements }
    {
        self.find(Kind::Elem, place(home), name)
    }

    /// Where the first point of this name stands at which the runnable of this place calls, or for None the environment.
    pub fn point(&self, caller: Option<usize>, name: &[u8]) -> Option<usize>
        ensures { result ≡ position (is_point caller name.now) (plan_of self.now.plan.now).points }
    {
        self.find(Kind::Point, caller, name)
    }

    /// Where the first point of this name stands at which a runnable of the home calls without waiting.
    pub fn result(&self, home: Option<u32>, name: &[u8]) -> Option<usize>
        ensures { result ≡ position (is_result (plan_of self.now.plan.now) home name.now) (plan_of self.now.plan.now).points }
    {
        self.find(Kind::Result, place(home), name)
    }

    /// Where the home's first exclusive area of this name stands.
    pub fn area(&self, home: Option<u32>, name: &[u8]) -> Option<usize>
        ensures { result ≡ position (is_area home name.now) (plan_of self.now.plan.now).areas }
    {
        self.find(Kind::Area, place(home), name)
    }

    /// Where the home's first machine of this name stands.
    pub fn machine(&self, home: Option<u32>, name: &[u8]) -> Option<usize>
        ensures { result ≡ position (is_machine home name.now) (plan_of self.now.plan.now).machines }
    {
        self.find(Kind::Machine, place(home), name)
    }

    /// Where the home's first mode port of this name stands.
    pub fn mode_port(&self, home: Option<u32>, name: &[u8]) -> Option<usize>
        ensures { result ≡ position (is_mode_port home name.now) (plan_of self.now.plan.now).mode_ports }
    {
        self.find(Kind::ModePort, place(home), name)
    }

    /// Where the first event of this name stands that starts a runnable of the home.
    pub fn event(&self, home: Option<u32>, name: &[u8]) -> Option<usize>
        ensures { result ≡ position (is_event (plan_of self.now.plan.now) home name.now) (plan_of self.now.plan.now).events }
    {
        self.find(Kind::Event, place(home), name)
    }
}
