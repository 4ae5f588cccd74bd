//! Who is joined with whom.

ghost use Rattle.std.specs.Prelude.{◌≡◌, ◌++◌, IfOk, OnOk, option_copied};
ghost use Rattle.std.specs.List.{find, flat_map};
ghost use Rattle.plan_definitions.specs.Joined.{provider_of, same_end};
ghost use Rattle.plan_numbers.specs.Ends.{key_of, is_served, served_entry};

use crate::owners::interface_of;
use crate::table::Table;
use description_types::{Description, End, Flat, InterfaceKind, Join};
use rte_text::Memory;
use std::alloc::Global;
use std::marker::Model;

/// An end as a key: its owner, its port and its item.
pub type EndKey = (Option<u32>, u32, u32);

fn key_of(end: End) -> EndKey
    ensures { result ≡ key_of end }
{
    (end.instance, end.port, end.element)
}

/// Whether the item at an end may be one that is served: an operation or a mode element.
fn is_served(d: &Description, f: &Flat, end: End) -> bool
    ensures { result ≡ is_served d.now f.now end }
{
    match interface_of(d, f, end.instance, end.port) {
        Some(InterfaceKind::SenderReceiver(_)) => false,
        _ => true,
    }
}

/// Adds a join, by its required end, if what it joins is served.
fn push_served(
    list: &mut Vec<(EndKey, End)>,
    d: &Description,
    f: &Flat,
    join: Join,
) -> Result<(), Memory>
    ensures { OnOk result (list.new.items ≡ list.old.items ++ served_entry d.now f.now join) }
{
    if is_served(d, f, join.required) {
        list.push((key_of(join.required), join.provided))?;
    }
    Ok(())
}

fn by_required(alloc: Global, d: &Description, f: &Flat) -> Result<Table<EndKey, End>, Memory>
    ensures { IfOk result (λ table. table.entries.items ≡ flat_map (served_entry d.now f.now) f.now.joins) }
{
    let mut entries = Vec::new(alloc);
    for join in f.joins.items() {
        push_served(&mut entries, d, f, *join)?;
    }
    Table::new(alloc, entries)
}

fn same_end(a: End, b: End) -> bool
    ensures { result ≡ same_end a b }
{
    a.instance == b.instance && a.port == b.port && a.element == b.element
}

/// The first join of a required end, looked for among all.
fn first_join(joins: &[Join], required: End) -> Option<&Join>
    ensures { option_copied result ≡ find (λ j. same_end j.required required) joins.now }
{
    joins.iter().find(|join| same_end(join.required, required))
}

/// The provider of a required end, looked for among all joins.
fn first_provider(joins: &[Join], required: End) -> Option<End>
    ensures { result ≡ provider_of joins.now required }
{
    let join = first_join(joins, required)?;
    Some(join.provided)
}

/// Joins, seen as their list. The first provider of each required operation and mode element is found by hash. That of a data
/// element is looked for among all joins, since nobody asks for it, and there are very many.
#[derive(Drop)]
pub struct Joined<'a> {
    d: &'a Description,
    f: &'a Flat,
    served: Table<EndKey, End>,
}

impl<'a> Model for Joined<'a> {
    ghost use Rattle.std.specs.Prelude.{◌≡◌, List};
    ghost use Rattle.std.specs.List.{flat_map};
    ghost use Rattle.description_types.specs.declared.flat.Join.{Join};
    ghost use Rattle.plan_numbers.specs.Ends.{served_entry};

    ghost Value = { List Join };

    ghost view = { λ s. s.f.now.joins };

    ghost invariant = { λ s. s.served.entries.items ≡ flat_map (served_entry s.d.now s.f.now) s.f.now.joins };
}

impl<'a> Joined<'a> {
    ghost use Rattle.std.specs.Prelude.{◌≡◌, IfOk};
    ghost use Rattle.plan_definitions.specs.Joined.{provider_of};

    /// What a description made flat joins.
    pub fn of(alloc: Global, d: &'a Description, f: &'a Flat) -> Result<Joined<'a>, Memory>
        ensures { IfOk result (λ joined. joined ≡ f.now.joins) }
    {
        let served = by_required(alloc, d, f)?;
        Ok(Joined { d, f, served })
    }

    /// The provided end that is joined with a required one.
    pub fn provider_of(&self, required: End) -> Option<End>
        ensures { result ≡ provider_of self.now required }
    {
        if is_served(self.d, self.f, required) {
            return self.served.find(key_of(required));
        }
        first_provider(self.f.joins.items(), required)
    }
}
