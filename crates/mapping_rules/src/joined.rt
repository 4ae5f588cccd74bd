//! Who provides what is required, and what the environment requires.

ghost use Rattle.std.specs.Prelude.{◌≡◌, ◌++◌, IfOk, OnOk, Some, map, is_none, ◌&&◌};
ghost use Rattle.std.specs.List.{flat_map, list_any};
ghost use Rattle.plan_definitions.specs.Joined.{end_at, provider_of, same_end};
ghost use Rattle.mapping_rules.specs.Listed.{triple, provided_for, outside_at};

use description_types::{End, Flat, Join};
use plan_numbers::{Positions, Table};
use rte_text::Memory;
use std::alloc::Global;

/// The instance, the port and the item of an end.
type EndKey = (Option<usize>, u32, u32);

/// The joins of a description made flat, by their required ends.
#[derive(Drop)]
pub struct Providers<'a> {
    pub f: &'a Flat,
    table: Table<EndKey, End>,
    ghost are_providers: { table.entries.items ≡ map provided_for f.now.joins },
}

/// The provided ends that the environment is joined to, in a description made flat.
#[derive(Drop)]
pub struct Outside<'a> {
    pub f: &'a Flat,
    ends: Positions<EndKey>,
    ghost are_outside: { ends ≡ flat_map outside_at f.now.joins },
}

fn triple(end: End) -> EndKey
    ensures { result ≡ triple end }
{
    let owner = match end.instance {
        Some(instance) => Some(instance as usize),
        None => None,
    };
    (owner, end.port, end.element)
}

fn providers_of(alloc: Global, joins: &[Join]) -> Result<Vec<(EndKey, End)>, Memory>
    ensures { IfOk result (λ list. list.items ≡ map provided_for joins.now) }
{
    let mut list = Vec::with_capacity(alloc, joins.len())?;
    for join in joins {
        list.push((triple(join.required), join.provided))?;
    }
    Ok(list)
}

fn push_outside(list: &mut Vec<EndKey>, join: Join) -> Result<(), Memory>
    ensures { OnOk result (list.new.items ≡ list.old.items ++ outside_at join) }
{
    if join.required.instance.is_none() {
        list.push(triple(join.provided))?;
    }
    Ok(())
}

fn outside_of(alloc: Global, joins: &[Join]) -> Result<Vec<EndKey>, Memory>
    ensures { IfOk result (λ list. list.items ≡ flat_map outside_at joins.now) }
{
    let mut list = Vec::new(alloc);
    for join in joins {
        push_outside(&mut list, *join)?;
    }
    Ok(list)
}

impl<'a> Providers<'a> {
    /// The joins of a description made flat.
    pub fn new(alloc: Global, f: &'a Flat) -> Result<Providers<'a>, Memory>
        ensures { IfOk result (λ providers. providers.f.now ≡ f.now) }
    {
        let list = providers_of(alloc, f.joins.items())?;
        let table = Table::new(alloc, list)?;
        Ok(Providers { f, table })
    }

    /// The first provided end that is joined with a required one of an instance.
    pub fn provider_of(&self, instance: usize, port: u32, item: u32) -> Option<End>
        ensures { result ≡ provider_of self.now.f.now.joins (end_at (Some instance) port item) }
    {
        self.table.find((Some(instance), port, item))
    }
}

impl<'a> Outside<'a> {
    /// Those of a description made flat.
    pub fn new(alloc: Global, f: &'a Flat) -> Result<Outside<'a>, Memory>
        ensures { IfOk result (λ outside. outside.f.now ≡ f.now) }
    {
        let list = outside_of(alloc, f.joins.items())?;
        let ends = Positions::of(alloc, list.as_slice())?;
        Ok(Outside { f, ends })
    }

    /// Whether the environment is joined to a provided end of an instance.
    pub fn has(&self, instance: usize, port: u32, item: u32) -> bool
        ensures { result ≡ list_any (λ j. same_end (end_at (Some instance) port item) j.provided && is_none j.required.instance) self.now.f.now.joins }
    {
        self.ends.find((Some(instance), port, item)).is_some()
    }
}
