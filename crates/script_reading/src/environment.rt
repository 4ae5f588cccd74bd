//! A plan with what its environment has, by name.

ghost use Rattle.std.specs.Prelude.{◌≡◌, ◌<◌, [], ◌∷◌, ◌++◌, IfOk, List, OnOk, length, option_copied, true};
ghost use Rattle.bus_semantics.specs.Common.{list_all, plan_of};
ghost use Rattle.script_reading.specs.Index.{AreIndexes, HasIndexes, IsIndex, IsNoted, has_few_modes, place_of};
ghost use Rattle.script_reading.specs.Numbers.{IsNumbered};
ghost use Rattle.script_reading.specs.Offers.{mode_in, mode_of, number_of};
ghost use Rattle.script_reading.specs.declared.forms.Form.{Form};

use crate::forms::Form;
use crate::offers::{how_many, offered};
use bus_semantics::{BusPlan, MachinePlan};
use indexmap::IndexMap;
use rte_text::Memory;
use std::alloc::Global;

/// A plan with what its environment has by name, found by hash.
#[derive(Drop)]
pub struct Environment<'p> {
    pub plan: &'p BusPlan,
    /// What the forms are for, a map for each place of `place_of`. They are in one list, which is dropped by one call, where seven fields are
    /// dropped one by one at each way out.
    by_form: Vec<IndexMap<&'p [u8], u32>>,
    ghost few_modes: { list_all has_few_modes plan.now.machines ≡ true },
    ghost all_forms: { length by_form.items ≡ 7 },
    ghost known: { HasIndexes (plan_of plan.now) by_form.items },
}

/// Where the map of what a form is for stands among them. `result` is for the points of `ask`.
fn place_of(form: Form) -> usize
    ensures place { result ≡ place_of form }
    ensures few { result < 7 }
{
    match form {
        Form::Write => 0,
        Form::Send => 1,
        Form::Read => 2,
        Form::Receive => 3,
        Form::Ask => 4,
        Form::TakeResult => 4,
        Form::Switch => 5,
        Form::SeeMode => 6,
    }
}

/// Puts the number into the index under the name, if there is one.
fn note<'p>(
    index: &mut IndexMap<&'p [u8], u32>,
    number: u32,
    name: Option<&'p [u8]>,
) -> Result<(), Memory>
    ensures { OnOk result (IsNoted (option_copied name.entry) number index.old index.new) }
{
    if let Some(name) = name {
        index.insert(name, number)?;
    }
    Ok(())
}

/// The things that the form is for by name, the first one's number if a name is doubled.
fn index_of<'p>(
    alloc: Global,
    plan: &'p BusPlan,
    form: Form,
) -> Result<IndexMap<&'p [u8], u32>, Memory>
    requires { IsNumbered (plan_of plan.now) }
    ensures { IfOk result (λ index. IsIndex form (plan_of plan.now) index) }
{
    let mut places = IndexMap::new(alloc);
    let mut left = how_many(plan, form) as u32;
    while left > 0 {
        left -= 1;
        note(&mut places, left, offered(plan, form, left as usize))?;
    }
    Ok(places)
}

/// The number of the machine's first mode that has the name.
fn mode_in(machine: &MachinePlan, name: &[u8]) -> Option<u32>
    requires { has_few_modes machine.now ≡ true }
    ensures { result ≡ mode_in machine.now.modes name.now }
{
    for (at, mode) in machine.modes.items().iter().enumerate() {
        if mode.bytes() == name {
            return Some(at as u32);
        }
    }
    None
}

/// Adds the map of what the form is for behind those of other forms.
fn add_index<'p>(
    alloc: Global,
    plan: &'p BusPlan,
    form: Form,
    indexes: &mut Vec<IndexMap<&'p [u8], u32>>,
) -> Result<(), Memory>
    requires { IsNumbered (plan_of plan.now) }
    ensures { OnOk result ((fs : List Form) → AreIndexes (plan_of plan.now) fs indexes.old.items → AreIndexes (plan_of plan.now) (fs ++ form ∷ []) indexes.new.items) }
{
    let index = index_of(alloc, plan, form)?;
    indexes.push(index)?;
    Ok(())
}

/// Adds the maps of what all forms are for to none.
fn add_indexes<'p>(
    alloc: Global,
    plan: &'p BusPlan,
    indexes: &mut Vec<IndexMap<&'p [u8], u32>>,
) -> Result<(), Memory>
    requires numbered { IsNumbered (plan_of plan.now) }
    requires none { indexes.old.items ≡ [] }
    ensures all_forms { OnOk result (length indexes.new.items ≡ 7) }
    ensures known { OnOk result (HasIndexes (plan_of plan.now) indexes.new.items) }
{
    add_index(alloc, plan, Form::Write, indexes)?;
    add_index(alloc, plan, Form::Send, indexes)?;
    add_index(alloc, plan, Form::Read, indexes)?;
    add_index(alloc, plan, Form::Receive, indexes)?;
    add_index(alloc, plan, Form::Ask, indexes)?;
    add_index(alloc, plan, Form::Switch, indexes)?;
    add_index(alloc, plan, Form::SeeMode, indexes)?;
    Ok(())
}

impl<'p> Environment<'p> {
    /// What the environment of the plan has.
    pub fn of(alloc: Global, plan: &'p BusPlan) -> Result<Environment<'p>, Memory>
        requires { IsNumbered (plan_of plan.now) }
        ensures { IfOk result (λ environment. environment.plan.now ≡ plan.now) }
    {
        let mut by_form = Vec::with_capacity(alloc, 7)?;
        match add_indexes(alloc, plan, &mut by_form) {
            Ok(()) => Ok(Environment { plan, by_form }),
            Err(memory) => {
                drop(by_form);
                Err(memory)
            }
        }
    }

    /// The map of what the form is for.
    fn index_for(&self, form: Form) -> &IndexMap<&'p [u8], u32>
        ensures { IsIndex form (plan_of self.now.plan.now) result.now }
    {
        &self.by_form[place_of(form)]
    }

    /// The number of the first thing that the form is for and that goes by this name.
    pub fn find(&self, form: Form, name: &[u8]) -> Option<u32>
        ensures { result ≡ number_of form (plan_of self.now.plan.now) name.now }
    {
        self.index_for(form).get(name).copied()
    }

    /// The number of the first mode of the machine of this number that has the name.
    pub fn mode(&self, machine: u32, name: &[u8]) -> Option<u32>
        ensures { result ≡ mode_of (plan_of self.now.plan.now) machine name.now }
    {
        match self.plan.machines.items().get(machine as usize) {
            Some(machine) => mode_in(machine, name),
            None => None,
        }
    }
}
