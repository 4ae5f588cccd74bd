//! The variables of a program.

ghost use Rattle.std.specs.Prelude.{◌≡◌, ◌<◌, ◌^◌, [], IfOk, OnOk, length, map, slice_get, unwrap_or};
ghost use Rattle.description_shapes.specs.Alternatives.{resolved};
ghost use Rattle.serde_json.specs.Data.{string};
ghost use Rattle.serde_json.specs.View.{items_view, view};
ghost use Rattle.declared_names.specs.Names.{text_of};
ghost use Rattle.program_reading.specs.Variables.{added, all_added, in_parts, name_here, names_in, names_in_each};

use declared_names::{Positions, text_in};
use description_shapes::{Kind, part_kinds, resolved};
use indexmap::IndexSet;
use rte_text::Memory;
use serde_json::Value;
use std::alloc::Global;
use std::marker::Model;

/// The variables of a program, each by its name, in the order of their numbers.
#[derive(Drop)]
pub struct Variables<'a> {
    names: IndexSet<&'a str>,
}

impl<'a> Model for Variables<'a> {
    ghost use Rattle.std.specs.Prelude.{ℕ, List, map};
    ghost use Rattle.declared_names.specs.Names.{text_of};

    ghost Value = { List (List ℕ) };

    ghost view = { λ v. map text_of v.names.keys };
}

impl<'a> Variables<'a> {
    /// No variable.
    pub fn new(alloc: Global) -> Variables<'a>
        ensures { result ≡ [] }
    {
        Variables {
            names: IndexSet::new(alloc),
        }
    }

    /// Gives the variable of this name the next number, if it has none.
    pub fn add(&mut self, name: &'a str) -> Result<(), Memory>
        ensures { OnOk result (self.new ≡ added self.old name.now) }
    {
        let (_, _) = self.names.insert_full(name)?;
        Ok(())
    }

    fn count(&self) -> usize
        ensures { result ≡ length self.now }
    {
        self.names.len()
    }

    fn name(&self, number: usize) -> &'a str
        ensures { result.now ≡ unwrap_or (slice_get self.now number) [] }
    {
        match self.names.get_index(number) {
            Some(name) => *name,
            None => "",
        }
    }

    /// The names, which 32 bits number, with where each stands.
    pub fn positions(&self, alloc: Global) -> Result<Positions<'a>, Memory>
        requires { length self.now < 2 ^ 32 }
        ensures { IfOk result (λ p. p ≡ self.now) }
    {
        let mut names = Vec::new(alloc);
        for number in 0..self.count() {
            names.push(self.name(number))?;
        }
        Positions::of(alloc, names)
    }
}

/// Adds these names in their order.
pub fn add_all<'a>(vars: &mut Variables<'a>, names: &[&'a str]) -> Result<(), Memory>
    ensures { OnOk result (vars.new ≡ all_added vars.old (map text_of names.now)) }
{
    for name in names {
        vars.add(*name)?;
    }
    Ok(())
}

/// Adds the variables that the value of this kind names, in document order.
#[cycle(names)]
pub fn add_names<'a>(vars: &mut Variables<'a>, value: &'a Value, kind: Kind) -> Result<(), Memory>
    ensures { OnOk result (vars.new ≡ all_added vars.old (names_in (view value.now) kind)) }
{
    match value {
        Value::String(_) => add_name(vars, text_in(value), kind),
        Value::Array(parts) => add_in_parts(vars, parts, resolved(kind, value)),
        Value::Null | Value::Bool(_) | Value::Number(_) | Value::Object(_) => Ok(()),
    }
}

/// Adds the text that stands where a value of this kind should, if it is the name of a variable.
fn add_name<'a>(vars: &mut Variables<'a>, name: &'a str, kind: Kind) -> Result<(), Memory>
    ensures { OnOk result (vars.new ≡ all_added vars.old (name_here (resolved kind (string name.now)) name.now)) }
{
    match kind {
        Kind::LocalName | Kind::Expression => vars.add(name),
        _ => Ok(()),
    }
}

#[cycle(names)]
fn add_in_parts<'a>(vars: &mut Variables<'a>, parts: &'a [Value], kind: Kind) -> Result<(), Memory>
    ensures { OnOk result (vars.new ≡ all_added vars.old (in_parts kind (names_in_each (items_view parts.now)))) }
{
    let kinds = part_kinds(kind);
    for part in 0..parts.len() {
        add_names(vars, &parts[part], kinds.at(part))?;
    }
    Ok(())
}
