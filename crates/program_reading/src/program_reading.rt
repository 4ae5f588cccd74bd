//! The programs of runnables, read from JSON.

ghost use Rattle.std.specs.Prelude.{◌≡◌, ◌<◌, ◌+◌, ◌^◌, IfOk, length, map};
ghost use Rattle.runnable_lang.specs.Trees.{program_tree};
ghost use Rattle.serde_json.specs.View.{view};
ghost use Rattle.declared_names.specs.Names.{text_of};
ghost use Rattle.declared_names.specs.Sizes.{size};
ghost use Rattle.program_reading.specs.Programs.{program_of, program_reading};
ghost use Rattle.program_reading.specs.Variables.{variables_of};

use crate::in_program::InProgram;
use crate::statement_reading::read_body;
use crate::variables::{Variables, add_all, add_names};
use declared_names::{InComponent, Positions};
use description_shapes::Kind;
use rte_text::Memory;
use runnable_lang::Program;
use serde_json::Value;
use std::alloc::Global;

#[tactic(auto, using(crate::proofs::Added::added_after))]
fn variables_of<'a>(
    alloc: Global,
    first: &[&'a str],
    value: &'a Value,
) -> Result<Positions<'a>, Memory>
    requires { length first.now + size (view value.now) < 2 ^ 32 }
    ensures { IfOk result (λ vars. vars ≡ variables_of (map text_of first.now) (view value.now)) }
{
    let mut vars = Variables::new(alloc);
    add_all(&mut vars, first)?;
    add_names(&mut vars, value, Kind::Statements)?;
    vars.positions(alloc)
}

fn program_of(
    alloc: Global,
    component: &InComponent,
    vars: &Positions,
    value: &Value,
) -> Result<Program, Memory>
    ensures { IfOk result (λ p. program_tree p ≡ program_of component.now.interfaces.now component.now.names.now vars.now (view value.now)) }
{
    let scope = InProgram {
        component: *component,
        vars,
    };
    let body = read_body(alloc, &scope, value)?;
    Ok(Program {
        vars: vars.count(),
        body,
    })
}

/// The program that the value is, with first variables of these names. They and the values in it are fewer than 2^32, so 32
/// bits number its variables. Names are positions in the component around.
pub fn read_program<'a>(
    alloc: Global,
    component: &InComponent,
    first: &[&'a str],
    value: &'a Value,
) -> Result<Program, Memory>
    requires { length first.now + size (view value.now) < 2 ^ 32 }
    ensures { IfOk result (λ p. program_tree p ≡ program_reading component.now.interfaces.now component.now.names.now (map text_of first.now) (view value.now)) }
{
    let vars = variables_of(alloc, first, value)?;
    let program = program_of(alloc, component, &vars, value)?;
    Ok(program)
}
