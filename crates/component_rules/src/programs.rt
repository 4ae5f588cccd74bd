//! Whether the programs of runnables may run.

ghost use Rattle.std.specs.Prelude.{◌≡◌, IfOk, true, Option, Some, None, option_and_then, option_map};
ghost use Rattle.plan_definitions.specs.Common.{program_refusal, is_wanted, path_of, refused_in, refused_program, types_fit};

use crate::signatures::signature_of;
use description_types::{Component, Description, Runnable, TypeTable};
use rte_text::{Memory, Seq};
use runnable_lang::{ProgramRefused, check_program};
use std::alloc::{AllocError, Global};

/// A runnable and the path to a statement of its program.
type InProgram = (usize, Seq<usize>);

fn program_refusal(
    alloc: Global,
    types: &TypeTable,
    component: &Component,
    runnable: &Runnable,
) -> Result<Option<(u16, Seq<usize>)>, Memory>
    requires { types_fit types.now ≡ true }
    ensures { IfOk result (λ refused. refused ≡ program_refusal types.now component.now runnable.now) }
{
    let signature = signature_of(alloc, types, component, runnable.accesses.items())?;
    match check_program(alloc, &runnable.program, &signature) {
        Ok(()) => Ok(None),
        Err(ProgramRefused::Broken { rule, path }) => Ok(Some((rule, path))),
        Err(ProgramRefused::Memory) => Err(AllocError),
    }
}

fn is_wanted(wanted: Option<u16>, rule: u16) -> bool
    ensures { result ≡ is_wanted wanted rule }
{
    match wanted {
        None => true,
        Some(wanted) => rule == wanted,
    }
}

fn path_refused(
    alloc: Global,
    wanted: Option<u16>,
    types: &TypeTable,
    component: &Component,
    runnable: &Runnable,
) -> Result<Option<Seq<usize>>, Memory>
    requires { types_fit types.now ≡ true }
    ensures { IfOk result (λ path. path ≡ option_and_then (path_of wanted) (program_refusal types.now component.now runnable.now)) }
{
    match program_refusal(alloc, types, component, runnable)? {
        Some((rule, path)) if is_wanted(wanted, rule) => Ok(Some(path)),
        _ => Ok(None),
    }
}

#[tactic(auto, using(plan_definitions::proofs::Turns::first_more, plan_definitions::proofs::Turns::first_here, plan_definitions::proofs::Turns::first_none))]
fn refused_in(
    alloc: Global,
    wanted: Option<u16>,
    types: &TypeTable,
    component: &Component,
) -> Result<Option<InProgram>, Memory>
    requires { types_fit types.now ≡ true }
    ensures { IfOk result (λ found. found ≡ refused_in wanted types.now component.now) }
{
    for (position, runnable) in component.behavior.runnables.items().iter().enumerate() {
        if let Some(path) = path_refused(alloc, wanted, types, component, runnable)? {
            return Ok(Some((position, path)));
        }
    }
    Ok(None)
}

/// The first program that breaks this rule before all others, or any, with its component and runnable.
#[tactic(auto, using(plan_definitions::proofs::Turns::first_more, plan_definitions::proofs::Turns::first_here, plan_definitions::proofs::Turns::first_none))]
pub fn refused_program(
    alloc: Global,
    wanted: Option<u16>,
    d: &Description,
) -> Result<Option<(usize, InProgram)>, Memory>
    requires { types_fit d.now.types ≡ true }
    ensures { IfOk result (λ found. found ≡ refused_program wanted d.now) }
{
    for (position, component) in d.components.items().iter().enumerate() {
        if let Some(found) = refused_in(alloc, wanted, &d.types, component)? {
            return Ok(Some((position, found)));
        }
    }
    Ok(None)
}
