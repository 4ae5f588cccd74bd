//! The code that the instances of a runnable share.

ghost use Rattle.std.specs.Prelude.{◌≡◌, ℕ, Some, IfOk, slice_get};
ghost use Rattle.bus_semantics.specs.Common.{arc_value, option_copied, HaveOneCode, coded_of, plan_of, runnable_of};
ghost use Rattle.indexmap.specs.IndexMap.{get};
ghost use Rattle.task_machine.specs.declared.instr.Body.{Body};
ghost use Rattle.task_generator.specs.Bounded.{IsBounded};
ghost use Rattle.task_generator.specs.Coded.{AreMade, HaveCodes, coded_shape, same_code, shape_of_code};

use crate::Memory;
use crate::accesses::Accesses;
use crate::bounds::{loops_of_body, steps_of_body};
use crate::generator::Generator;
use bus_semantics::{BusPlan, RunnablePlan};
use indexmap::IndexMap;
use rte_text::Seq;
use std::alloc::Global;
use std::sync::Arc;
use task_machine::{Body, Code};

/// For each code of runnables the number of a runnable of it whose body is made.
pub type Made = IndexMap<(u32, u32), usize>;

/// The code of a runnable's program.
fn code_of(alloc: Global, p: &BusPlan, runnable: &RunnablePlan) -> Result<Code, Memory>
    requires bounded { IsBounded (plan_of p.now) (runnable_of runnable.now) }
    ensures { IfOk result (λ code. shape_of_code code ≡ coded_shape (coded_of runnable.now)) }
{
    let mut instrs = Vec::new(alloc);
    let accesses = Accesses::of(alloc, runnable.signature.accesses.items())?;
    let generator = Generator {
        alloc,
        accesses: &accesses,
    };
    generator.body(&mut instrs, 0, &runnable.program.body)?;
    Ok(Code {
        instrs: Seq::of(instrs),
        steps: steps_of_body(&runnable.program.body),
        loops: loops_of_body(&runnable.program.body),
    })
}

/// The body at a place.
fn body_at(bodies: &[Body], place: usize) -> Option<&Body>
    ensures { option_copied result ≡ slice_get bodies.now place }
{
    bodies.get(place)
}

/// A body that has a code.
fn with_code<'a>(bodies: &'a [Body], made: &Made, code: &(u32, u32)) -> Option<&'a Body>
    ensures { (b : Body) → option_copied result ≡ Some b → (n : ℕ) × ((get same_code made.now code.now ≡ Some n) × (slice_get bodies.now n ≡ Some b)) }
{
    let place = made.get(code)?;
    body_at(bodies, *place)
}

/// The code of a runnable's program, shared with a body that has it already. A count of sharers that is full, which no clause of `Arc`
/// excludes, is answered like want of memory.
pub fn shared_code(
    alloc: Global,
    p: &BusPlan,
    bodies: &[Body],
    made: &Made,
    runnable: &RunnablePlan,
) -> Result<Arc<Code, Global>, Memory>
    requires bounded { IsBounded (plan_of p.now) (runnable_of runnable.now) }
    requires made { AreMade p.now made.now }
    ensures { IfOk result (λ code. (place : ℕ) → slice_get p.now.runnables place ≡ Some runnable.now → HaveOneCode p.now.runnables → HaveCodes p.now bodies.now
        → shape_of_code (arc_value code) ≡ coded_shape (coded_of runnable.now)) }
{
    match with_code(bodies, made, &runnable.code) {
        Some(body) => {
            let code = Arc::try_clone(&body.code)?;
            Ok(code)
        }
        None => {
            let code = code_of(alloc, p, runnable)?;
            let code = Arc::new(alloc, code)?;
            Ok(code)
        }
    }
}
