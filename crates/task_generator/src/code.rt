//! The instructions of a body while it is made.

ghost use Rattle.std.specs.Prelude.{◌≡◌, ◌<◌, ◌-◌, List, ◌++◌, ◌∷◌, [], IfOk, OnOk, map, set, length};
ghost use Rattle.runnable_lang.specs.Trees.{expr_tree};
ghost use Rattle.task_machine.specs.Instructions.{Shared, instruction_of, skip};
ghost use Rattle.task_generator.specs.Shared.{fixed, called, choosing_shared, looping_shared};

use crate::Memory;
use runnable_lang::{Expr, copy_expr};
use std::alloc::Global;
use task_machine::{Instr, Request, Taken};

/// One more instruction.
pub fn put(code: &mut Vec<Instr>, instr: Instr) -> Result<(), Memory>
    ensures { OnOk result (map instruction_of code.new.items ≡ map instruction_of code.old.items ++ instruction_of instr ∷ []) }
{
    code.push(instr)?;
    Ok(())
}

/// One more call.
pub fn put_call(
    code: &mut Vec<Instr>,
    request: Request,
    access: usize,
    taken: Taken,
) -> Result<(), Memory>
    ensures { OnOk result (map instruction_of code.new.items ≡ map instruction_of code.old.items ++ called request access taken ∷ []) }
{
    put(
        code,
        Instr::Call {
            request,
            access,
            taken,
        },
    )
}

/// Holds a place for an instruction that is written later. Answers the place.
pub fn hold(code: &mut Vec<Instr>) -> Result<usize, Memory>
    ensures place { IfOk result (λ at. at ≡ length code.old.items) }
    ensures code { OnOk result (map instruction_of code.new.items ≡ map instruction_of code.old.items ++ fixed (skip 0) ∷ []) }
{
    let at = code.len();
    put(code, Instr::Skip { past: 0 })?;
    Ok(at)
}

/// Another instruction in the place of one. If there is none, nothing changes.
#[tactic(auto, using(crate::proofs::Patching::map_replaced))]
fn replace(code: &mut Vec<Instr>, at: usize, instr: Instr)
    ensures code { map instruction_of code.new.items ≡ set (map instruction_of code.old.items) at (instruction_of instr) }
    ensures len { length code.new.items ≡ length code.old.items }
{
    if let Some(place) = code.get_mut(at) {
        *place = instr;
    }
}

/// How many instructions stand from one place to another.
fn distance(from: usize, to: usize) -> u32
    requires near { to - from < 4294967296 }
    ensures { result ≡ to - from }
{
    to.saturating_sub(from) as u32
}

/// Writes the jumps of a choice, whose test and whose jump past the second side have held places.
pub fn end_choice(
    alloc: Global,
    code: &mut Vec<Instr>,
    cond: &Expr,
    test: usize,
    jump: usize,
) -> Result<(), Memory>
    requires first { jump - test < 4294967296 }
    requires second { length code.old.items - jump < 4294967296 }
    ensures { (base first second : List Shared) → map instruction_of code.old.items ≡ (((base ++ fixed (skip 0) ∷ []) ++ first) ++ fixed (skip 0) ∷ []) ++ second → test ≡ length base → jump ≡ length ((base ++ fixed (skip 0) ∷ []) ++ first)
        → OnOk result (map instruction_of code.new.items ≡ base ++ choosing_shared (expr_tree cond.now) first second) }
{
    let cond = copy_expr(alloc, cond)?;
    let first = distance(test, jump);
    let second = distance(jump, code.len());
    replace(code, test, Instr::Unless { cond, past: first });
    replace(
        code,
        jump,
        Instr::Skip {
            past: second.saturating_sub(1),
        },
    );
    Ok(())
}

/// Ends a loop, whose beginning has held a place.
pub fn end_loop(code: &mut Vec<Instr>, begin: usize, counter: u32, times: u32) -> Result<(), Memory>
    requires near { length code.old.items - begin < 4294967296 }
    ensures { (base body : List Shared) → map instruction_of code.old.items ≡ (base ++ fixed (skip 0) ∷ []) ++ body → begin ≡ length base
        → OnOk result (map instruction_of code.new.items ≡ base ++ looping_shared counter times body) }
{
    let past = distance(begin, code.len());
    put(
        code,
        Instr::Again {
            counter,
            back: past.saturating_sub(1),
        },
    )?;
    replace(
        code,
        begin,
        Instr::Repeat {
            counter,
            times,
            past,
        },
    );
    Ok(())
}
