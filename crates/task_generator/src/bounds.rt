//! How many instructions a program executes at most, and how deep its loops stand within one another.

ghost use Rattle.std.specs.Prelude.{◌≡◌, min};
ghost use Rattle.runnable_lang.specs.Trees.{stmt_tree, body_tree, repeats};
ghost use Rattle.task_generator.specs.Bounds.{steps, steps_of_body, loops, loops_of_body};

use crate::nothing::loop_does_nothing;
use runnable_lang::Stmt;

/// The instructions that a loop executes at most, counted up to 2^64 - 1.
#[cycle(steps)]
#[tactic(auto, using(crate::proofs::Bounding::loop_turns))]
fn steps_of_loop(times: u32, body: &[Stmt]) -> u64
    ensures { result ≡ min (steps (repeats times (body_tree body.now))) 18446744073709551615 }
{
    if loop_does_nothing(times, body) {
        return 0;
    }
    u64::from(times)
        .saturating_mul(steps_of_body(body).saturating_add(1))
        .saturating_add(1)
}

/// The instructions that a statement executes at most, counted up to 2^64 - 1.
#[cycle(steps)]
fn steps(stmt: &Stmt) -> u64
    ensures { result ≡ min (steps (stmt_tree stmt.now)) 18446744073709551615 }
{
    match stmt {
        Stmt::If { yes, no, .. } => steps_of_body(yes)
            .saturating_add(steps_of_body(no))
            .saturating_add(2),
        Stmt::Repeat { times, body } => steps_of_loop(*times, body),
        Stmt::Area { body, .. } => steps_of_body(body).saturating_add(2),
        Stmt::Call { .. } => 2,
        _ => 1,
    }
}

/// The instructions that statements execute at most, one after the other, counted up to 2^64 - 1.
#[cycle(steps)]
#[tactic(auto, using(crate::proofs::Bounding::steps_turn))]
pub fn steps_of_body(body: &[Stmt]) -> u64
    ensures { result ≡ min (steps_of_body (body_tree body.now)) 18446744073709551615 }
{
    let mut total: u64 = 0;
    for stmt in body {
        total = total.saturating_add(steps(stmt));
    }
    total
}

/// The loops of a loop that stand within one another, counted up to 2^32 - 1.
#[cycle(loops)]
fn loops_of_loop(times: u32, body: &[Stmt]) -> u32
    ensures { result ≡ min (loops (repeats times (body_tree body.now))) 4294967295 }
{
    if loop_does_nothing(times, body) {
        return 0;
    }
    loops_of_body(body).saturating_add(1)
}

/// The loops of a statement that stand within one another, counted up to 2^32 - 1.
#[cycle(loops)]
fn loops(stmt: &Stmt) -> u32
    ensures { result ≡ min (loops (stmt_tree stmt.now)) 4294967295 }
{
    match stmt {
        Stmt::If { yes, no, .. } => loops_of_body(yes).max(loops_of_body(no)),
        Stmt::Repeat { times, body } => loops_of_loop(*times, body),
        Stmt::Area { body, .. } => loops_of_body(body),
        _ => 0,
    }
}

/// The loops of statements that stand within one another, counted up to 2^32 - 1.
#[cycle(loops)]
#[tactic(auto, using(crate::proofs::Bounding::loops_turn))]
pub fn loops_of_body(body: &[Stmt]) -> u32
    ensures { result ≡ min (loops_of_body (body_tree body.now)) 4294967295 }
{
    let mut most: u32 = 0;
    for stmt in body {
        most = most.max(loops(stmt));
    }
    most
}
