//! Statements that ask nothing of the bus and set nothing.

ghost use Rattle.std.specs.Prelude.{◌≡◌};
ghost use Rattle.runnable_lang.specs.Trees.{stmt_tree, body_tree, repeats};
ghost use Rattle.task_generator.specs.Nothing.{does_nothing, do_nothing};

use runnable_lang::Stmt;

/// Whether a loop has no turn, or its body asks nothing and sets nothing.
#[cycle(nothing)]
pub fn loop_does_nothing(times: u32, body: &[Stmt]) -> bool
    ensures { result ≡ does_nothing (repeats times (body_tree body.now)) }
{
    times == 0 || do_nothing(body)
}

/// Whether a statement asks nothing and sets nothing.
#[cycle(nothing)]
fn does_nothing(stmt: &Stmt) -> bool
    ensures { result ≡ does_nothing (stmt_tree stmt.now) }
{
    match stmt {
        Stmt::If { yes, no, .. } => do_nothing(yes) && do_nothing(no),
        Stmt::Repeat { times, body } => loop_does_nothing(*times, body),
        _ => false,
    }
}

/// Whether statements ask nothing and set nothing.
#[cycle(nothing)]
#[tactic(auto, using(crate::proofs::Bounding::nothing_turn))]
fn do_nothing(body: &[Stmt]) -> bool
    ensures { result ≡ do_nothing (body_tree body.now) }
{
    for stmt in body {
        if !does_nothing(stmt) {
            return false;
        }
    }
    true
}
