//! What a program costs, as far as it matters.

ghost use Rattle.std.specs.Prelude.{◌≡◌, ◌+◌, ◌*◌, ◌≤◌, min};
ghost use Rattle.runnable_lang.specs.Trees.{expr_tree, exprs, stmt_tree, body_tree};
ghost use Rattle.runnable_lang.specs.Costs.{expr_cost, exprs_cost, stmt_cost, body_cost};

use crate::stmt::{Expr, Stmt};

/// One more than the greatest cost that a program may have. No cost is counted further.
const CAP: u64 = 100_001;

/// The sum of two costs, up to the cap.
fn sum(first: u64, second: u64) -> u64
    requires first_is_cost { first ≤ 100001 }
    requires second_is_cost { second ≤ 100001 }
    ensures { result ≡ min (first + second) 100001 }
{
    (first + second).min(CAP)
}

/// A cost so many times, up to the cap. It is never counted one by one.
fn product(times: u32, cost: u64) -> u64
    requires is_cost { cost ≤ 100001 }
    ensures { result ≡ min (times * cost) 100001 }
{
    (times as u64 * cost).min(CAP)
}

/// The operators of an expression, up to the cap.
fn of_expr(expr: &Expr) -> u64
    ensures { result ≡ min (expr_cost (expr_tree expr.now)) 100001 }
{
    match expr {
        Expr::Const(_) | Expr::Var(_) => 0,
        Expr::Bin(_, first, second) => sum(1, sum(of_expr(first), of_expr(second))),
    }
}

/// The operators of expressions, up to the cap.
#[tactic(auto, using(crate::proofs::Capped::exprs_turn))]
fn of_exprs(list: &[Expr]) -> u64
    ensures { result ≡ min (exprs_cost (exprs list.now)) 100001 }
{
    let mut total = 0;
    for expr in list {
        total = sum(total, of_expr(expr));
    }
    total
}

/// The cost of a statement, up to the cap.
#[cycle(cost)]
#[tactic(auto, using(crate::proofs::Capped::capped_product))]
fn of_stmt(stmt: &Stmt) -> u64
    ensures { result ≡ min (stmt_cost (stmt_tree stmt.now)) 100001 }
{
    match stmt {
        Stmt::Set { value, .. } => sum(1, of_expr(value)),
        Stmt::If { cond, yes, no } => sum(1, sum(of_expr(cond), sum(of_body(yes), of_body(no)))),
        Stmt::Repeat { times, body } => sum(1, product(*times, of_body(body))),
        Stmt::Area { body, .. } => sum(2, of_body(body)),
        Stmt::Write { values, .. }
        | Stmt::Send { values, .. }
        | Stmt::IWrite { values, .. }
        | Stmt::IrvWrite { values, .. }
        | Stmt::IrvIWrite { values, .. }
        | Stmt::Call { values, .. }
        | Stmt::ACall { values, .. } => sum(1, of_exprs(values)),
        _ => 1,
    }
}

/// The cost of statements, up to the cap.
#[cycle(cost)]
#[tactic(auto, using(crate::proofs::Capped::body_turn))]
pub fn of_body(body: &[Stmt]) -> u64
    ensures { result ≡ min (body_cost (body_tree body.now)) 100001 }
{
    let mut total = 0;
    for stmt in body {
        total = sum(total, of_stmt(stmt));
    }
    total
}
