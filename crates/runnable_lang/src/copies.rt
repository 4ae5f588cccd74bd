//! Copies of expressions.

ghost use Rattle.std.specs.Prelude.{◌≡◌, IfOk};
ghost use Rattle.runnable_lang.specs.Trees.{combined, expr_tree};

use crate::stmt::{Expr, Op};
use rte_text::Memory;
use std::alloc::Global;

fn combine(alloc: Global, op: Op, first: Expr, second: Expr) -> Result<Expr, Memory>
    ensures { IfOk result (λ e. expr_tree e ≡ combined op (expr_tree first) (expr_tree second)) }
{
    let first = Box::new(alloc, first)?;
    let second = Box::new(alloc, second)?;
    Ok(Expr::Bin(op, first, second))
}

/// A copy of the expression. It is the same, as a tree.
pub fn copy_expr(alloc: Global, e: &Expr) -> Result<Expr, Memory>
    ensures { IfOk result (λ copy. expr_tree copy ≡ expr_tree e.now) }
{
    match e {
        Expr::Const(word) => Ok(Expr::Const(*word)),
        Expr::Var(number) => Ok(Expr::Var(*number)),
        Expr::Bin(op, first, second) => {
            let first = copy_expr(alloc, first)?;
            let second = copy_expr(alloc, second)?;
            combine(alloc, *op, first, second)
        }
    }
}
