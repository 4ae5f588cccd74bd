//! The expressions of a program, read from JSON.

ghost use Rattle.std.specs.Prelude.{◌≡◌, IfOk, map, slice_get};
ghost use Rattle.runnable_lang.specs.Trees.{combined, expr_tree, exprs};
ghost use Rattle.serde_json.specs.View.{items_view, view};
ghost use Rattle.program_reading.specs.Expressions.{expr_of, expr_reading, expr_readings, op_reading};

use declared_names::{Positions, text_in, text_of_part, word_in};
use rte_text::Memory;
use runnable_lang::{Expr, Op};
use serde_json::Value;
use std::alloc::Global;

fn op_of(word: &str) -> Op
    ensures { result ≡ op_reading word.now }
{
    if word == "add" {
        Op::Add
    } else if word == "sub" {
        Op::Sub
    } else if word == "mul" {
        Op::Mul
    } else if word == "div" {
        Op::Div
    } else if word == "eq" {
        Op::Eq
    } else if word == "ne" {
        Op::Ne
    } else if word == "lt" {
        Op::Lt
    } else {
        Op::Le
    }
}

/// The expression that the value is, with its variables by their numbers.
#[cycle(expression)]
pub fn read_expr(alloc: Global, vars: &Positions, value: &Value) -> Result<Expr, Memory>
    ensures { IfOk result (λ e. expr_tree e ≡ expr_reading (view value.now) vars.now) }
{
    match value {
        Value::Number(_) => Ok(Expr::Const(word_in(value))),
        Value::String(_) => Ok(Expr::Var(vars.find(text_in(value)))),
        Value::Array(parts) => {
            let op = op_of(text_of_part(value, 0));
            read_operator(alloc, vars, op, parts)
        }
        Value::Null | Value::Bool(_) | Value::Object(_) => Ok(Expr::Const(0)),
    }
}

#[cycle(expression)]
fn read_operator(alloc: Global, vars: &Positions, op: Op, parts: &[Value]) -> Result<Expr, Memory>
    ensures { IfOk result (λ e. expr_tree e ≡ combined op
        (expr_of vars.now (slice_get (expr_readings (items_view parts.now)) 1))
        (expr_of vars.now (slice_get (expr_readings (items_view parts.now)) 2))) }
{
    let first = read_part(alloc, vars, parts, 1)?;
    let second = read_part(alloc, vars, parts, 2)?;
    let first = Box::new(alloc, first)?;
    let second = Box::new(alloc, second)?;
    Ok(Expr::Bin(op, first, second))
}

#[cycle(expression)]
fn read_part(alloc: Global, vars: &Positions, parts: &[Value], part: usize) -> Result<Expr, Memory>
    ensures { IfOk result (λ e. expr_tree e ≡ expr_of vars.now (slice_get (expr_readings (items_view parts.now)) part)) }
{
    if part < parts.len() {
        read_expr(alloc, vars, &parts[part])
    } else {
        Ok(Expr::Const(0))
    }
}

/// The expressions that the values are.
pub fn read_exprs(alloc: Global, vars: &Positions, values: &[Value]) -> Result<Vec<Expr>, Memory>
    ensures { IfOk result (λ es. exprs es.items ≡ map (λ d. expr_reading d vars.now) (map view values.now)) }
{
    let mut list = Vec::new(alloc);
    for value in values {
        list.push(read_expr(alloc, vars, value)?)?;
    }
    Ok(list)
}
