//! The statements of a program, read from JSON.

ghost use Rattle.std.specs.Prelude.{◌≡◌, IfOk, map, pos, slice_get};
ghost use Rattle.runnable_lang.specs.Trees.{body_tree, constant, in_order, repeats, sets, stmt_tree};
ghost use Rattle.serde_json.specs.View.{items_view, view};
ghost use Rattle.program_reading.specs.Statements.{block, blocks, body_part, context_of};

use crate::in_program::InProgram;
use crate::keywords::{Keyword, keyword_of};
use declared_names::{number_of_part, text_of_part};
use rte_text::Memory;
use runnable_lang::{Expr, Stmt};
use serde_json::Value;
use std::alloc::Global;

fn no_stmt() -> Stmt
    ensures { stmt_tree result ≡ sets 0 (constant (pos 0)) }
{
    let value = Expr::Const(0);
    Stmt::Set { var: 0, value }
}

/// The statement that the value is.
#[cycle(statement)]
fn read_stmt(alloc: Global, scope: &InProgram, value: &Value) -> Result<Stmt, Memory>
    ensures { IfOk result (λ s. stmt_tree s ≡ (block (view value.now)).stmt (context_of scope.now)) }
{
    match value {
        Value::Array(parts) => match keyword_of(text_of_part(value, 0)) {
            Keyword::If => {
                let (yes, no) = read_choice(alloc, scope, parts)?;
                let cond = scope.expr(alloc, value, 1)?;
                Ok(Stmt::If { cond, yes, no })
            }
            Keyword::Repeat => { read_repeat(alloc, scope, number_of_part(value, 1), parts) }
            Keyword::Area => {
                let body = read_part(alloc, scope, parts, 2)?;
                let area = scope.area(value);
                Ok(Stmt::Area { area, body })
            }
            keyword => scope.simple(alloc, keyword, value),
        },
        Value::Null | Value::Bool(_) | Value::Number(_) | Value::String(_) | Value::Object(_) => {
            Ok(no_stmt())
        }
    }
}

#[cycle(statement)]
fn read_repeat(
    alloc: Global,
    scope: &InProgram,
    times: u32,
    parts: &[Value],
) -> Result<Stmt, Memory>
    ensures { IfOk result (λ s. stmt_tree s ≡ repeats times (body_part (context_of scope.now) (slice_get (blocks (items_view parts.now)) 2))) }
{
    let body = read_part(alloc, scope, parts, 2)?;
    Ok(Stmt::Repeat { times, body })
}

#[cycle(statement)]
fn read_choice(
    alloc: Global,
    scope: &InProgram,
    parts: &[Value],
) -> Result<(Vec<Stmt>, Vec<Stmt>), Memory>
    ensures { IfOk result (λ bodies.
        (body_tree bodies.0.items ≡ body_part (context_of scope.now) (slice_get (blocks (items_view parts.now)) 2))
        × (body_tree bodies.1.items ≡ body_part (context_of scope.now) (slice_get (blocks (items_view parts.now)) 3))) }
{
    let yes = read_part(alloc, scope, parts, 2)?;
    let no = read_part(alloc, scope, parts, 3)?;
    Ok((yes, no))
}

#[cycle(statement)]
fn read_part(
    alloc: Global,
    scope: &InProgram,
    parts: &[Value],
    part: usize,
) -> Result<Vec<Stmt>, Memory>
    ensures { IfOk result (λ body. body_tree body.items ≡ body_part (context_of scope.now) (slice_get (blocks (items_view parts.now)) part)) }
{
    if part < parts.len() {
        read_body(alloc, scope, &parts[part])
    } else {
        Ok(Vec::new(alloc))
    }
}

/// The statements that the value lists.
#[cycle(statement)]
pub fn read_body(alloc: Global, scope: &InProgram, value: &Value) -> Result<Vec<Stmt>, Memory>
    ensures { IfOk result (λ body. body_tree body.items ≡ (block (view value.now)).body (context_of scope.now)) }
{
    match value {
        Value::Array(items) => read_stmts(alloc, scope, items),
        Value::Null | Value::Bool(_) | Value::Number(_) | Value::String(_) | Value::Object(_) => {
            Ok(Vec::new(alloc))
        }
    }
}

#[cycle(statement)]
fn read_stmts(alloc: Global, scope: &InProgram, items: &[Value]) -> Result<Vec<Stmt>, Memory>
    ensures { IfOk result (λ body. body_tree body.items ≡ in_order (map (λ b. b.stmt (context_of scope.now)) (blocks (items_view items.now)))) }
{
    let mut body = Vec::new(alloc);
    for position in 0..items.len() {
        body.push(read_stmt(alloc, scope, &items[position])?)?;
    }
    Ok(body)
}
