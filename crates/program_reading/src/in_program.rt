//! Where names stand within a program, and the parts of its statements.

ghost use Rattle.std.specs.Prelude.{◌≡◌, IfOk};
ghost use Rattle.runnable_lang.specs.Trees.{expr_tree, exprs};
ghost use Rattle.serde_json.specs.View.{view};
ghost use Rattle.program_reading.specs.Statements.{area_part, context_of, expr_part, exprs_part, item_part, mode_part, port_part, var_part, variable_part, vars_part};

use crate::expression_reading::{read_expr, read_exprs};
use declared_names::{InComponent, Positions, items_of_part, text_in, text_of_part};
use rte_text::Memory;
use runnable_lang::Expr;
use serde_json::Value;
use std::alloc::Global;

/// Where names stand within a program.
#[derive(Clone, Copy)]
pub struct InProgram<'s, 'a> {
    pub component: InComponent<'s, 'a>,
    pub vars: &'s Positions<'a>,
}

impl InProgram<'_, '_> {
    /// The port that the statement names.
    pub fn port(&self, value: &Value) -> u32
        ensures { result ≡ port_part (context_of self.now) (view value.now) }
    {
        self.component.port(text_of_part(value, 1))
    }

    /// The item of that port.
    pub fn item(&self, value: &Value) -> u32
        ensures { result ≡ item_part (context_of self.now) (view value.now) }
    {
        self.component
            .item(self.port(value), text_of_part(value, 2))
    }

    /// The mode of that port.
    pub fn mode(&self, value: &Value) -> u32
        ensures { result ≡ mode_part (context_of self.now) (view value.now) }
    {
        self.component
            .mode(self.port(value), text_of_part(value, 2))
    }

    /// The area that the statement names.
    pub fn area(&self, value: &Value) -> u32
        ensures { result ≡ area_part (context_of self.now) (view value.now) }
    {
        self.component.names.areas.find(text_of_part(value, 1))
    }

    /// The inter-runnable variable that the statement names.
    pub fn variable(&self, value: &Value) -> u32
        ensures { result ≡ variable_part (context_of self.now) (view value.now) }
    {
        self.component.names.variables.find(text_of_part(value, 1))
    }

    /// The variable that the part names.
    pub fn var(&self, value: &Value, part: usize) -> u32
        ensures { result ≡ var_part (context_of self.now) part (view value.now) }
    {
        self.vars.find(text_of_part(value, part))
    }

    /// The variables that the part lists.
    pub fn vars(&self, alloc: Global, value: &Value, part: usize) -> Result<Vec<u32>, Memory>
        ensures { IfOk result (λ vars. vars.items ≡ vars_part (context_of self.now) part (view value.now)) }
    {
        let mut vars = Vec::new(alloc);
        for name in items_of_part(value, part) {
            vars.push(self.vars.find(text_in(name)))?;
        }
        Ok(vars)
    }

    /// The expressions that the part lists.
    pub fn exprs(&self, alloc: Global, value: &Value, part: usize) -> Result<Vec<Expr>, Memory>
        ensures { IfOk result (λ es. exprs es.items ≡ exprs_part (context_of self.now) part (view value.now)) }
    {
        let list = read_exprs(alloc, self.vars, items_of_part(value, part))?;
        Ok(list)
    }

    /// The expression that the part is.
    pub fn expr(&self, alloc: Global, value: &Value, part: usize) -> Result<Expr, Memory>
        ensures { IfOk result (λ e. expr_tree e ≡ expr_part (context_of self.now) part (view value.now)) }
    {
        match value.get(part) {
            Some(value) => read_expr(alloc, self.vars, value),
            None => Ok(Expr::Const(0)),
        }
    }
}
