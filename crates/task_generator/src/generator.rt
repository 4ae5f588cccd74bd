//! The instructions of each statement.

ghost use Rattle.std.specs.Prelude.{◌≡◌, ◌≤◌, ◌+◌, ◌++◌, OnOk, map};
ghost use Rattle.bus_semantics.specs.Common.{stmt_tree, body_tree, repeats, in_area, stmt_cost, body_cost};
ghost use Rattle.task_machine.specs.Instructions.{instruction_of};
ghost use Rattle.task_generator.specs.Bounds.{loops, loops_of_body};
ghost use Rattle.task_generator.specs.Shared.{shared_of, shared_of_body};

use crate::Memory;
use crate::accesses::Accesses;
use crate::code::{end_choice, end_loop, hold, put, put_call};
use crate::nothing::loop_does_nothing;
use runnable_lang::{AccessKind, Stmt, copy_expr};
use std::alloc::Global;
use task_machine::{Instr, Request, Taken};

/// What makes the instructions of a runnable.
#[derive(Clone, Copy)]
pub struct Generator<'a, 'p> {
    pub alloc: Global,
    pub accesses: &'a Accesses<'p>,
}

impl Generator<'_, '_> {
    /// A loop: the counter is set, the body runs, and the counter is lowered. One that does nothing needs no instructions.
    #[cycle(generate)]
    fn repeat(
        &self,
        code: &mut Vec<Instr>,
        depth: u32,
        times: u32,
        body: &[Stmt],
    ) -> Result<(), Memory>
        requires cost { stmt_cost (repeats times (body_tree body.now)) ≤ 100000 }
        requires depth { depth + loops (repeats times (body_tree body.now)) ≤ 100000 }
        ensures { OnOk result (map instruction_of code.new.items ≡ map instruction_of code.old.items ++ shared_of self.now.accesses.now.list.now depth (repeats times (body_tree body.now))) }
    {
        if loop_does_nothing(times, body) {
            return Ok(());
        }
        let begin = hold(code)?;
        self.body(code, depth + 1, body)?;
        end_loop(code, begin, depth, times)?;
        Ok(())
    }

    /// An area: it is entered, the body runs, and it is left.
    #[cycle(generate)]
    fn area(
        &self,
        code: &mut Vec<Instr>,
        depth: u32,
        area: u32,
        body: &[Stmt],
    ) -> Result<(), Memory>
        requires cost { stmt_cost (in_area area (body_tree body.now)) ≤ 100000 }
        requires depth { depth + loops (in_area area (body_tree body.now)) ≤ 100000 }
        ensures { OnOk result (map instruction_of code.new.items ≡ map instruction_of code.old.items ++ shared_of self.now.accesses.now.list.now depth (in_area area (body_tree body.now))) }
    {
        let access = self.number(AccessKind::Enter, 0, area);
        put_call(code, Request::Enter, access, Taken::Nothing)?;
        self.body(code, depth, body)?;
        put_call(code, Request::Leave, access, Taken::Nothing)?;
        Ok(())
    }

    /// The instructions of a statement with so many loops around it.
    #[cycle(generate)]
    fn statement(&self, code: &mut Vec<Instr>, depth: u32, stmt: &Stmt) -> Result<(), Memory>
        requires cost { stmt_cost (stmt_tree stmt.now) ≤ 100000 }
        requires depth { depth + loops (stmt_tree stmt.now) ≤ 100000 }
        ensures { OnOk result (map instruction_of code.new.items ≡ map instruction_of code.old.items ++ shared_of self.now.accesses.now.list.now depth (stmt_tree stmt.now)) }
    {
        match stmt {
            Stmt::Set { var, value } => {
                let value = copy_expr(self.alloc, value)?;
                put(code, Instr::Set { var: *var, value })
            }
            Stmt::If { cond, yes, no } => {
                let test = hold(code)?;
                self.body(code, depth, yes)?;
                let jump = hold(code)?;
                self.body(code, depth, no)?;
                end_choice(self.alloc, code, cond, test, jump)?;
                Ok(())
            }
            Stmt::Repeat { times, body } => self.repeat(code, depth, *times, body),
            Stmt::Area { area, body } => self.area(code, depth, *area, body),
            _ => self.bus_call(code, stmt),
        }
    }

    /// The instructions of statements with so many loops around them, one after the other.
    #[cycle(generate)]
    pub fn body(&self, code: &mut Vec<Instr>, depth: u32, body: &[Stmt]) -> Result<(), Memory>
        requires cost { body_cost (body_tree body.now) ≤ 100000 }
        requires depth { depth + loops_of_body (body_tree body.now) ≤ 100000 }
        ensures { OnOk result (map instruction_of code.new.items ≡ map instruction_of code.old.items ++ shared_of_body self.now.accesses.now.list.now depth (body_tree body.now)) }
    {
        for stmt in body {
            self.statement(code, depth, stmt)?;
        }
        Ok(())
    }
}
