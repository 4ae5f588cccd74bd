//! The instructions of statements that hold no statements.

ghost use Rattle.std.specs.Prelude.{◌≡◌, ◌≤◌, ◌++◌, ◌∷◌, [], length, true, IfOk, OnOk, map};
ghost use Rattle.bus_semantics.specs.Common.{exprs, stmt_tree, reads_variable, sends, calls, switches, to_write, to_ask};
ghost use Rattle.task_machine.specs.declared.instr.Taken.TheVariants as taken;
ghost use Rattle.task_machine.specs.Store.{Store};
ghost use Rattle.task_machine.specs.Words.{words_given};
ghost use Rattle.task_machine.specs.Targets.{number_at};
ghost use Rattle.task_machine.specs.Instructions.{instruction_of, call, change_of, passes_of};
ghost use Rattle.task_generator.specs.Bounded.{gives};
ghost use Rattle.task_generator.specs.Numbers.{numbered};
ghost use Rattle.task_generator.specs.Code.{given_over};
ghost use Rattle.task_generator.specs.Shared.{called, shared_of};
ghost use Rattle.task_generator.specs.Calls.{bus_call_code, other_call_code};

use crate::Memory;
use crate::code::put_call;
use crate::copies::copy_numbers;
use crate::generator::Generator;
use runnable_lang::{AccessKind, Expr, Stmt, copy_expr};
use task_machine::{Given, GivenWord, Instr, Request, Taken};

impl Generator<'_, '_> {
    /// The number of the access that a statement names.
    pub fn number(&self, kind: AccessKind, port: u32, item: u32) -> usize
        ensures { result ≡ (numbered self.now.accesses.now.list.now kind port item).target }
    {
        self.accesses.find(kind, port, item).number
    }

    /// The words that a statement gives, each with the limits to which it is clamped.
    fn given_words(
        &self,
        kind: AccessKind,
        port: u32,
        item: u32,
        values: &[Expr],
    ) -> Result<Vec<GivenWord>, Memory>
        ensures few { IfOk result (λ words. length words.items ≤ length (numbered self.now.accesses.now.list.now kind port item).ins) }
        ensures words { IfOk result (λ words. (m : Store) → words_given m.vars words.items ≡ given_over (numbered self.now.accesses.now.list.now kind port item) (exprs values.now) m) }
    {
        let access = self.accesses.find(kind, port, item);
        let mut words = Vec::new(self.alloc);
        for (limits, value) in access.ins.iter().zip(values) {
            let value = copy_expr(self.alloc, value)?;
            words.push(GivenWord {
                limits: *limits,
                value,
            })?;
        }
        Ok(words)
    }

    /// The words that a statement gives, at most 16.
    pub fn given(
        &self,
        kind: AccessKind,
        port: u32,
        item: u32,
        values: &[Expr],
    ) -> Result<Given, Memory>
        requires gives { gives kind ≡ true }
        ensures { IfOk result (λ g. (m : Store) → words_given m.vars g.words.items ≡ given_over (numbered self.now.accesses.now.list.now kind port item) (exprs values.now) m) }
    {
        let words = self.given_words(kind, port, item, values)?;
        match Given::new(words) {
            Some(given) => Ok(given),
            None => unreachable!(),
        }
    }

    /// A write of an element or a variable.
    fn write(
        &self,
        code: &mut Vec<Instr>,
        kind: AccessKind,
        port: u32,
        item: u32,
        values: &[Expr],
        taken: Taken,
    ) -> Result<(), Memory>
        requires gives { gives kind ≡ true }
        ensures { OnOk result (let a = numbered self.now.accesses.now.list.now kind port item in
            map instruction_of code.new.items ≡ map instruction_of code.old.items ++ (λ t. call (λ event m. to_write (number_at t a.target) (given_over a (exprs values.now) m)) (change_of taken) (passes_of taken)) ∷ []) }
    {
        let given = self.given(kind, port, item, values)?;
        let access = self.number(kind, port, item);
        put_call(code, Request::Write { given }, access, taken)
    }

    /// A sending to an element.
    fn send(
        &self,
        code: &mut Vec<Instr>,
        port: u32,
        item: u32,
        values: &[Expr],
        status: u32,
    ) -> Result<(), Memory>
        ensures { OnOk result (map instruction_of code.new.items ≡ map instruction_of code.old.items ++ shared_of self.now.accesses.now.list.now 0 (sends port item (exprs values.now) status)) }
    {
        let given = self.given(AccessKind::Send, port, item, values)?;
        let access = self.number(AccessKind::Send, port, item);
        put_call(code, Request::Send { given }, access, Taken::Code(status))
    }

    /// An ask at a point.
    fn ask(
        &self,
        code: &mut Vec<Instr>,
        kind: AccessKind,
        port: u32,
        item: u32,
        values: &[Expr],
        taken: Taken,
    ) -> Result<(), Memory>
        requires gives { gives kind ≡ true }
        ensures { OnOk result (let a = numbered self.now.accesses.now.list.now kind port item in
            map instruction_of code.new.items ≡ map instruction_of code.old.items ++ (λ t. call (λ event m. to_ask (number_at t a.target) (given_over a (exprs values.now) m)) (change_of taken) (passes_of taken)) ∷ []) }
    {
        let given = self.given(kind, port, item, values)?;
        let access = self.number(kind, port, item);
        put_call(code, Request::Ask { given }, access, taken)
    }

    /// A call that waits for the answer of the operation.
    fn ask_and_hear(
        &self,
        code: &mut Vec<Instr>,
        port: u32,
        item: u32,
        values: &[Expr],
        vars: &[u32],
        status: u32,
    ) -> Result<(), Memory>
        ensures { OnOk result (map instruction_of code.new.items ≡ map instruction_of code.old.items ++ shared_of self.now.accesses.now.list.now 0 (calls port item (exprs values.now) vars.now status)) }
    {
        let asked = Taken::Refusal(status);
        self.ask(code, AccessKind::Call, port, item, values, asked)?;
        let access = self.number(AccessKind::Call, port, item);
        let vars = copy_numbers(self.alloc, vars)?;
        put_call(code, Request::Answer, access, Taken::Words(vars, status))?;
        Ok(())
    }

    /// Words and a status are taken of the answer to a request.
    fn take_words(
        &self,
        code: &mut Vec<Instr>,
        request: Request,
        access: usize,
        vars: &[u32],
        status: u32,
    ) -> Result<(), Memory>
        ensures { OnOk result (map instruction_of code.new.items ≡ map instruction_of code.old.items ++ called request access (taken.Words vars.now status) ∷ []) }
    {
        let vars = copy_numbers(self.alloc, vars)?;
        put_call(code, request, access, Taken::Words(vars, status))
    }

    /// A read of a variable.
    fn read_variable(
        &self,
        code: &mut Vec<Instr>,
        variable: u32,
        vars: &[u32],
    ) -> Result<(), Memory>
        ensures { OnOk result (map instruction_of code.new.items ≡ map instruction_of code.old.items ++ shared_of self.now.accesses.now.list.now 0 (reads_variable variable vars.now)) }
    {
        let access = self.number(AccessKind::IrvRead, 0, variable);
        let vars = copy_numbers(self.alloc, vars)?;
        put_call(code, Request::Read, access, Taken::Value(vars))
    }

    /// A switch to a mode.
    fn switch(&self, code: &mut Vec<Instr>, port: u32, mode: u32, status: u32) -> Result<(), Memory>
        ensures { OnOk result (map instruction_of code.new.items ≡ map instruction_of code.old.items ++ shared_of self.now.accesses.now.list.now 0 (switches port mode status)) }
    {
        let access = self.number(AccessKind::Switch, port, 0);
        put_call(code, Request::Switch { mode }, access, Taken::Code(status))
    }

    /// The instructions of a statement that calls the bus and holds no statements. Of another one there are none.
    pub fn bus_call(&self, code: &mut Vec<Instr>, stmt: &Stmt) -> Result<(), Memory>
        ensures { OnOk result (map instruction_of code.new.items ≡ map instruction_of code.old.items ++ bus_call_code self.now.accesses.now.list.now (stmt_tree stmt.now)) }
    {
        use AccessKind as Kind;
        match stmt {
            Stmt::Write {
                port,
                item,
                values,
                status,
            } => {
                let taken = Taken::Zero(*status);
                self.write(code, Kind::Write, *port, *item, values, taken)
            }
            Stmt::Read {
                port,
                item,
                vars,
                status,
            } => {
                let access = self.number(Kind::Read, *port, *item);
                self.take_words(code, Request::Read, access, vars, *status)
            }
            Stmt::Invalidate { port, item, status } => {
                let access = self.number(Kind::Invalidate, *port, *item);
                put_call(code, Request::Invalidate, access, Taken::Zero(*status))
            }
            Stmt::IsUpdated { port, item, var } => {
                let access = self.number(Kind::IsUpdated, *port, *item);
                put_call(code, Request::IsUpdated, access, Taken::Number(*var))
            }
            Stmt::Send {
                port,
                item,
                values,
                status,
            } => self.send(code, *port, *item, values, *status),
            Stmt::Receive {
                port,
                item,
                vars,
                status,
            } => {
                let access = self.number(Kind::Receive, *port, *item);
                self.take_words(code, Request::Receive, access, vars, *status)
            }
            _ => self.other_call(code, stmt),
        }
    }

    /// The instructions of a statement at an operation, a mode or a variable. Of another one there are none.
    fn other_call(&self, code: &mut Vec<Instr>, stmt: &Stmt) -> Result<(), Memory>
        ensures { OnOk result (map instruction_of code.new.items ≡ map instruction_of code.old.items ++ other_call_code self.now.accesses.now.list.now (stmt_tree stmt.now)) }
    {
        use AccessKind as Kind;
        match stmt {
            Stmt::IrvWrite { variable, values } => {
                self.write(code, Kind::IrvWrite, 0, *variable, values, Taken::Nothing)
            }
            Stmt::IrvRead { variable, vars } => self.read_variable(code, *variable, vars),
            Stmt::Call {
                port,
                item,
                values,
                vars,
                status,
            } => { self.ask_and_hear(code, *port, *item, values, vars, *status) }
            Stmt::ACall {
                port,
                item,
                values,
                status,
            } => {
                let taken = Taken::Code(*status);
                self.ask(code, Kind::ACall, *port, *item, values, taken)
            }
            Stmt::TakeResult {
                port,
                item,
                vars,
                status,
            } => {
                let access = self.number(Kind::TakeResult, *port, *item);
                self.take_words(code, Request::TakeResult, access, vars, *status)
            }
            Stmt::Switch { port, mode, status } => self.switch(code, *port, *mode, *status),
            Stmt::Mode { port, var } => {
                let access = self.number(Kind::Mode, *port, 0);
                put_call(code, Request::Mode, access, Taken::Number(*var))
            }
            _ => self.implicit(code, stmt),
        }
    }
}
