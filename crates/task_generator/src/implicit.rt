//! The instructions of statements that work on what was fetched, or on what is to be published.

ghost use Rattle.std.specs.Prelude.{◌≡◌, ◌++◌, ◌∷◌, [], true, OnOk, map};
ghost use Rattle.runnable_lang.specs.Trees.{exprs, stmt_tree};
ghost use Rattle.task_machine.specs.Targets.{fetched_at, written_at};
ghost use Rattle.task_machine.specs.Instructions.{instruction_of, keep, load};
ghost use Rattle.task_generator.specs.Numbers.{numbered};
ghost use Rattle.task_generator.specs.Bounded.{gives};
ghost use Rattle.task_generator.specs.Code.{given_over};
ghost use Rattle.task_generator.specs.Calls.{implicit_code};

use crate::Memory;
use crate::code::put;
use crate::copies::copy_numbers;
use crate::generator::Generator;
use runnable_lang::{AccessKind, Expr, Stmt};
use task_machine::Instr;

impl Generator<'_, '_> {
    /// The words of a statement go into the slot of what it is to publish.
    fn keep(
        &self,
        code: &mut Vec<Instr>,
        kind: AccessKind,
        port: u32,
        item: u32,
        values: &[Expr],
    ) -> Result<(), Memory>
        requires gives { gives kind ≡ true }
        ensures { OnOk result (let a = numbered self.now.accesses.now.list.now kind port item in
            map instruction_of code.new.items ≡ map instruction_of code.old.items ++ (λ t. keep (written_at t a.target) (given_over a (exprs values.now))) ∷ []) }
    {
        let given = self.given(kind, port, item, values)?;
        let access = self.number(kind, port, item);
        put(code, Instr::Keep { access, given })
    }

    /// Variables take the words of the slot of what was fetched.
    fn load(
        &self,
        code: &mut Vec<Instr>,
        kind: AccessKind,
        port: u32,
        item: u32,
        vars: &[u32],
    ) -> Result<(), Memory>
        ensures { OnOk result (let a = numbered self.now.accesses.now.list.now kind port item in
            map instruction_of code.new.items ≡ map instruction_of code.old.items ++ (λ t. load vars.now (fetched_at t a.target)) ∷ []) }
    {
        let vars = copy_numbers(self.alloc, vars)?;
        let access = self.number(kind, port, item);
        put(code, Instr::Load { vars, access })
    }

    /// The instructions of a statement that works on what was fetched, or on what is to be published. Of another one there are none.
    pub fn implicit(&self, code: &mut Vec<Instr>, stmt: &Stmt) -> Result<(), Memory>
        ensures { OnOk result (map instruction_of code.new.items ≡ map instruction_of code.old.items ++ implicit_code self.now.accesses.now.list.now (stmt_tree stmt.now)) }
    {
        use AccessKind as Kind;
        match stmt {
            Stmt::IWrite { port, item, values } => {
                self.keep(code, Kind::IWrite, *port, *item, values)
            }
            Stmt::IRead { port, item, vars } => self.load(code, Kind::IRead, *port, *item, vars),
            Stmt::IrvIWrite { variable, values } => {
                self.keep(code, Kind::IrvIWrite, 0, *variable, values)
            }
            Stmt::IrvIRead { variable, vars } => {
                self.load(code, Kind::IrvIRead, 0, *variable, vars)
            }
            _ => Ok(()),
        }
    }
}
