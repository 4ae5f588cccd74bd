//! The statements that hold no others, read from JSON.

ghost use Rattle.std.specs.Prelude.{◌≡◌, IfOk};
ghost use Rattle.runnable_lang.specs.Trees.{stmt_tree};
ghost use Rattle.serde_json.specs.View.{view};
ghost use Rattle.program_reading.specs.Statements.{context_of, simple};

use crate::in_program::InProgram;
use crate::keywords::Keyword;
use rte_text::Memory;
use runnable_lang::Stmt;
use serde_json::Value;
use std::alloc::Global;

impl InProgram<'_, '_> {
    /// `set`.
    pub fn set(&self, alloc: Global, value: &Value) -> Result<Stmt, Memory>
        ensures { IfOk result (λ s. stmt_tree s ≡ simple Keyword.Set (context_of self.now) (view value.now)) }
    {
        let value_part = self.expr(alloc, value, 2)?;
        Ok(Stmt::Set {
            var: self.var(value, 1),
            value: value_part,
        })
    }

    /// `write`.
    pub fn write(&self, alloc: Global, value: &Value) -> Result<Stmt, Memory>
        ensures { IfOk result (λ s. stmt_tree s ≡ simple Keyword.Write (context_of self.now) (view value.now)) }
    {
        let (port, item) = (self.port(value), self.item(value));
        let values = self.exprs(alloc, value, 3)?;
        let status = self.var(value, 4);
        Ok(Stmt::Write {
            port,
            item,
            values,
            status,
        })
    }

    /// `read`.
    pub fn read(&self, alloc: Global, value: &Value) -> Result<Stmt, Memory>
        ensures { IfOk result (λ s. stmt_tree s ≡ simple Keyword.Read (context_of self.now) (view value.now)) }
    {
        let (port, item) = (self.port(value), self.item(value));
        let vars = self.vars(alloc, value, 3)?;
        let status = self.var(value, 4);
        Ok(Stmt::Read {
            port,
            item,
            vars,
            status,
        })
    }

    /// `invalidate`.
    pub fn invalidate(&self, value: &Value) -> Stmt
        ensures { stmt_tree result ≡ simple Keyword.Invalidate (context_of self.now) (view value.now) }
    {
        let (port, item) = (self.port(value), self.item(value));
        let status = self.var(value, 3);
        Stmt::Invalidate { port, item, status }
    }

    /// `isUpdated`.
    pub fn is_updated(&self, value: &Value) -> Stmt
        ensures { stmt_tree result ≡ simple Keyword.IsUpdated (context_of self.now) (view value.now) }
    {
        let (port, item) = (self.port(value), self.item(value));
        let var = self.var(value, 3);
        Stmt::IsUpdated { port, item, var }
    }

    /// `send`.
    pub fn send(&self, alloc: Global, value: &Value) -> Result<Stmt, Memory>
        ensures { IfOk result (λ s. stmt_tree s ≡ simple Keyword.Send (context_of self.now) (view value.now)) }
    {
        let (port, item) = (self.port(value), self.item(value));
        let values = self.exprs(alloc, value, 3)?;
        let status = self.var(value, 4);
        Ok(Stmt::Send {
            port,
            item,
            values,
            status,
        })
    }

    /// `receive`.
    pub fn receive(&self, alloc: Global, value: &Value) -> Result<Stmt, Memory>
        ensures { IfOk result (λ s. stmt_tree s ≡ simple Keyword.Receive (context_of self.now) (view value.now)) }
    {
        let (port, item) = (self.port(value), self.item(value));
        let vars = self.vars(alloc, value, 3)?;
        let status = self.var(value, 4);
        Ok(Stmt::Receive {
            port,
            item,
            vars,
            status,
        })
    }

    /// `iwrite`.
    pub fn write_late(&self, alloc: Global, value: &Value) -> Result<Stmt, Memory>
        ensures { IfOk result (λ s. stmt_tree s ≡ simple Keyword.IWrite (context_of self.now) (view value.now)) }
    {
        let (port, item) = (self.port(value), self.item(value));
        let values = self.exprs(alloc, value, 3)?;
        Ok(Stmt::IWrite { port, item, values })
    }

    /// `iread`.
    pub fn read_early(&self, alloc: Global, value: &Value) -> Result<Stmt, Memory>
        ensures { IfOk result (λ s. stmt_tree s ≡ simple Keyword.IRead (context_of self.now) (view value.now)) }
    {
        let (port, item) = (self.port(value), self.item(value));
        let vars = self.vars(alloc, value, 3)?;
        Ok(Stmt::IRead { port, item, vars })
    }

    /// `irvWrite`.
    pub fn write_variable(&self, alloc: Global, value: &Value) -> Result<Stmt, Memory>
        ensures { IfOk result (λ s. stmt_tree s ≡ simple Keyword.IrvWrite (context_of self.now) (view value.now)) }
    {
        let variable = self.variable(value);
        let values = self.exprs(alloc, value, 2)?;
        Ok(Stmt::IrvWrite { variable, values })
    }

    /// `irvIWrite`.
    pub fn write_variable_late(&self, alloc: Global, value: &Value) -> Result<Stmt, Memory>
        ensures { IfOk result (λ s. stmt_tree s ≡ simple Keyword.IrvIWrite (context_of self.now) (view value.now)) }
    {
        let variable = self.variable(value);
        let values = self.exprs(alloc, value, 2)?;
        Ok(Stmt::IrvIWrite { variable, values })
    }

    /// `irvRead`.
    pub fn read_variable(&self, alloc: Global, value: &Value) -> Result<Stmt, Memory>
        ensures { IfOk result (λ s. stmt_tree s ≡ simple Keyword.IrvRead (context_of self.now) (view value.now)) }
    {
        let variable = self.variable(value);
        let vars = self.vars(alloc, value, 2)?;
        Ok(Stmt::IrvRead { variable, vars })
    }

    /// `irvIRead`.
    pub fn read_variable_early(&self, alloc: Global, value: &Value) -> Result<Stmt, Memory>
        ensures { IfOk result (λ s. stmt_tree s ≡ simple Keyword.IrvIRead (context_of self.now) (view value.now)) }
    {
        let variable = self.variable(value);
        let vars = self.vars(alloc, value, 2)?;
        Ok(Stmt::IrvIRead { variable, vars })
    }

    /// `call`.
    pub fn call(&self, alloc: Global, value: &Value) -> Result<Stmt, Memory>
        ensures { IfOk result (λ s. stmt_tree s ≡ simple Keyword.Call (context_of self.now) (view value.now)) }
    {
        let (port, item) = (self.port(value), self.item(value));
        let values = self.exprs(alloc, value, 3)?;
        let vars = self.vars(alloc, value, 4)?;
        let status = self.var(value, 5);
        Ok(Stmt::Call {
            port,
            item,
            values,
            vars,
            status,
        })
    }

    /// `acall`.
    pub fn call_and_go_on(&self, alloc: Global, value: &Value) -> Result<Stmt, Memory>
        ensures { IfOk result (λ s. stmt_tree s ≡ simple Keyword.ACall (context_of self.now) (view value.now)) }
    {
        let (port, item) = (self.port(value), self.item(value));
        let values = self.exprs(alloc, value, 3)?;
        let status = self.var(value, 4);
        Ok(Stmt::ACall {
            port,
            item,
            values,
            status,
        })
    }

    /// `result`.
    pub fn take_result(&self, alloc: Global, value: &Value) -> Result<Stmt, Memory>
        ensures { IfOk result (λ s. stmt_tree s ≡ simple Keyword.TakeResult (context_of self.now) (view value.now)) }
    {
        let (port, item) = (self.port(value), self.item(value));
        let vars = self.vars(alloc, value, 3)?;
        let status = self.var(value, 4);
        Ok(Stmt::TakeResult {
            port,
            item,
            vars,
            status,
        })
    }

    /// `switch`.
    pub fn switch(&self, value: &Value) -> Stmt
        ensures { stmt_tree result ≡ simple Keyword.Switch (context_of self.now) (view value.now) }
    {
        let (port, mode) = (self.port(value), self.mode(value));
        let status = self.var(value, 3);
        Stmt::Switch { port, mode, status }
    }

    /// `mode`.
    pub fn mode_of(&self, value: &Value) -> Stmt
        ensures { stmt_tree result ≡ simple Keyword.Mode (context_of self.now) (view value.now) }
    {
        let port = self.port(value);
        let var = self.var(value, 2);
        Stmt::Mode { port, var }
    }

    /// The statement of a keyword that holds no others.
    pub fn simple(&self, alloc: Global, keyword: Keyword, value: &Value) -> Result<Stmt, Memory>
        ensures { IfOk result (λ s. stmt_tree s ≡ simple keyword (context_of self.now) (view value.now)) }
    {
        match keyword {
            Keyword::Write => self.write(alloc, value),
            Keyword::Read => self.read(alloc, value),
            Keyword::Invalidate => Ok(self.invalidate(value)),
            Keyword::IsUpdated => Ok(self.is_updated(value)),
            Keyword::Send => self.send(alloc, value),
            Keyword::Receive => self.receive(alloc, value),
            Keyword::IWrite => self.write_late(alloc, value),
            Keyword::IRead => self.read_early(alloc, value),
            Keyword::IrvWrite => self.write_variable(alloc, value),
            Keyword::IrvRead => self.read_variable(alloc, value),
            Keyword::IrvIWrite => self.write_variable_late(alloc, value),
            Keyword::IrvIRead => self.read_variable_early(alloc, value),
            Keyword::Call => self.call(alloc, value),
            Keyword::ACall => self.call_and_go_on(alloc, value),
            Keyword::TakeResult => self.take_result(alloc, value),
            Keyword::Switch => Ok(self.switch(value)),
            Keyword::Mode => Ok(self.mode_of(value)),
            Keyword::Set | Keyword::If | Keyword::Repeat | Keyword::Area => self.set(alloc, value),
        }
    }
}
