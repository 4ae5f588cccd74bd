//! Which statements have the access that they need.

ghost use Rattle.std.specs.Prelude.{◌≡◌, length};
ghost use Rattle.std.specs.List.{list_any};
ghost use Rattle.runnable_lang.specs.Trees.{exprs, stmt_tree};
ghost use Rattle.runnable_lang.specs.Accesses.{is_at, counts, serves, serves_switch, has_access};

use crate::program::{AccessKind, AccessSig};
use crate::stmt::{Expr, Stmt};
use crate::table::{Table, number};

/// Whether the access has this kind and port.
fn is_access_at(access: &AccessSig, kind: AccessKind, port: u32) -> bool
    ensures { result ≡ is_at kind port access.now }
{
    number(access.kind) == number(kind) && access.port == port
}

/// Whether there are as many words as the statement gives or takes, if it does so.
fn counts_words(wanted: Option<usize>, words: usize) -> bool
    ensures { result ≡ counts wanted words }
{
    match wanted {
        None => true,
        Some(wanted) => wanted == words,
    }
}

/// What a statement names, and how many values it gives and variables it takes, if it does so.
#[derive(Clone, Copy)]
struct Need {
    kind: AccessKind,
    port: u32,
    item: u32,
    values: Option<usize>,
    vars: Option<usize>,
}

impl Need {
    /// Whether the access is the one needed.
    fn is_served_by(&self, access: &AccessSig) -> bool
        ensures { result ≡ serves self.now.kind self.now.port self.now.item self.now.values self.now.vars access.now }
    {
        is_access_at(access, self.kind, self.port)
            && access.item == self.item
            && counts_words(self.values, access.ins.len())
            && counts_words(self.vars, access.outs.len())
    }

    /// Whether one of the accesses is the one needed.
    fn is_among(&self, table: &Table) -> bool
        ensures { result ≡ list_any (serves self.now.kind self.now.port self.now.item self.now.values self.now.vars) table.now.accesses.now }
    {
        let hinted = table.hinted((number(self.kind), self.port, self.item));
        if let Some(access) = hinted
            && self.is_served_by(access)
        {
            return true;
        }
        table
            .accesses
            .iter()
            .any(|access| self.is_served_by(access))
    }
}

/// Whether the access serves a switch to the mode.
fn is_switch(access: &AccessSig, port: u32, mode: u32) -> bool
    ensures { result ≡ serves_switch port mode access.now }
{
    is_access_at(access, AccessKind::Switch, port) && mode < access.modes
}

/// Whether an access serves a switch to the mode.
fn has_switch(table: &Table, port: u32, mode: u32) -> bool
    ensures { result ≡ list_any (serves_switch port mode) table.now.accesses.now }
{
    let hinted = table.hinted((number(AccessKind::Switch), port, 0));
    if let Some(access) = hinted
        && is_switch(access, port, mode)
    {
        return true;
    }
    table
        .accesses
        .iter()
        .any(|access| is_switch(access, port, mode))
}

/// Whether there is an access of this kind, port and item.
fn names(table: &Table, kind: AccessKind, port: u32, item: u32) -> bool
    ensures { result ≡ list_any (serves kind port item None None) table.now.accesses.now }
{
    let (values, vars) = (None, None);
    Need {
        kind,
        port,
        item,
        values,
        vars,
    }
    .is_among(table)
}

/// Whether there is one that has a word for each value given.
fn gives(table: &Table, kind: AccessKind, port: u32, item: u32, values: &[Expr]) -> bool
    ensures { result ≡ list_any (serves kind port item (Some (length (exprs values.now))) None) table.now.accesses.now }
{
    let (values, vars) = (Some(values.len()), None);
    Need {
        kind,
        port,
        item,
        values,
        vars,
    }
    .is_among(table)
}

/// Whether there is one that has a word for each variable taken.
fn takes(table: &Table, kind: AccessKind, port: u32, item: u32, vars: &[u32]) -> bool
    ensures { result ≡ list_any (serves kind port item None (Some (length vars.now))) table.now.accesses.now }
{
    let (values, vars) = (None, Some(vars.len()));
    Need {
        kind,
        port,
        item,
        values,
        vars,
    }
    .is_among(table)
}

/// Whether there is an access to the operation that has a word for each argument.
fn calls(table: &Table, port: u32, item: u32, values: &[Expr], vars: &[u32]) -> bool
    ensures { result ≡ list_any (serves AccessKind.Call port item (Some (length (exprs values.now))) (Some (length vars.now))) table.now.accesses.now }
{
    let kind = AccessKind::Call;
    let (values, vars) = (Some(values.len()), Some(vars.len()));
    Need {
        kind,
        port,
        item,
        values,
        vars,
    }
    .is_among(table)
}

/// Whether the statement has its access. It takes no memory.
pub fn is_served(stmt: &Stmt, table: &Table) -> bool
    ensures { result ≡ has_access table.now.accesses.now (stmt_tree stmt.now) }
{
    use AccessKind as Kind;
    match stmt {
        Stmt::Set { .. } | Stmt::If { .. } | Stmt::Repeat { .. } => true,
        Stmt::Area { area, .. } => names(table, Kind::Enter, 0, *area),
        Stmt::Write {
            port,
            item,
            values,
            ..
        } => gives(table, Kind::Write, *port, *item, values),
        Stmt::Read {
            port,
            item,
            vars,
            ..
        } => takes(table, Kind::Read, *port, *item, vars),
        Stmt::Invalidate { port, item, .. } => names(table, Kind::Invalidate, *port, *item),
        Stmt::IsUpdated { port, item, .. } => names(table, Kind::IsUpdated, *port, *item),
        Stmt::Send {
            port,
            item,
            values,
            ..
        } => gives(table, Kind::Send, *port, *item, values),
        Stmt::Receive {
            port,
            item,
            vars,
            ..
        } => takes(table, Kind::Receive, *port, *item, vars),
        Stmt::IWrite { port, item, values } => gives(table, Kind::IWrite, *port, *item, values),
        Stmt::IRead { port, item, vars } => takes(table, Kind::IRead, *port, *item, vars),
        Stmt::IrvWrite { variable, values } => gives(table, Kind::IrvWrite, 0, *variable, values),
        Stmt::IrvRead { variable, vars } => takes(table, Kind::IrvRead, 0, *variable, vars),
        Stmt::IrvIWrite { variable, values } => gives(table, Kind::IrvIWrite, 0, *variable, values),
        Stmt::IrvIRead { variable, vars } => takes(table, Kind::IrvIRead, 0, *variable, vars),
        Stmt::Call {
            port,
            item,
            values,
            vars,
            ..
        } => calls(table, *port, *item, values, vars),
        Stmt::ACall {
            port,
            item,
            values,
            ..
        } => gives(table, Kind::ACall, *port, *item, values),
        Stmt::TakeResult {
            port,
            item,
            vars,
            ..
        } => takes(table, Kind::TakeResult, *port, *item, vars),
        Stmt::Switch { port, mode, .. } => has_switch(table, *port, *mode),
        Stmt::Mode { port, .. } => names(table, Kind::Mode, *port, 0),
    }
}
