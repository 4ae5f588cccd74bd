//! The walk over the statements of a program, to the first that fails a test.

ghost use Rattle.std.specs.Prelude.{◌≡◌};
ghost use Rattle.runnable_lang.specs.Trees.{stmt_tree, body_tree};
ghost use Rattle.runnable_lang.specs.Places.{first, failing_in, failing_among, within};
ghost use Rattle.runnable_lang.specs.Tests.{test_of, items_of, under_path, Finds};

use crate::access;
use crate::stmt::Stmt;
use crate::table::Table;
use std::alloc::{AllocError, Global};

/// A rule that looks at one statement and what stands around it.
#[derive(Clone, Copy)]
pub enum Rule {
    /// A statement has its access.
    Access,
    /// An area inside areas was declared after each of them.
    AreaOrder,
    /// No call stands inside an area.
    NoCallInArea,
}

/// A walk that looks for the first statement that breaks a rule.
#[derive(Drop)]
pub struct Walk<'a> {
    pub rule: Rule,
    pub table: &'a Table<'a>,
    pub alloc: Global,
}

/// The greatest number of the areas around the body of an area.
fn inside(around: Option<u32>, area: u32) -> Option<u32>
    ensures { result ≡ within around area }
{
    match around {
        None => Some(area),
        Some(greatest) => Some(greatest.max(area)),
    }
}

/// A path, one level further out.
fn under(position: usize, found: Option<Vec<usize>>) -> Result<Option<Vec<usize>>, AllocError>
    ensures { Finds (under_path position (items_of found)) result }
{
    match found {
        None => Ok(None),
        Some(mut path) => {
            path.insert(0, position)?;
            Ok(Some(path))
        }
    }
}

impl Walk<'_> {
    /// Whether the statement breaks the rule.
    fn fails(&self, around: Option<u32>, stmt: &Stmt) -> bool
        ensures { result ≡ test_of self.now.rule self.now.table.now.accesses.now around (stmt_tree stmt.now) }
    {
        match self.rule {
            Rule::Access => !access::is_served(stmt, self.table),
            Rule::AreaOrder => match (around, stmt) {
                (Some(greatest), Stmt::Area { area, .. }) => *area <= greatest,
                _ => false,
            },
            Rule::NoCallInArea => {
                around.is_some() && matches!(stmt, Stmt::Call { .. } | Stmt::ACall { .. })
            }
        }
    }

    /// The path, within the statement, of the first that breaks the rule.
    #[cycle(walk)]
    fn in_stmt(&self, around: Option<u32>, stmt: &Stmt) -> Result<Option<Vec<usize>>, AllocError>
        ensures { Finds (first (failing_in (test_of self.now.rule self.now.table.now.accesses.now) around (stmt_tree stmt.now))) result }
    {
        if self.fails(around, stmt) {
            return Ok(Some(Vec::new(self.alloc)));
        }
        match stmt {
            Stmt::If { yes, no, .. } => match self.in_part(around, 2, yes)? {
                None => self.in_part(around, 3, no),
                Some(path) => Ok(Some(path)),
            },
            Stmt::Repeat { body, .. } => self.in_part(around, 2, body),
            Stmt::Area { area, body } => self.in_part(inside(around, *area), 2, body),
            _ => Ok(None),
        }
    }

    /// The path, within a statement that holds this body at `part`, of the first in the body that
    /// breaks the rule.
    #[cycle(walk)]
    #[tactic(auto, using(crate::proofs::Firsts::under_is_some))]
    fn in_part(
        &self,
        around: Option<u32>,
        part: usize,
        body: &[Stmt],
    ) -> Result<Option<Vec<usize>>, AllocError>
        ensures { Finds (under_path part (first (failing_among (test_of self.now.rule self.now.table.now.accesses.now) around 0 (body_tree body.now)))) result }
    {
        let found = self.in_body(around, body)?;
        under(part, found)
    }

    /// The path, within the statements, of the first that breaks the rule.
    #[cycle(walk)]
    #[tactic(auto, using(crate::proofs::Firsts::next_turn, crate::proofs::Firsts::held_turn))]
    pub fn in_body(
        &self,
        around: Option<u32>,
        body: &[Stmt],
    ) -> Result<Option<Vec<usize>>, AllocError>
        ensures { Finds (first (failing_among (test_of self.now.rule self.now.table.now.accesses.now) around 0 (body_tree body.now))) result }
    {
        for (position, stmt) in body.iter().enumerate() {
            if let Some(path) = self.in_stmt(around, stmt)? {
                return under(position, Some(path));
            }
        }
        Ok(None)
    }
}
