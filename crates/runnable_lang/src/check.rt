//! Whether a program may run, by the rules of programs.

ghost use Rattle.std.specs.Prelude.{◌≡◌};
ghost use Rattle.runnable_lang.specs.Places.{first};
ghost use Rattle.runnable_lang.specs.Refusals.{failing, is_too_large, whole, of_rule, refusal, Tells};
ghost use Rattle.runnable_lang.specs.Tests.{test_of, number_of};
ghost use Rattle.runnable_lang.specs.Trees.{program_tree};

use crate::cost;
use crate::program::{Program, Signature};
use crate::refused::ProgramRefused;
use crate::table::Table;
use crate::walk::{Rule, Walk};
use rte_text::Seq;
use std::alloc::Global;

/// The greatest cost that a program may have.
const COST_LIMIT: u64 = 100_000;

/// The greatest number of variables that a program may have.
const VARS_LIMIT: u32 = 256;

/// The number of a rule.
fn number(rule: Rule) -> u16
    ensures { result ≡ number_of rule }
{
    match rule {
        Rule::Access => 17,
        Rule::AreaOrder => 19,
        Rule::NoCallInArea => 20,
    }
}

/// Whether no statement breaks the rule.
#[tactic(auto, using(crate::proofs::Firsts::rule_turn))]
fn check_rule(alloc: Global, rule: Rule, p: &Program, table: &Table) -> Result<(), ProgramRefused>
    ensures { Tells (first (of_rule (number_of rule) (failing (test_of rule table.now.accesses.now) (program_tree p.now)))) result }
{
    let walk = Walk { rule, table, alloc };
    match walk.in_body(None, &p.body)? {
        None => Ok(()),
        Some(path) => Err(ProgramRefused::Broken {
            rule: number(rule),
            path: Seq::of(path),
        }),
    }
}

/// Whether the program is small enough.
fn check_size(alloc: Global, p: &Program) -> Result<(), ProgramRefused>
    ensures { Tells (first (of_rule 18 (whole (is_too_large (program_tree p.now))))) result }
{
    if cost::of_body(&p.body) > COST_LIMIT || p.vars > VARS_LIMIT {
        return Err(ProgramRefused::Broken {
            rule: 18,
            path: Seq::of(Vec::new(alloc)),
        });
    }
    Ok(())
}

/// Whether the program breaks no rule, from the least on.
fn check_rules(alloc: Global, p: &Program, table: &Table) -> Result<(), ProgramRefused>
    ensures { Tells (refusal table.now.accesses.now (program_tree p.now)) result }
{
    check_rule(alloc, Rule::Access, p, table)?;
    check_size(alloc, p)?;
    check_rule(alloc, Rule::AreaOrder, p, table)?;
    check_rule(alloc, Rule::NoCallInArea, p, table)?;
    Ok(())
}

/// Whether a program may run with this signature: each statement has its access (17), the program is
/// small enough (18), areas stand inside areas that were declared before them (19), and no call
/// stands inside an area (20). An error of `Broken` names the least of these that is broken and the
/// first statement that breaks it.
///
/// `alloc` gives the memory for the path. There is an error of `Memory` only if a rule is broken. A program is small enough if
/// it costs at most 100,000 and has at most 256 variables.
pub fn check_program(alloc: Global, p: &Program, s: &Signature) -> Result<(), ProgramRefused>
    ensures { Tells (refusal s.now.accesses (program_tree p.now)) result }
{
    let table = Table::new(alloc, s.accesses.items());
    check_rules(alloc, p, &table)
}
