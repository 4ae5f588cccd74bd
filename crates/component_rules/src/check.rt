//! The checks, and what they refuse.

ghost use Rattle.std.specs.Prelude.{◌≡◌, true, Some, None, IfOk};
ghost use Rattle.plan_definitions.specs.declared.component_rule.ComponentRule.TheVariants as rules;
ghost use Rattle.plan_definitions.specs.Common.{refused_program, broken_in, of_rule, of_program, of_programs, types_fit};
ghost use Rattle.plan_definitions.specs.Telling.{Tells};
ghost use Rattle.plan_definitions.specs.ComponentRefusals.{number_of, first_broken, of_events, refusal};

use crate::accesses::misfit;
use crate::calls::mixed;
use crate::coherent::incoherent;
use crate::events::{misplaced, wrongly_disabled};
use crate::invocations::wrongly_served;
use crate::places::{program_text, spot_text};
use crate::programs::refused_program;
use description_types::{Component, Description, TypeTable};
use plan_definitions::{ComponentRule, Spot};
use rte_text::{Memory, Refusal, Refused, Text};
use std::alloc::Global;

fn number_of(rule: ComponentRule) -> u16
    ensures { result ≡ number_of rule }
{
    match rule {
        ComponentRule::Accesses => 16,
        ComponentRule::EventKinds => 21,
        ComponentRule::Invocations => 22,
        ComponentRule::Calls => 23,
        ComponentRule::Disablings => 24,
        ComponentRule::CoherentLists => 31,
    }
}

fn broken_in(
    alloc: Global,
    rule: ComponentRule,
    types: &TypeTable,
    component: &Component,
) -> Result<Option<Spot>, Memory>
    ensures { IfOk result (λ spot. spot ≡ broken_in rule types.now component.now) }
{
    match rule {
        ComponentRule::Accesses => Ok(misfit(types, component)),
        ComponentRule::EventKinds => Ok(misplaced(types, component)),
        ComponentRule::Invocations => wrongly_served(alloc, types, component),
        ComponentRule::Calls => mixed(alloc, component),
        ComponentRule::Disablings => Ok(wrongly_disabled(types, component)),
        ComponentRule::CoherentLists => incoherent(alloc, types, component),
    }
}

#[tactic(auto, using(plan_definitions::proofs::Turns::first_more, plan_definitions::proofs::Turns::first_here, plan_definitions::proofs::Turns::first_none))]
fn first_broken(
    alloc: Global,
    rule: ComponentRule,
    d: &Description,
) -> Result<Option<(usize, Spot)>, Memory>
    ensures { IfOk result (λ found. found ≡ first_broken rule d.now) }
{
    for (position, component) in d.components.items().iter().enumerate() {
        if let Some(spot) = broken_in(alloc, rule, &d.types, component)? {
            return Ok(Some((position, spot)));
        }
    }
    Ok(None)
}

fn refused(rule: u16, place: Text) -> Result<(), Refused>
    ensures { Tells (Some (rule, place)) result }
{
    Err(Refused::Rule(Refusal { rule, place }))
}

fn check_rule(alloc: Global, rule: ComponentRule, d: &Description) -> Result<(), Refused>
    ensures { Tells (of_rule rule d.now) result }
{
    match first_broken(alloc, rule, d)? {
        None => Ok(()),
        Some((component, spot)) => {
            let place = spot_text(alloc, component, spot)?;
            refused(number_of(rule), place)
        }
    }
}

fn check_program_rule(alloc: Global, rule: u16, d: &Description) -> Result<(), Refused>
    requires { types_fit d.now.types ≡ true }
    ensures { Tells (of_program rule d.now) result }
{
    match refused_program(alloc, Some(rule), d)? {
        None => Ok(()),
        Some((component, (runnable, path))) => {
            let place = program_text(alloc, component, runnable, path.items())?;
            refused(rule, place)
        }
    }
}

fn check_program_rules(alloc: Global, d: &Description) -> Result<(), Refused>
    requires { types_fit d.now.types ≡ true }
    ensures { Tells (of_programs d.now) result }
{
    check_program_rule(alloc, 17, d)?;
    check_program_rule(alloc, 18, d)?;
    check_program_rule(alloc, 19, d)?;
    check_program_rule(alloc, 20, d)
}

/// The rules of programs one by one only if one of them is broken, since each looks at all programs.
#[tactic(auto, using(crate::proofs::Passing::programs_pass))]
fn check_programs(alloc: Global, d: &Description) -> Result<(), Refused>
    requires { types_fit d.now.types ≡ true }
    ensures { Tells (of_programs d.now) result }
{
    match refused_program(alloc, None, d)? {
        None => Ok(()),
        Some(_) => check_program_rules(alloc, d),
    }
}

fn check_events(alloc: Global, d: &Description) -> Result<(), Refused>
    ensures { Tells (of_events d.now) result }
{
    check_rule(alloc, ComponentRule::EventKinds, d)?;
    check_rule(alloc, ComponentRule::Invocations, d)?;
    check_rule(alloc, ComponentRule::Calls, d)?;
    check_rule(alloc, ComponentRule::Disablings, d)
}

/// Whether each component of a description, used or not, keeps its rules: each access fits its port (16, at the access); each
/// program may run (17 to 20, as `check_program` says, at the statement or the program); each event fits its port (21, at the
/// event); each operation of a P-port has exactly one OperationInvokedEvent (22, at the port), whose runnable has no other event
/// (22, at the event); an operation that is called without waiting is called by no other access, and results and
/// AsynchronousServerCallReturnsEvents are of such operations (23, at the access or the event); modes disable only TimingEvents,
/// InitEvents, DataReceivedEvents and AsynchronousServerCallReturnsEvents, and are of the group of an R-port (24, at the event).
/// An error of `ComponentRule` names the least of these that is broken and its first place in the order of the document: within a
/// component ports come before accesses, and these before events. The types of the description fit, as they do once it is read.
///
/// An error of `Memory` may come at any time.
pub fn check_components(alloc: Global, d: &Description) -> Result<(), Refused>
    requires { types_fit d.now.types ≡ true }
    ensures { Tells (refusal d.now) result }
{
    check_rule(alloc, ComponentRule::Accesses, d)?;
    check_programs(alloc, d)?;
    check_events(alloc, d)
}

/// Whether the coherent access lists of each component, used or not, fit (31, at the list): a list has 2 to 16 items with at most 16
/// words, each of which comes once in the lists of its runnable; its runnable reads all of them implicitly, or writes all of them
/// so. An error names the first list in the order of the document that does not. This rule comes after those on the mapping and on
/// the size of the plan, and so apart.
///
/// An error of `Memory` may come at any time.
pub fn check_coherent(alloc: Global, d: &Description) -> Result<(), Refused>
    ensures { Tells (of_rule rules.CoherentLists d.now) result }
{
    check_rule(alloc, ComponentRule::CoherentLists, d)
}
