//! The checks, and what they refuse.

ghost use Rattle.std.specs.Prelude.{◌≡◌, IfOk, OnOk, Some, None, is_some};
ghost use Rattle.plan_definitions.specs.Common.{first_of, unless, named_by, IsOfTasks, Tells, mapping_text, of_events, of_named, HaveOrder, TellsOrder};
ghost use Rattle.mapping_rules.specs.InstanceRules.{number_of, of_rule, part_text};
ghost use Rattle.plan_definitions.specs.Telling.{Tells as Says};
ghost use Rattle.plan_definitions.specs.MappingRefusals.{IsRefusal};

use crate::instances::{InstanceRule, Part, first_broken};
use crate::kept::KeptMapping;
use crate::mapped::Mapped;
use crate::naming::Names;
use crate::peeling::are_acyclic;
use crate::places::{event_text, mapped_text, mapping_text, runnable_text};
use crate::servers::Servers;
use crate::waits::waits;
use description_types::{Description, Flat, MappedEvent};
use rte_text::{Memory, Refusal, Refused, Text};
use std::alloc::Global;

fn is_named<'a>(names: &Names<'a>, mapped: &'a MappedEvent) -> bool
    ensures { result ≡ is_some (named_by names.now.d.now names.now.f.now mapped.now) }
{
    names.named_by(mapped).is_some()
}

#[tactic(auto, using(plan_definitions::proofs::Turns::first_more, plan_definitions::proofs::Turns::first_here, plan_definitions::proofs::Turns::first_none))]
fn unnamed<'a>(names: &Names<'a>, events: &'a [MappedEvent]) -> Option<usize>
    ensures { result ≡ first_of (λ k x. unless (is_some (named_by names.now.d.now names.now.f.now x)) k) 0 events.now }
{
    for (number, mapped) in events.iter().enumerate() {
        if !is_named(names, mapped) {
            return Some(number);
        }
    }
    None
}

fn refused(rule: u16, place: Text) -> Result<(), Refused>
    ensures { Says (Some (rule, place)) result }
{
    Err(Refused::Rule(Refusal { rule, place }))
}

fn check_each_named(alloc: Global, names: &Names<'_>) -> Result<(), Refused>
    ensures { Says (of_named names.now.d.now names.now.f.now) result }
{
    match unnamed(names, names.d.mapping.events.items()) {
        None => Ok(()),
        Some(number) => {
            let place = mapped_text(alloc, number)?;
            refused(25, place)
        }
    }
}

fn check_named(alloc: Global, mapped: &Mapped<'_>) -> Result<(), Refused>
    ensures { Says (of_named mapped.now.names.d.now mapped.now.names.f.now) result }
{
    if mapped.are_named() {
        return Ok(());
    }
    check_each_named(alloc, &mapped.names)
}

fn number_of(rule: InstanceRule) -> u16
    ensures { result ≡ number_of rule }
{
    match rule {
        InstanceRule::MappedOnce => 26,
        InstanceRule::OneTask => 27,
        InstanceRule::Direct => 28,
    }
}

fn part_text(
    alloc: Global,
    names: &Names<'_>,
    rule: InstanceRule,
    part: Part,
) -> Result<Text, Memory>
    ensures { IfOk result (λ text. text ≡ part_text rule names.now.d.now names.now.f.now part) }
{
    match rule {
        InstanceRule::MappedOnce | InstanceRule::Direct => event_text(alloc, names, part),
        InstanceRule::OneTask => runnable_text(alloc, names, part),
    }
}

fn check_rule(alloc: Global, servers: &Servers<'_>, rule: InstanceRule) -> Result<(), Refused>
    ensures { Says (of_rule rule servers.now.mapped.now.names.d.now servers.now.mapped.now.names.f.now) result }
{
    match first_broken(alloc, servers, rule)? {
        None => Ok(()),
        Some(part) => {
            let mapped = servers.mapped;
            let place = part_text(alloc, &mapped.names, rule, part)?;
            refused(number_of(rule), place)
        }
    }
}

fn check_events(alloc: Global, servers: &Servers<'_>) -> Result<(), Refused>
    ensures { Says (of_events servers.now.mapped.now.names.d.now servers.now.mapped.now.names.f.now) result }
{
    check_named(alloc, servers.mapped)?;
    check_rule(alloc, servers, InstanceRule::MappedOnce)?;
    check_rule(alloc, servers, InstanceRule::OneTask)?;
    check_rule(alloc, servers, InstanceRule::Direct)
}

/// Whether the tasks can be put in an order in which each waits only for later ones.
fn are_ordered(alloc: Global, servers: &Servers<'_>) -> Result<bool, Memory>
    ensures { IfOk result (λ answer. TellsOrder answer servers.now.mapped.now.names.d.now servers.now.mapped.now.names.f.now) }
{
    let edges = waits(alloc, servers)?;
    let answer = are_acyclic(alloc, edges)?;
    Ok(answer)
}

fn refuse_tasks(alloc: Global) -> Result<(), Refused>
    ensures says { Says (Some (29, mapping_text)) result }
    ensures refused { OnOk result ⊥ }
{
    let place = mapping_text(alloc)?;
    Err(Refused::Rule(Refusal { rule: 29, place }))
}

fn check_tasks(alloc: Global, servers: &Servers<'_>) -> Result<(), Refused>
    ensures refusal { Tells (IsOfTasks servers.now.mapped.now.names.d.now servers.now.mapped.now.names.f.now) result }
    ensures order { OnOk result (HaveOrder servers.now.mapped.now.names.d.now servers.now.mapped.now.names.f.now) }
{
    let ordered = are_ordered(alloc, servers)?;
    if ordered {
        return Ok(());
    }
    refuse_tasks(alloc)
}

fn check_rules(alloc: Global, servers: &Servers<'_>) -> Result<(), Refused>
    ensures refusal { Tells (IsRefusal servers.now.mapped.now.names.d.now servers.now.mapped.now.names.f.now) result }
    ensures order { OnOk result (HaveOrder servers.now.mapped.now.names.d.now servers.now.mapped.now.names.f.now) }
{
    match check_events(alloc, servers) {
        Ok(()) => check_tasks(alloc, servers),
        Err(refused) => Err(refused),
    }
}

fn check_mapped(alloc: Global, mapped: &Mapped<'_>) -> Result<(), Refused>
    ensures refusal { Tells (IsRefusal mapped.now.names.d.now mapped.now.names.f.now) result }
    ensures order { OnOk result (HaveOrder mapped.now.names.d.now mapped.now.names.f.now) }
{
    let servers = Servers::new(alloc, mapped)?;
    let checked = check_rules(alloc, &servers);
    drop(servers);
    checked
}

/// Whether the mapping of a description, made flat, keeps its rules: each mapped event names an instance and an event of it (25,
/// at the mapped event); each event of each instance is mapped once, an OperationInvokedEvent at most once (26, at the event);
/// all events of a runnable of an instance are mapped to one task (27, at the runnable); an OperationInvokedEvent that is not
/// mapped has a runnable that may be invoked concurrently and makes no call, and its operation is not joined to the environment
/// (28, at the event); no task waits for itself, directly or through others, if a task waits for that of each queued server
/// that a runnable in it calls by `call` (29, at the mapping). An error of `Rule` names the least of these that is broken and
/// its first place: a JSON pointer, or a name as in a trace, in the order of instances and of their declarations. An error of
/// `Memory` may come at any time.
///
/// If they are kept, the tasks can be put in an order in which each waits only for later ones. Of events that are not mapped
/// nothing is listed, so they may be counted before `list_mapping` lists all, which is given what is found of the events here.
///
/// SWS_RTE: RteEventToTaskMapping.
pub fn check_mapping<'a>(
    alloc: Global,
    d: &'a Description,
    f: &'a Flat,
) -> Result<KeptMapping<'a>, Refused>
    ensures refusal { Tells (IsRefusal d.now f.now) result }
    ensures order { OnOk result (HaveOrder d.now f.now) }
    ensures description { IfOk result (λ kept. kept.d.now ≡ d.now) }
    ensures flat { IfOk result (λ kept. kept.f.now ≡ f.now) }
{
    let mapped = Mapped::new(alloc, d, f)?;
    match check_mapped(alloc, &mapped) {
        Ok(()) => Ok(KeptMapping { d, f, mapped }),
        Err(refused) => {
            drop(mapped);
            Err(refused)
        },
    }
}
