//! The rules on what instances have.

ghost use Rattle.std.specs.Prelude.{◌≡◌, IfOk, Some, false, length, nat_eq, not, option_and_then, slice_get};
ghost use Rattle.bus_semantics.specs.Common.{list_all, option_map_or};
ghost use Rattle.plan_definitions.specs.Common.{first_of, unless, component_of, mapped_as, are_same, badly_mapped_in, is_call, is_mapped_well, keeps_direct, may_be_direct, not_direct_in};
ghost use Rattle.plan_definitions.specs.Common.{spread_in};
ghost use Rattle.mapping_rules.specs.Groups.{values_at};
ghost use Rattle.mapping_rules.specs.InstanceRules.{broken_in, first_broken};

use crate::groups::Groups;
use crate::servers::Servers;
use description_types::{Access, Component, Event, EventKind, Runnable};
use rte_text::Memory;
use runnable_lang::AccessKind;
use std::alloc::Global;

/// A rule on what each instance has.
#[derive(Clone, Copy)]
pub enum InstanceRule {
    /// Each event is mapped once, and an OperationInvokedEvent at most once.
    MappedOnce,
    /// All events of a runnable are mapped to one task.
    OneTask,
    /// An OperationInvokedEvent that is not mapped may be served at once.
    Direct,
}

/// An event or a runnable of an instance: the number of the instance, and the position in its component.
pub type Part = (usize, usize);

fn unless(holds: bool, instance: usize, number: usize) -> Option<Part>
    ensures { result ≡ unless holds (instance, number) }
{
    if holds {
        None
    } else {
        Some((instance, number))
    }
}

fn is_mapped_well(kind: EventKind, times: usize) -> bool
    ensures { result ≡ is_mapped_well kind times }
{
    match kind {
        EventKind::OperationInvoked { .. } => times <= 1,
        _ => times == 1,
    }
}

#[tactic(auto, using(crate::proofs::Events::times_mapped))]
fn badly_mapped_at(
    servers: &Servers<'_>,
    instance: usize,
    number: usize,
    kind: EventKind,
) -> Option<Part>
    ensures { result ≡ unless (is_mapped_well kind (length (mapped_as servers.now.mapped.now.names.d.now servers.now.mapped.now.names.f.now (instance, number)))) (instance, number) }
{
    let times = servers.mapped.tasks_of_event((instance, number)).len();
    unless(is_mapped_well(kind, times), instance, number)
}

#[tactic(auto, using(plan_definitions::proofs::Turns::first_more, plan_definitions::proofs::Turns::first_here, plan_definitions::proofs::Turns::first_none))]
fn badly_mapped_in(servers: &Servers<'_>, instance: usize, component: &Component) -> Option<Part>
    ensures { result ≡ badly_mapped_in servers.now.mapped.now.names.d.now servers.now.mapped.now.names.f.now instance component.now }
{
    for (number, event) in component.behavior.events.items().iter().enumerate() {
        if let Some(part) = badly_mapped_at(servers, instance, number, event.kind) {
            return Some(part);
        }
    }
    None
}

fn is_task(task: u32, other: u32) -> bool
    ensures { result ≡ nat_eq task other }
{
    task == other
}

fn all_are(task: u32, tasks: &[u32]) -> bool
    ensures { result ≡ list_all (λ u. nat_eq task u) tasks.now }
{
    tasks.iter().all(|other| is_task(task, *other))
}

/// The first of some tasks.
pub fn first_task(tasks: &[u32]) -> Option<u32>
    ensures { result ≡ slice_get tasks.now 0 }
{
    tasks.first().copied()
}

/// Whether these tasks are one, or none.
#[tactic(auto, using(crate::proofs::Sameness::same_as_first, crate::proofs::Sameness::none_are_same))]
pub fn are_same(tasks: &[u32]) -> bool
    ensures { result ≡ are_same tasks.now }
{
    match first_task(tasks) {
        Some(first) => all_are(first, tasks),
        None => true,
    }
}

fn spread_at(tasks: &Groups<usize, u32>, instance: usize, number: usize) -> Option<Part>
    ensures { result ≡ unless (are_same (values_at (nat_eq number) tasks.now.entries.items)) (instance, number) }
{
    unless(are_same(tasks.at(number)), instance, number)
}

#[tactic(auto, using(plan_definitions::proofs::Turns::first_more, plan_definitions::proofs::Turns::first_here, plan_definitions::proofs::Turns::first_none))]
fn spread_among(tasks: &Groups<usize, u32>, instance: usize, runnables: &[Runnable]) -> Option<Part>
    ensures { result ≡ first_of (λ m (r : Runnable). unless (are_same (values_at (nat_eq m) tasks.now.entries.items)) (instance, m)) 0 runnables.now }
{
    for (number, _runnable) in runnables.iter().enumerate() {
        if let Some(part) = spread_at(tasks, instance, number) {
            return Some(part);
        }
    }
    None
}

fn spread_in(
    alloc: Global,
    servers: &Servers<'_>,
    instance: usize,
    component: &Component,
) -> Result<Option<Part>, Memory>
    requires { component_of servers.now.mapped.now.names.d.now servers.now.mapped.now.names.f.now instance ≡ Some component.now }
    ensures { IfOk result (λ part. part ≡ spread_in servers.now.mapped.now.names.d.now servers.now.mapped.now.names.f.now instance component.now) }
{
    let behavior = &component.behavior;
    let tasks = servers
        .mapped
        .tasks_of_runnables(alloc, instance, behavior.events.items())?;
    let part = spread_among(&tasks, instance, behavior.runnables.items());
    Ok(part)
}

fn is_call(access: Access) -> bool
    ensures { result ≡ is_call access }
{
    matches!(
        access.kind,
        AccessKind::Call | AccessKind::ACall | AccessKind::TakeResult
    )
}

fn is_no_call(access: Access) -> bool
    ensures { result ≡ not (is_call access) }
{
    !is_call(access)
}

fn make_no_call(accesses: &[Access]) -> bool
    ensures { result ≡ list_all (λ a. not (is_call a)) accesses.now }
{
    accesses.iter().all(|access| is_no_call(*access))
}

fn may_be_direct(runnable: &Runnable) -> bool
    ensures { result ≡ may_be_direct runnable.now }
{
    runnable.can_be_invoked_concurrently && make_no_call(runnable.accesses.items())
}

fn runnable_may_be_direct(component: &Component, runnable: u32) -> bool
    ensures { result ≡ option_map_or may_be_direct (slice_get component.now.behavior.runnables runnable) false }
{
    match component.behavior.runnables.items().get(runnable as usize) {
        Some(found) => may_be_direct(found),
        None => false,
    }
}

fn keeps_direct(
    servers: &Servers<'_>,
    instance: usize,
    component: &Component,
    number: usize,
    event: &Event,
) -> bool
    ensures { result ≡ keeps_direct servers.now.mapped.now.names.d.now servers.now.mapped.now.names.f.now instance component.now number event.now }
{
    match event.kind {
        EventKind::OperationInvoked { port, operation } => {
            servers.mapped.is_mapped((instance, number))
                || (runnable_may_be_direct(component, event.runnable)
                    && !servers.serves_outside(instance, port, operation))
        }
        _ => true,
    }
}

fn not_direct_at(
    servers: &Servers<'_>,
    instance: usize,
    component: &Component,
    number: usize,
    event: &Event,
) -> Option<Part>
    ensures { result ≡ unless (keeps_direct servers.now.mapped.now.names.d.now servers.now.mapped.now.names.f.now instance component.now number event.now) (instance, number) }
{
    unless(
        keeps_direct(servers, instance, component, number, event),
        instance,
        number,
    )
}

#[tactic(auto, using(plan_definitions::proofs::Turns::first_more, plan_definitions::proofs::Turns::first_here, plan_definitions::proofs::Turns::first_none))]
fn not_direct_in(servers: &Servers<'_>, instance: usize, component: &Component) -> Option<Part>
    ensures { result ≡ not_direct_in servers.now.mapped.now.names.d.now servers.now.mapped.now.names.f.now instance component.now }
{
    for (number, event) in component.behavior.events.items().iter().enumerate() {
        if let Some(part) = not_direct_at(servers, instance, component, number, event) {
            return Some(part);
        }
    }
    None
}

fn broken_in(
    alloc: Global,
    servers: &Servers<'_>,
    rule: InstanceRule,
    instance: usize,
    component: &Component,
) -> Result<Option<Part>, Memory>
    requires { component_of servers.now.mapped.now.names.d.now servers.now.mapped.now.names.f.now instance ≡ Some component.now }
    ensures { IfOk result (λ part. part ≡ broken_in rule servers.now.mapped.now.names.d.now servers.now.mapped.now.names.f.now instance component.now) }
{
    match rule {
        InstanceRule::MappedOnce => Ok(badly_mapped_in(servers, instance, component)),
        InstanceRule::OneTask => spread_in(alloc, servers, instance, component),
        InstanceRule::Direct => Ok(not_direct_in(servers, instance, component)),
    }
}

fn broken_at(
    alloc: Global,
    servers: &Servers<'_>,
    rule: InstanceRule,
    instance: usize,
) -> Result<Option<Part>, Memory>
    ensures { IfOk result (λ part. part ≡ option_and_then (broken_in rule servers.now.mapped.now.names.d.now servers.now.mapped.now.names.f.now instance)
        (component_of servers.now.mapped.now.names.d.now servers.now.mapped.now.names.f.now instance)) }
{
    let mapped = servers.mapped;
    match mapped.names.component_of(instance) {
        Some(component) => broken_in(alloc, servers, rule, instance, component),
        None => Ok(None),
    }
}

/// The first event or runnable of an instance that breaks a rule.
#[tactic(auto, using(crate::proofs::InTurn::instance_more, crate::proofs::InTurn::instance_here, plan_definitions::proofs::Turns::first_none))]
pub fn first_broken(
    alloc: Global,
    servers: &Servers<'_>,
    rule: InstanceRule,
) -> Result<Option<Part>, Memory>
    ensures { IfOk result (λ part. part ≡ first_broken rule servers.now.mapped.now.names.d.now servers.now.mapped.now.names.f.now) }
{
    let mapped = servers.mapped;
    for instance in 0..mapped.names.f.instances.len() {
        match broken_at(alloc, servers, rule, instance)? {
            Some(part) => return Ok(Some(part)),
            None => {}
        }
    }
    Ok(None)
}
