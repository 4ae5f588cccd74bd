//! The bodies of all runnables.

ghost use Rattle.std.specs.Prelude.{◌≡◌, ◌≤◌, ℕ, Some, IfOk, [], length, map, slice_get, get_or, is_some};
ghost use Rattle.bus_semantics.specs.Common.{arc_value, HaveOneCode, coded_of, Runnable, plan_of, runnable_of, IsSound};
ghost use Rattle.bus_semantics.specs.declared.plan.EventPlan.{EventPlan};
ghost use Rattle.implicit_buffers.specs.Buffers.{fetched_by, published_by};
ghost use Rattle.task_generator.specs.Servers.{served, arguments_in};
ghost use Rattle.task_generator.specs.Bounded.{IsBounded};
ghost use Rattle.task_generator.specs.Coded.{coded_shape, shape_of_code};
ghost use Rattle.task_generator.specs.Shapes.{shape_of_body, shape_of};
ghost use Rattle.task_generator.specs.Promise.{AsksAsPlanned};

use crate::Memory;
use crate::around::{around_of, in_places, served};
use crate::shared::{Made, shared_code};
use crate::targets::targets_of;
use bus_semantics::{ArgPlan, BusPlan, EventPlan, Mapping, RunnablePlan};
use implicit_buffers::{BufferPlan, plan_buffers};
use indexmap::IndexMap;
use rte_text::Seq;
use std::alloc::Global;
use std::sync::Arc;
use task_machine::{Body, Code, TaskSet};

/// The arguments of the operation that a runnable serves, in declared order.
fn arguments_of<'p>(p: &'p BusPlan, runnable: &RunnablePlan) -> &'p [ArgPlan]
    ensures { result.now ≡ arguments_in (served (plan_of p.now).servers (runnable_of runnable.now).server) }
{
    match served(p.servers.items(), runnable.server) {
        Some(server) => server.arguments.items(),
        None => &[],
    }
}

/// The body of a runnable, which fetches and publishes these elements and has this code.
fn body_of(
    alloc: Global,
    p: &BusPlan,
    runnable: &RunnablePlan,
    fetched: &[u32],
    published: &[u32],
    code: Arc<Code, Global>,
) -> Result<Body, Memory>
    requires fetched { fetched.now ≡ fetched_by (runnable_of runnable.now) }
    requires published { published.now ≡ published_by (runnable_of runnable.now) }
    requires bounded { IsBounded (plan_of p.now) (runnable_of runnable.now) }
    ensures code { IfOk result (λ b. arc_value b.code ≡ arc_value code) }
    ensures shape { IfOk result (λ b. shape_of_code (arc_value code) ≡ coded_shape (coded_of runnable.now) → shape_of_body b ≡ shape_of (plan_of p.now) (runnable_of runnable.now)) }
{
    let arguments = arguments_of(p, runnable);
    let places = in_places(alloc, arguments)?;
    let targets = targets_of(alloc, runnable, fetched, published)?;
    let around = around_of(alloc, p, runnable, fetched, published)?;
    let count = around.code.len() as u64;
    Ok(Body {
        vars: runnable.program.vars.max(arguments.len() as u32),
        arguments: Seq::of(places),
        fetched: fetched.len(),
        written: published.len(),
        counters: code.loops,
        budget: code.steps.saturating_add(count),
        targets,
        around: Seq::of(around.code),
        before: around.before,
        code,
    })
}

/// The elements at a place, and none if there is no such place.
fn elements_at(lists: &[Seq<u32>], place: usize) -> &[u32]
    ensures { result.now ≡ get_or lists.now place [] }
{
    match lists.get(place) {
        Some(list) => list.items(),
        None => &[],
    }
}

/// The bodies of the runnables, each at the place of its number. Runnables of one code share it.
#[tactic(auto, using(crate::proofs::Placing::listed))]
fn bodies_of(alloc: Global, p: &BusPlan, buffers: &BufferPlan) -> Result<Vec<Body>, Memory>
    requires fetched { buffers.now.fetched ≡ map fetched_by (plan_of p.now).runnables }
    requires published { buffers.now.published ≡ map published_by (plan_of p.now).runnables }
    requires bounded { (i : ℕ) (r : Runnable) → slice_get (plan_of p.now).runnables i ≡ Some r → IsBounded (plan_of p.now) r }
    ensures { IfOk result (λ bodies. HaveOneCode p.now.runnables → map shape_of_body bodies.items ≡ map (shape_of (plan_of p.now)) (plan_of p.now).runnables) }
{
    let mut bodies = Vec::new(alloc);
    let mut made: Made = IndexMap::new(alloc);
    for (place, runnable) in p.runnables.items().iter().enumerate() {
        let fetched = elements_at(buffers.fetched.items(), place);
        let published = elements_at(buffers.published.items(), place);
        let code = shared_code(alloc, p, bodies.as_slice(), &made, runnable)?;
        let body = body_of(alloc, p, runnable, fetched, published, code)?;
        bodies.push(body)?;
        made.insert(runnable.code, place)?;
    }
    Ok(bodies)
}

/// For each event whether some mode disables it.
fn disabled_of(alloc: Global, events: &[EventPlan]) -> Result<Vec<bool>, Memory>
    ensures { IfOk result (λ disabled. disabled.items ≡ map (λ (v : EventPlan). is_some v.disabled) events.now) }
{
    let mut disabled = Vec::new(alloc);
    for event in events {
        disabled.push(event.disabled.is_some())?;
    }
    Ok(disabled)
}

/// Makes the bodies of the plan's runnables (SWS_RTE: runnable activation, implicit access, ModeDisablingDependency).
///
/// An activation begun by any Start, and fed any answers, asks what the actor rule wants next, up to its End or an admission
/// that was refused, and nothing after that. It is over exactly if the actor rule wants nothing. The only error is that there
/// is no memory. That is admission, fetches, the calls of its program, publications, the return, the end. That a fetched value
/// stays what it was says a law of `implicit_buffers`; that what is published was written last stands in the definitions of
/// publications, and no law says so apart. Bodies whose runnables have one code may share it, and ask the same as with code of
/// their own.
pub fn generate(alloc: Global, p: &BusPlan, _m: &Mapping) -> Result<TaskSet, Memory>
    requires sound { IsSound (plan_of p.now) _m.now }
    ensures { IfOk result (λ t. AsksAsPlanned (plan_of p.now) t) }
{
    let buffers = plan_buffers(alloc, p)?;
    let bodies = bodies_of(alloc, p, &buffers)?;
    let disabled = disabled_of(alloc, p.events.items())?;
    Ok(TaskSet {
        bodies: Seq::of(bodies),
        disabled: Seq::of(disabled),
    })
}
