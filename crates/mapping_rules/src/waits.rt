//! Which tasks wait for which.

ghost use Rattle.std.specs.Prelude.{◌≡◌, ◌||◌, ℕ, IfOk, OnOk, Some, false, nat_eq, slice_get, true};
ghost use Rattle.bus_semantics.specs.Common.{list_any, option_map_or};
ghost use Rattle.indexmap.specs.IndexSet.{contains};
ghost use Rattle.plan_definitions.specs.Common.{same_pair, component_of, are_same, waits_by};
ghost use Rattle.mapping_rules.specs.Groups.{values_at};
ghost use Rattle.mapping_rules.specs.Waiting.{any_at, has_wait, leads, pairs, waits_in};

use crate::groups::Groups;
use crate::instances::{are_same, first_task};
use crate::peeling::Edge;
use crate::servers::Servers;
use description_types::{Access, Component, Runnable};
use indexmap::IndexSet;
use rte_text::Memory;
use std::alloc::Global;

fn add_waits(edges: &mut IndexSet<Edge>, from: u32, waits: &[u32]) -> Result<(), Memory>
    ensures { OnOk result ((e : ℕ × ℕ) → contains same_pair edges.new e ≡ (contains same_pair edges.old e || leads e from waits.now)) }
{
    for task in waits {
        edges.insert((from, *task))?;
    }
    Ok(())
}

fn add_from_each(edges: &mut IndexSet<Edge>, tasks: &[u32], waits: &[u32]) -> Result<(), Memory>
    ensures { OnOk result ((e : ℕ × ℕ) → contains same_pair edges.new e ≡ (contains same_pair edges.old e || pairs e tasks.now waits.now)) }
{
    for task in tasks {
        add_waits(edges, *task, waits)?;
    }
    Ok(())
}

fn add_from_one(
    edges: &mut IndexSet<Edge>,
    tasks: &[u32],
    task: u32,
    waits: &[u32],
) -> Result<(), Memory>
    requires same { are_same tasks.now ≡ true }
    requires first { Some task ≡ slice_get tasks.now 0 }
    ensures { OnOk result ((e : ℕ × ℕ) → contains same_pair edges.new e ≡ (contains same_pair edges.old e || pairs e tasks.now waits.now)) }
{
    add_waits(edges, task, waits)?;
    Ok(())
}

fn add_from_first(edges: &mut IndexSet<Edge>, tasks: &[u32], waits: &[u32]) -> Result<(), Memory>
    requires { are_same tasks.now ≡ true }
    ensures { OnOk result ((e : ℕ × ℕ) → contains same_pair edges.new e ≡ (contains same_pair edges.old e || pairs e tasks.now waits.now)) }
{
    match first_task(tasks) {
        Some(task) => add_from_one(edges, tasks, task, waits),
        None => Ok(()),
    }
}

/// Adds an edge from each task to each that it waits for. Tasks that are one are taken once.
fn add_pairs(edges: &mut IndexSet<Edge>, tasks: &[u32], waits: &[u32]) -> Result<(), Memory>
    ensures { OnOk result ((e : ℕ × ℕ) → contains same_pair edges.new e ≡ (contains same_pair edges.old e || pairs e tasks.now waits.now)) }
{
    if are_same(tasks) {
        add_from_first(edges, tasks, waits)
    } else {
        add_from_each(edges, tasks, waits)
    }
}

fn add_of_runnable(
    edges: &mut IndexSet<Edge>,
    servers: &Servers<'_>,
    instance: usize,
    tasks: &[u32],
    accesses: &[Access],
) -> Result<(), Memory>
    ensures { OnOk result ((e : ℕ × ℕ) → contains same_pair edges.new e ≡ (contains same_pair edges.old e
        || any_at (λ k a. pairs e tasks.now (waits_by servers.now.mapped.now.names.d.now servers.now.mapped.now.names.f.now instance a)) 0 accesses.now)) }
{
    for access in accesses {
        add_pairs(edges, tasks, servers.waits_by(instance, *access))?;
    }
    Ok(())
}

fn add_of_number(
    edges: &mut IndexSet<Edge>,
    servers: &Servers<'_>,
    instance: usize,
    tasks: &Groups<usize, u32>,
    number: usize,
    runnable: &Runnable,
) -> Result<(), Memory>
    ensures { OnOk result ((e : ℕ × ℕ) → contains same_pair edges.new e ≡ (contains same_pair edges.old e
        || any_at (λ k a. pairs e (values_at (nat_eq number) tasks.now.entries.items) (waits_by servers.now.mapped.now.names.d.now servers.now.mapped.now.names.f.now instance a)) 0 runnable.now.accesses)) }
{
    add_of_runnable(
        edges,
        servers,
        instance,
        tasks.at(number),
        runnable.accesses.items(),
    )
}

fn add_of_runnables(
    edges: &mut IndexSet<Edge>,
    servers: &Servers<'_>,
    instance: usize,
    tasks: &Groups<usize, u32>,
    runnables: &[Runnable],
) -> Result<(), Memory>
    ensures { OnOk result ((e : ℕ × ℕ) → contains same_pair edges.new e ≡ (contains same_pair edges.old e
        || any_at (λ m r. any_at (λ k a. pairs e (values_at (nat_eq m) tasks.now.entries.items) (waits_by servers.now.mapped.now.names.d.now servers.now.mapped.now.names.f.now instance a)) 0 r.accesses) 0 runnables.now)) }
{
    for (number, runnable) in runnables.iter().enumerate() {
        add_of_number(edges, servers, instance, tasks, number, runnable)?;
    }
    Ok(())
}

fn add_of_component(
    alloc: Global,
    edges: &mut IndexSet<Edge>,
    servers: &Servers<'_>,
    instance: usize,
    component: &Component,
) -> Result<(), Memory>
    ensures { OnOk result ((e : ℕ × ℕ) → contains same_pair edges.new e ≡ (contains same_pair edges.old e
        || waits_in servers.now.mapped.now.names.d.now servers.now.mapped.now.names.f.now e instance component.now)) }
{
    let behavior = &component.behavior;
    let tasks = servers
        .mapped
        .tasks_of_runnables(alloc, instance, behavior.events.items())?;
    add_of_runnables(edges, servers, instance, &tasks, behavior.runnables.items())?;
    Ok(())
}

fn add_of_instance(
    alloc: Global,
    edges: &mut IndexSet<Edge>,
    servers: &Servers<'_>,
    instance: usize,
) -> Result<(), Memory>
    ensures { OnOk result ((e : ℕ × ℕ) → contains same_pair edges.new e ≡ (contains same_pair edges.old e
        || option_map_or (waits_in servers.now.mapped.now.names.d.now servers.now.mapped.now.names.f.now e instance) (component_of servers.now.mapped.now.names.d.now servers.now.mapped.now.names.f.now instance) false)) }
{
    let mapped = servers.mapped;
    match mapped.names.component_of(instance) {
        Some(component) => add_of_component(alloc, edges, servers, instance, component),
        None => Ok(()),
    }
}

fn add_all(alloc: Global, edges: &mut IndexSet<Edge>, servers: &Servers<'_>) -> Result<(), Memory>
    ensures { OnOk result ((e : ℕ × ℕ) → contains same_pair edges.new e ≡ (contains same_pair edges.old e
        || has_wait servers.now.mapped.now.names.d.now servers.now.mapped.now.names.f.now e)) }
{
    let mapped = servers.mapped;
    for instance in 0..mapped.names.f.instances.len() {
        add_of_instance(alloc, edges, servers, instance)?;
    }
    Ok(())
}

fn list_waits(alloc: Global, servers: &Servers<'_>) -> Result<Vec<Edge>, Memory>
    ensures { IfOk result (λ edges. (e : ℕ × ℕ) → list_any (same_pair e) edges.items ≡ has_wait servers.now.mapped.now.names.d.now servers.now.mapped.now.names.f.now e) }
{
    let mut edges = IndexSet::new(alloc);
    add_all(alloc, &mut edges, servers)?;
    let list = Vec::from_slice(alloc, edges.as_slice());
    drop(edges);
    list
}

/// An edge from each task to each task that it waits for, each once.
pub fn waits(alloc: Global, servers: &Servers<'_>) -> Result<Vec<Edge>, Memory>
    ensures { IfOk result (λ edges. (e : ℕ × ℕ) → list_any (same_pair e) edges.items ≡ has_wait servers.now.mapped.now.names.d.now servers.now.mapped.now.names.f.now e) }
{
    if servers.serve_nothing() {
        return Ok(Vec::new(alloc));
    }
    list_waits(alloc, servers)
}
