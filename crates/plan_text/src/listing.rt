//! All lines, kind by kind.

ghost use Rattle.std.specs.Prelude.{◌≡◌, ◌<◌, ◌++◌, IfOk, OnOk, length};
ghost use Rattle.std.specs.List.{flat_map};
ghost use Rattle.plan_definitions.specs.Tasks.{by_position};
ghost use Rattle.plan_text.specs.Lines.{event_line, instance_line, invokes_directly, machine_line, plan_text};
ghost use Rattle.plan_text.specs.Mapped.{listed, seen};
ghost use Rattle.plan_text.specs.Texts.{direct_text, task_text, tasks_text};

use crate::joins::add_joins;
use crate::lines::{add_direct, add_event, add_instance, add_machine, add_task};
use crate::mapped::{in_order, mapped_by_task};
use bus_semantics::{BusPlan, EventKind, EventPlan, MachinePlan};
use description_types::{Description, Flat, Instance, MappedEvent, Task};
use rte_text::Memory;
use std::alloc::Global;

fn add_instances(d: &Description, instances: &[Instance], text: &mut Vec<u8>) -> Result<(), Memory>
    ensures { OnOk result (text.new.items ≡ text.old.items ++ flat_map (instance_line d.now) instances.now) }
{
    for instance in instances {
        add_instance(d, instance, text)?;
    }
    Ok(())
}

fn add_machines(f: &Flat, machines: &[MachinePlan], text: &mut Vec<u8>) -> Result<(), Memory>
    ensures { OnOk result (text.new.items ≡ text.old.items ++ flat_map (machine_line f.now) machines.now) }
{
    for machine in machines {
        add_machine(f, machine, text)?;
    }
    Ok(())
}

fn add_events<'a>(task: &Task, events: &[&'a MappedEvent], text: &mut Vec<u8>) -> Result<(), Memory>
    ensures { OnOk result (text.new.items ≡ text.old.items ++ flat_map (event_line task.now) (seen events.now)) }
{
    for mapped in events {
        add_event(task, mapped, text)?;
    }
    Ok(())
}

/// A task with its mapped events, which are put in order here.
fn add_task_events<'a>(
    alloc: Global,
    task: &Task,
    events: &[&'a MappedEvent],
    text: &mut Vec<u8>,
) -> Result<(), Memory>
    ensures { OnOk result (text.new.items ≡ text.old.items ++ task_text task.now (by_position (seen events.now))) }
{
    add_task(task, text)?;
    let sorted = in_order(alloc, events)?;
    add_events(task, sorted.as_slice(), text)
}

/// The mapped events of a task.
fn events_of<'a, 'b>(lists: &'b [Vec<&'a MappedEvent>], task: usize) -> &'b [&'a MappedEvent]
    requires { task < length lists.now }
    ensures { seen result.now ≡ listed lists.now task }
{
    lists[task].as_slice()
}

#[tactic(auto, using(plan_definitions::proofs::Turns::from_more, plan_definitions::proofs::Turns::from_none))]
fn add_tasks(alloc: Global, d: &Description, text: &mut Vec<u8>) -> Result<(), Memory>
    ensures { OnOk result (text.new.items ≡ text.old.items ++ tasks_text d.now) }
{
    let tasks = d.mapping.tasks.items();
    let lists = mapped_by_task(alloc, tasks.len(), d.mapping.events.items())?;
    for (number, task) in tasks.iter().enumerate() {
        add_task_events(alloc, task, events_of(lists.as_slice(), number), text)?;
    }
    Ok(())
}

fn is_direct(p: &BusPlan, server: u32) -> bool
    ensures { result ≡ invokes_directly p.now (EventKind.Invoked server) }
{
    match p.servers.items().get(server as usize) {
        Some(server) => server.queue.is_none(),
        None => true,
    }
}

fn invokes_directly(p: &BusPlan, event: &EventPlan) -> bool
    ensures { result ≡ invokes_directly p.now event.now.kind }
{
    match event.kind {
        EventKind::Invoked(server) => is_direct(p, server),
        _ => false,
    }
}

fn add_if_direct(f: &Flat, p: &BusPlan, event: &EventPlan, text: &mut Vec<u8>) -> Result<(), Memory>
    ensures { OnOk result (text.new.items ≡ text.old.items ++ direct_text f.now p.now event.now) }
{
    if invokes_directly(p, event) {
        add_direct(f, p, event, text)?;
    }
    Ok(())
}

fn add_direct_events(
    f: &Flat,
    p: &BusPlan,
    events: &[EventPlan],
    text: &mut Vec<u8>,
) -> Result<(), Memory>
    ensures { OnOk result (text.new.items ≡ text.old.items ++ flat_map (direct_text f.now p.now) events.now) }
{
    for event in events {
        add_if_direct(f, p, event, text)?;
    }
    Ok(())
}

/// The text of a plan. The only error is want of memory.
#[tactic(auto, using(crate::proofs::Texts::whole))]
pub fn plan_text(alloc: Global, d: &Description, f: &Flat, p: &BusPlan) -> Result<Vec<u8>, Memory>
    ensures { IfOk result (λ text. text.items ≡ plan_text d.now f.now p.now) }
{
    let mut text = Vec::new(alloc);
    add_instances(d, f.instances.items(), &mut text)?;
    add_joins(alloc, d, f, f.joins.items(), &mut text)?;
    add_machines(f, p.machines.items(), &mut text)?;
    add_tasks(alloc, d, &mut text)?;
    add_direct_events(f, p, p.events.items(), &mut text)?;
    Ok(text)
}
