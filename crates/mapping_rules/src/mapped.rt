//! Which events are mapped, and to which tasks.

ghost use Rattle.std.specs.Prelude.{◌≡◌, ℕ, ◌++◌, IfOk, IsTrue, None, OnOk, map, nat_eq};
ghost use Rattle.std.specs.List.{flat_map};
ghost use Rattle.plan_definitions.specs.Common.{from, is_mapped, tasks_of_event, tasks_from, unnamed};
ghost use Rattle.mapping_rules.specs.Groups.{values_at};
ghost use Rattle.mapping_rules.specs.Listed.{task_of, tasks_at};

use crate::groups::Groups;
use crate::naming::Names;
use description_types::{Description, Event, Flat, MappedEvent};
use rte_text::Memory;
use std::alloc::Global;

/// The events that are mapped, with their tasks.
#[derive(Drop)]
pub struct Mapped<'a> {
    pub names: Names<'a>,
    tasks: Groups<(usize, usize), u32>,
    ghost are_tasks: { tasks.entries.items ≡ flat_map (task_of names.d.now names.f.now) names.d.now.mapping.events },
}

fn push_task<'a>(
    list: &mut Vec<((usize, usize), u32)>,
    names: &Names<'a>,
    mapped: &'a MappedEvent,
) -> Result<(), Memory>
    ensures { OnOk result (list.new.items ≡ list.old.items ++ task_of names.now.d.now names.now.f.now mapped.now) }
{
    if let Some(event) = names.named_by(mapped) {
        list.push((event, mapped.task))?;
    }
    Ok(())
}

fn tasks_of<'a>(
    alloc: Global,
    names: &Names<'a>,
    events: &'a [MappedEvent],
) -> Result<Vec<((usize, usize), u32)>, Memory>
    ensures { IfOk result (λ list. list.items ≡ flat_map (task_of names.now.d.now names.now.f.now) events.now) }
{
    let mut list = Vec::new(alloc);
    for mapped in events {
        push_task(&mut list, names, mapped)?;
    }
    Ok(list)
}

/// The tasks that the events of a description are mapped to, by event.
fn groups_of(alloc: Global, names: &Names<'_>) -> Result<Groups<(usize, usize), u32>, Memory>
    ensures { IfOk result (λ tasks. tasks.entries.items ≡ flat_map (task_of names.now.d.now names.now.f.now) names.now.d.now.mapping.events) }
{
    let list = tasks_of(alloc, names, names.d.mapping.events.items())?;
    Groups::new(alloc, list)
}

fn push_tasks(list: &mut Vec<(usize, u32)>, runnable: usize, tasks: &[u32]) -> Result<(), Memory>
    ensures { OnOk result (list.new.items ≡ list.old.items ++ map (λ t. (runnable, t)) tasks.now) }
{
    for task in tasks {
        list.push((runnable, *task))?;
    }
    Ok(())
}

impl<'a> Mapped<'a> {
    /// The mapped events of a description.
    pub fn new(alloc: Global, d: &'a Description, f: &'a Flat) -> Result<Mapped<'a>, Memory>
        ensures d { IfOk result (λ mapped. mapped.names.d.now ≡ d.now) }
        ensures f { IfOk result (λ mapped. mapped.names.f.now ≡ f.now) }
    {
        let names = Names::new(alloc, d, f)?;
        match groups_of(alloc, &names) {
            Ok(tasks) => Ok(Mapped { names, tasks }),
            Err(memory) => {
                drop(names);
                Err(memory)
            },
        }
    }

    /// Whether each mapped event names an event of an instance.
    pub fn are_named(&self) -> bool
        ensures { IsTrue result → unnamed self.now.names.d.now self.now.names.f.now ≡ None }
    {
        self.tasks.entries.len() == self.names.d.mapping.events.len()
    }

    /// The tasks that an event of an instance is mapped to, once for each time that it is mapped.
    pub fn tasks_of_event(&self, event: (usize, usize)) -> &[u32]
        ensures { result.now ≡ tasks_of_event self.now.names.d.now self.now.names.f.now event }
    {
        self.tasks.at(event)
    }

    /// Whether an event of an instance is mapped.
    #[tactic(auto, using(crate::proofs::Events::mapped_where))]
    pub fn is_mapped(&self, event: (usize, usize)) -> bool
        ensures { result ≡ is_mapped self.now.names.d.now self.now.names.f.now event }
    {
        !self.tasks_of_event(event).is_empty()
    }

    fn push_event(
        &self,
        list: &mut Vec<(usize, u32)>,
        instance: usize,
        number: usize,
        event: &Event,
    ) -> Result<(), Memory>
        ensures { OnOk result (list.new.items ≡ list.old.items ++ tasks_at self.now.names.d.now self.now.names.f.now instance number event.now) }
    {
        let tasks = self.tasks_of_event((instance, number));
        push_tasks(list, event.runnable as usize, tasks)
    }

    fn list_tasks(
        &self,
        alloc: Global,
        instance: usize,
        events: &[Event],
    ) -> Result<Vec<(usize, u32)>, Memory>
        ensures { IfOk result (λ list. list.items ≡ from 0 (tasks_at self.now.names.d.now self.now.names.f.now instance) events.now) }
    {
        let mut list = Vec::new(alloc);
        for (number, event) in events.iter().enumerate() {
            self.push_event(&mut list, instance, number, event)?;
        }
        Ok(list)
    }

    /// The tasks of each runnable of an instance: those that the events are mapped to that start it.
    pub fn tasks_of_runnables(
        &self,
        alloc: Global,
        instance: usize,
        events: &[Event],
    ) -> Result<Groups<usize, u32>, Memory>
        ensures { IfOk result (λ tasks. (r : ℕ) → values_at (nat_eq r) tasks.entries.items ≡ tasks_from self.now.names.d.now self.now.names.f.now instance r 0 events.now) }
    {
        let list = self.list_tasks(alloc, instance, events)?;
        let tasks = Groups::new(alloc, list)?;
        Ok(tasks)
    }
}
