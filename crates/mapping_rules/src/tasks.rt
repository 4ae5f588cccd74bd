//! The tasks with their events.

ghost use Rattle.std.specs.Prelude.{◌≡◌, ◌<◌, ◌^◌, [], ◌∷◌, ◌++◌, IfOk, OnOk, length, map};
ghost use Rattle.std.specs.List.{flat_map};
ghost use Rattle.plan_definitions.specs.Common.{from, events_of, is_mapped, are_mapped, mapping_of};
ghost use Rattle.mapping_rules.specs.Placing.{in_task, numbers_of, placed_at, task_entry, task_with};

use crate::groups::Groups;
use crate::kept::KeptMapping;
use crate::mapped::Mapped;
use crate::naming::Names;
use crate::sorting::{Placed, sort_by_position};
use bus_semantics::{Mapping, Task};
use description_types::{MappedEvent, Task as DeclaredTask};
use plan_numbers::{Numbers, Pair, numbered_events};
use rte_text::{Memory, Seq, Text};
use std::alloc::Global;

/// The events of instances by their numbers in a plan.
type Events = Numbers<Pair>;

fn placed_at<'a>(names: &Names<'a>, numbers: &Events, mapped: &'a MappedEvent) -> Placed
    requires { numbers.now ≡ events_of names.now.d.now names.now.f.now }
    ensures { result ≡ placed_at names.now.d.now names.now.f.now mapped.now }
{
    match names.named_by(mapped) {
        Some(event) => (mapped.position, Some(numbers.number(event))),
        None => (mapped.position, None),
    }
}

fn list_placed<'a>(
    alloc: Global,
    names: &Names<'a>,
    numbers: &Events,
    events: &'a [MappedEvent],
) -> Result<Vec<(usize, Placed)>, Memory>
    requires { numbers.now ≡ events_of names.now.d.now names.now.f.now }
    ensures { IfOk result (λ list. list.items ≡ map (task_entry names.now.d.now names.now.f.now) events.now) }
{
    let mut list = Vec::new(alloc);
    for mapped in events {
        list.push((mapped.task as usize, placed_at(names, numbers, mapped)))?;
    }
    Ok(list)
}

fn push_number(list: &mut Vec<u32>, placed: Placed) -> Result<(), Memory>
    ensures { OnOk result (list.new.items ≡ list.old.items ++ numbers_of placed) }
{
    if let Some(number) = placed.1 {
        list.push(number)?;
    }
    Ok(())
}

fn numbers_in(alloc: Global, placed: &[Placed]) -> Result<Vec<u32>, Memory>
    ensures { IfOk result (λ list. list.items ≡ flat_map numbers_of placed.now) }
{
    let mut list = Vec::new(alloc);
    for one in placed {
        push_number(&mut list, *one)?;
    }
    Ok(list)
}

fn in_task(alloc: Global, placed: &[Placed]) -> Result<Vec<u32>, Memory>
    ensures { IfOk result (λ list. list.items ≡ in_task placed.now) }
{
    let mut sorted = Vec::from_slice(alloc, placed)?;
    sort_by_position(&mut sorted)?;
    let list = numbers_in(alloc, sorted.as_slice())?;
    Ok(list)
}

fn push_task(
    alloc: Global,
    list: &mut Vec<Task>,
    groups: &Groups<usize, Placed>,
    number: usize,
    task: &DeclaredTask,
) -> Result<(), Memory>
    ensures { OnOk result (list.new.items ≡ list.old.items ++ task_with groups.now.entries.items number task.now ∷ []) }
{
    let events = in_task(alloc, groups.at(number))?;
    let name = Text::new(alloc, task.short_name.bytes())?;
    list.push(Task {
        name,
        core: task.core,
        events: Seq::of(events),
    })?;
    Ok(())
}

fn list_tasks(
    alloc: Global,
    groups: &Groups<usize, Placed>,
    tasks: &[DeclaredTask],
) -> Result<Vec<Task>, Memory>
    ensures { IfOk result (λ list. list.items ≡ from 0 (λ t task. task_with groups.now.entries.items t task ∷ []) tasks.now) }
{
    let mut list = Vec::new(alloc);
    for (number, task) in tasks.iter().enumerate() {
        push_task(alloc, &mut list, groups, number, task)?;
    }
    Ok(list)
}

/// The mapped events of a description with their positions, by task.
fn placed_of(
    alloc: Global,
    names: &Names<'_>,
    numbers: &Events,
) -> Result<Groups<usize, Placed>, Memory>
    requires { numbers.now ≡ events_of names.now.d.now names.now.f.now }
    ensures { IfOk result (λ groups. groups.entries.items ≡ map (task_entry names.now.d.now names.now.f.now) names.now.d.now.mapping.events) }
{
    let d = names.d;
    let list = list_placed(alloc, names, numbers, d.mapping.events.items())?;
    Groups::new(alloc, list)
}

fn tasks_of(alloc: Global, mapped: &Mapped<'_>, numbers: &Events) -> Result<Vec<Task>, Memory>
    requires { numbers.now ≡ events_of mapped.now.names.d.now mapped.now.names.f.now }
    ensures { IfOk result (λ list. list.items ≡ (mapping_of mapped.now.names.d.now mapped.now.names.f.now).tasks) }
{
    let d = mapped.names.d;
    let groups = placed_of(alloc, &mapped.names, numbers)?;
    let tasks = list_tasks(alloc, &groups, d.mapping.tasks.items());
    drop(groups);
    tasks
}

/// The events of all instances, by their numbers in a plan.
fn numbers_of(alloc: Global, names: &Names<'_>) -> Result<Events, Memory>
    requires { length (events_of names.now.d.now names.now.f.now) < 2 ^ 32 }
    ensures { IfOk result (λ numbers. numbers ≡ events_of names.now.d.now names.now.f.now) }
{
    let pairs = numbered_events(alloc, names.d, names.f)?;
    Numbers::of(alloc, pairs.as_slice())
}

/// The tasks on their cores, each with the numbers of its events in the order of their positions.
fn mapping_of(alloc: Global, mapped: &Mapped<'_>) -> Result<Mapping, Memory>
    requires { length (events_of mapped.now.names.d.now mapped.now.names.f.now) < 2 ^ 32 }
    ensures { IfOk result (λ mapping. mapping ≡ mapping_of mapped.now.names.d.now mapped.now.names.f.now) }
{
    let numbers = numbers_of(alloc, &mapped.names)?;
    let tasks = tasks_of(alloc, mapped, &numbers);
    drop(numbers);
    let tasks = tasks?;
    Ok(Mapping {
        cores: mapped.names.d.mapping.cores,
        tasks: Seq::of(tasks),
    })
}

fn list_mapped(alloc: Global, mapped: &Mapped<'_>, events: &[Pair]) -> Result<Vec<bool>, Memory>
    ensures { IfOk result (λ list. list.items ≡ map (is_mapped mapped.now.names.d.now mapped.now.names.f.now) events.now) }
{
    let mut list = Vec::new(alloc);
    for event in events {
        list.push(mapped.is_mapped(*event))?;
    }
    Ok(list)
}

/// Whether each event of a plan is mapped, by its number.
fn are_mapped(alloc: Global, mapped: &Mapped<'_>) -> Result<Vec<bool>, Memory>
    ensures { IfOk result (λ list. list.items ≡ are_mapped mapped.now.names.d.now mapped.now.names.f.now) }
{
    let events = numbered_events(alloc, mapped.names.d, mapped.names.f)?;
    let list = list_mapped(alloc, mapped, events.as_slice())?;
    Ok(list)
}

fn made(alloc: Global, mapped: &Mapped<'_>) -> Result<(Mapping, Vec<bool>), Memory>
    requires { length (events_of mapped.now.names.d.now mapped.now.names.f.now) < 2 ^ 32 }
    ensures mapping { IfOk result (λ found. found.0 ≡ mapping_of mapped.now.names.d.now mapped.now.names.f.now) }
    ensures mapped { IfOk result (λ found. found.1.items ≡ are_mapped mapped.now.names.d.now mapped.now.names.f.now) }
{
    let mapping = mapping_of(alloc, mapped)?;
    let events = are_mapped(alloc, mapped)?;
    Ok((mapping, events))
}

/// The mapping of a description, made flat: the tasks on their cores, each with the numbers of its events in a plan, in the order
/// of their positions; and for each event of a plan, by its number, whether it is mapped. All events of all instances are listed,
/// so it takes memory for each; 32 bits number them. A mapped event that names none is left out. The only error is want of memory.
///
/// SWS_RTE: RteEventToTaskMapping.
pub fn list_mapping(alloc: Global, kept: KeptMapping<'_>) -> Result<(Mapping, Vec<bool>), Memory>
    requires { length (events_of kept.d.now kept.f.now) < 2 ^ 32 }
    ensures mapping { IfOk result (λ found. found.0 ≡ mapping_of kept.entry.d.now kept.entry.f.now) }
    ensures mapped { IfOk result (λ found. found.1.items ≡ are_mapped kept.entry.d.now kept.entry.f.now) }
{
    let found = made(alloc, &kept.mapped);
    drop(kept);
    found
}
