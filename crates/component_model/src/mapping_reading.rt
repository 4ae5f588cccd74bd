//! The mapping of events to tasks, read from JSON.

ghost use Rattle.std.specs.Prelude.{◌≡◌, IfOk};
ghost use Rattle.serde_json.specs.View.{view};
ghost use Rattle.component_model.specs.Compositions.{mapped_event_reading, mapping_reading, task_reading};
ghost use Rattle.declared_names.specs.Sizes.{IsSmall};

use crate::from_value::{FromValue, read_list};
use declared_names::{Positions, copy_at, declared, items_at, number_at, text_at};
use description_types::{MappedEvent, Task, TaskMapping};
use rte_text::{Memory, Seq};
use serde_json::Value;
use std::alloc::Global;

impl FromValue<()> for Task {
    ghost reading = { λ _ d. task_reading d };

    fn from_value(alloc: Global, _scope: &(), value: &Value) -> Result<Task, Memory> {
        let short_name = copy_at(alloc, value, "shortName")?;
        Ok(Task {
            short_name,
            core: number_at(value, "core", 0),
        })
    }
}

impl<'a> FromValue<Positions<'a>> for MappedEvent {
    ghost reading = { mapped_event_reading };

    fn from_value(
        alloc: Global,
        tasks: &Positions<'a>,
        value: &Value,
    ) -> Result<MappedEvent, Memory> {
        let instance = copy_at(alloc, value, "instance")?;
        let event = copy_at(alloc, value, "event")?;
        Ok(MappedEvent {
            instance,
            event,
            task: tasks.find(text_at(value, "task")),
            position: number_at(value, "position", 0),
        })
    }
}

/// The events that are mapped to the tasks of the mapping.
fn mapped_events(alloc: Global, value: &Value) -> Result<Seq<MappedEvent>, Memory>
    requires { IsSmall (view value.now) }
    ensures { IfOk result (λ events. events ≡ (mapping_reading (view value.now)).events) }
{
    let names = declared(alloc, value, "tasks")?;
    let events = read_list(alloc, &names, items_at(value, "events"));
    drop(names);
    events
}

/// The mapping.
pub fn read_mapping(alloc: Global, value: &Value) -> Result<TaskMapping, Memory>
    requires { IsSmall (view value.now) }
    ensures { IfOk result (λ m. m ≡ mapping_reading (view value.now)) }
{
    let tasks = read_list(alloc, &(), items_at(value, "tasks"))?;
    let events = mapped_events(alloc, value)?;
    Ok(TaskMapping {
        cores: number_at(value, "cores", 0),
        tasks,
        events,
    })
}
