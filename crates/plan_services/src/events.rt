//! The events of a plan.

ghost use Rattle.std.specs.Prelude.{◌≡◌, ◌<◌, ◌^◌, [], ◌++◌, IfOk, OnOk, length, map, option_copied, option_map, slice_get};
ghost use Rattle.std.specs.Option.{option_map_or};
ghost use Rattle.plan_definitions.specs.Common.{from, disabling_of, event_of, events as all_events, events_of_component, callings as all_callings};

use crate::kinds::{disabling_of, kind_of};
use crate::listed_callings::Callings;
use bus_semantics::{Disabling, EventPlan};
use description_types::{Component, Description, DisabledInModes, Event, Instance};
use plan_numbers::{Source, position};
use rte_text::{Memory, Text};
use std::alloc::Global;

fn disabled_of(
    alloc: Global,
    source: &Source<'_>,
    instance: u32,
    disabled: &Option<DisabledInModes>,
) -> Result<Option<Disabling>, Memory>
    ensures { IfOk result (λ found. found ≡ option_map (disabling_of source.now.d.now source.now.f.now instance) disabled.now) }
{
    match disabled {
        Some(disabled) => {
            let found = disabling_of(alloc, source, instance, disabled)?;
            Ok(Some(found))
        }
        None => Ok(None),
    }
}

fn event_of(
    alloc: Global,
    source: &Source<'_>,
    callings: &Callings,
    instance: u32,
    event: &Event,
) -> Result<EventPlan, Memory>
    requires { callings.now ≡ all_callings source.now.d.now source.now.f.now }
    ensures { IfOk result (λ found. found ≡ event_of source.now.d.now source.now.f.now instance event.now) }
{
    let name = Text::new(alloc, event.short_name.bytes())?;
    let disabled = disabled_of(alloc, source, instance, &event.disabled_in_modes)?;
    Ok(EventPlan {
        runnable: source.runnable_number(instance, event.runnable),
        name,
        kind: kind_of(source, callings, instance, event.kind),
        disabled,
    })
}

fn push_events(
    list: &mut Vec<EventPlan>,
    alloc: Global,
    source: &Source<'_>,
    callings: &Callings,
    instance: u32,
    events: &[Event],
) -> Result<(), Memory>
    requires { callings.now ≡ all_callings source.now.d.now source.now.f.now }
    ensures { OnOk result (list.new.items ≡ list.old.items ++ map (event_of source.now.d.now source.now.f.now instance) events.now) }
{
    for event in events {
        list.push(event_of(alloc, source, callings, instance, event)?)?;
    }
    Ok(())
}

/// The component of an instance.
pub fn component_at<'a>(d: &'a Description, instance: &Instance) -> Option<&'a Component>
    ensures { option_copied result ≡ slice_get d.now.components instance.now.component }
{
    d.components.items().get(instance.component as usize)
}

fn push_instance(
    list: &mut Vec<EventPlan>,
    alloc: Global,
    source: &Source<'_>,
    callings: &Callings,
    number: usize,
    instance: &Instance,
) -> Result<(), Memory>
    requires number { number < 2 ^ 32 }
    requires calls { callings.now ≡ all_callings source.now.d.now source.now.f.now }
    ensures { OnOk result (list.new.items ≡ list.old.items ++ option_map_or (events_of_component source.now.d.now source.now.f.now number) (slice_get source.now.d.now.components instance.now.component) []) }
{
    match component_at(source.d, instance) {
        Some(component) => {
            let events = component.behavior.events.items();
            push_events(list, alloc, source, callings, position(number), events)
        }
        None => Ok(()),
    }
}

fn push_instances(
    list: &mut Vec<EventPlan>,
    alloc: Global,
    source: &Source<'_>,
    callings: &Callings,
    instances: &[Instance],
) -> Result<(), Memory>
    requires instances { length instances.now < 2 ^ 32 }
    requires calls { callings.now ≡ all_callings source.now.d.now source.now.f.now }
    ensures { OnOk result (list.new.items ≡ list.old.items ++ from 0 (λ i x. option_map_or (events_of_component source.now.d.now source.now.f.now i) (slice_get source.now.d.now.components x.component) []) instances.now) }
{
    for (number, instance) in instances.iter().enumerate() {
        push_instance(list, alloc, source, callings, number, instance)?;
    }
    Ok(())
}

/// The events of all instances, by instance and in declared order.
pub fn event_plans(
    alloc: Global,
    source: &Source<'_>,
    callings: &Callings,
) -> Result<Vec<EventPlan>, Memory>
    requires { callings.now ≡ all_callings source.now.d.now source.now.f.now }
    ensures { IfOk result (λ list. list.items ≡ all_events source.now.d.now source.now.f.now) }
{
    let mut list = Vec::new(alloc);
    push_instances(
        &mut list,
        alloc,
        source,
        callings,
        source.f.instances.items(),
    )?;
    Ok(list)
}
