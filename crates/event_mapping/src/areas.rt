//! The exclusive areas of a plan.

ghost use Rattle.std.specs.Prelude.{◌≡◌, ◌<◌, ◌^◌, [], ◌∷◌, ◌++◌, IfOk, OnOk, length, map};
ghost use Rattle.plan_definitions.specs.Common.{from, area_of, areas, areas_at, named_areas};

use bus_semantics::AreaPlan;
use description_types::{Description, Flat, Instance};
use plan_numbers::position;
use rte_text::{Memory, Text};
use std::alloc::Global;

fn push_area(
    list: &mut Vec<AreaPlan>,
    alloc: Global,
    instance: u32,
    name: &Text,
) -> Result<(), Memory>
    ensures { OnOk result (list.new.items ≡ list.old.items ++ area_of instance name.now ∷ []) }
{
    let name = Text::new(alloc, name.bytes())?;
    list.push(AreaPlan { instance, name })?;
    Ok(())
}

fn push_areas(
    list: &mut Vec<AreaPlan>,
    alloc: Global,
    instance: u32,
    names: &[Text],
) -> Result<(), Memory>
    ensures { OnOk result (list.new.items ≡ list.old.items ++ named_areas instance names.now) }
{
    for name in names {
        push_area(list, alloc, instance, name)?;
    }
    Ok(())
}

fn names_at<'a>(d: &'a Description, instance: &Instance) -> &'a [Text]
    ensures { result.now ≡ areas_at d.now instance.now }
{
    match d.components.items().get(instance.component as usize) {
        Some(component) => component.behavior.exclusive_areas.items(),
        None => &[],
    }
}

fn push_instance(
    list: &mut Vec<AreaPlan>,
    alloc: Global,
    d: &Description,
    number: usize,
    instance: &Instance,
) -> Result<(), Memory>
    requires { number < 2 ^ 32 }
    ensures { OnOk result (list.new.items ≡ list.old.items ++ named_areas number (areas_at d.now instance.now)) }
{
    push_areas(list, alloc, position(number), names_at(d, instance))
}

/// The exclusive areas of a plan: those of each instance, in declared order.
pub fn areas_of_plan(alloc: Global, d: &Description, f: &Flat) -> Result<Vec<AreaPlan>, Memory>
    requires { length f.now.instances < 2 ^ 32 }
    ensures { IfOk result (λ list. list.items ≡ areas d.now f.now) }
{
    let mut list = Vec::new(alloc);
    for (number, instance) in f.instances.items().iter().enumerate() {
        push_instance(&mut list, alloc, d, number, instance)?;
    }
    Ok(list)
}
