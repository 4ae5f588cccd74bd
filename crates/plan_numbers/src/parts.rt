//! What instances have, by number.

ghost use Rattle.std.specs.Prelude.{◌≡◌, [], ◌∷◌, ◌++◌, IfOk, OnOk};
ghost use Rattle.plan_definitions.specs.Common.{from, areas_of, counted, counted_at, events_of, numbered, runnables_of};

use description_types::{Component, Description, Flat, Instance};
use plan_definitions::Part;
use rte_text::Memory;
use std::alloc::Global;

/// An instance with the position of a runnable, an event or an area in its component.
pub type Pair = (usize, usize);

fn counted(part: Part, component: &Component) -> usize
    ensures { result ≡ counted part component.now }
{
    match part {
        Part::Runnables => component.behavior.runnables.len(),
        Part::Events => component.behavior.events.len(),
        Part::Areas => component.behavior.exclusive_areas.len(),
    }
}

fn counted_at(part: Part, d: &Description, instance: &Instance) -> usize
    ensures { result ≡ counted_at part d.now instance.now }
{
    match d.components.items().get(instance.component as usize) {
        Some(component) => counted(part, component),
        None => 0,
    }
}

fn push_pair(list: &mut Vec<Pair>, instance: usize, number: usize) -> Result<(), Memory>
    ensures { OnOk result (list.new.items ≡ list.old.items ++ (instance, number) ∷ []) }
{
    list.push((instance, number))?;
    Ok(())
}

#[tactic(auto, using(plan_definitions::proofs::Turns::none_more))]
fn push_numbered(list: &mut Vec<Pair>, instance: usize, count: usize) -> Result<(), Memory>
    ensures { OnOk result (list.new.items ≡ list.old.items ++ numbered instance count) }
{
    for number in 0..count {
        push_pair(list, instance, number)?;
    }
    Ok(())
}

fn push_instance(
    list: &mut Vec<Pair>,
    part: Part,
    d: &Description,
    number: usize,
    instance: &Instance,
) -> Result<(), Memory>
    ensures { OnOk result (list.new.items ≡ list.old.items ++ numbered number (counted_at part d.now instance.now)) }
{
    push_numbered(list, number, counted_at(part, d, instance))
}

fn parts_of(
    alloc: Global,
    part: Part,
    d: &Description,
    instances: &[Instance],
) -> Result<Vec<Pair>, Memory>
    ensures { IfOk result (λ list. list.items ≡ from 0 (λ i x. numbered i (counted_at part d.now x)) instances.now) }
{
    let mut list = Vec::new(alloc);
    for (number, instance) in instances.iter().enumerate() {
        push_instance(&mut list, part, d, number, instance)?;
    }
    Ok(list)
}

/// The runnables of all instances in the order of the plan, each by the number of its instance and its position in the component.
pub fn numbered_runnables(alloc: Global, d: &Description, f: &Flat) -> Result<Vec<Pair>, Memory>
    ensures { IfOk result (λ list. list.items ≡ runnables_of d.now f.now) }
{
    parts_of(alloc, Part::Runnables, d, f.instances.items())
}

/// The events of all instances, in the same way.
pub fn numbered_events(alloc: Global, d: &Description, f: &Flat) -> Result<Vec<Pair>, Memory>
    ensures { IfOk result (λ list. list.items ≡ events_of d.now f.now) }
{
    parts_of(alloc, Part::Events, d, f.instances.items())
}

/// The exclusive areas of all instances, in the same way.
pub fn numbered_areas(alloc: Global, d: &Description, f: &Flat) -> Result<Vec<Pair>, Memory>
    ensures { IfOk result (λ list. list.items ≡ areas_of d.now f.now) }
{
    parts_of(alloc, Part::Areas, d, f.instances.items())
}
