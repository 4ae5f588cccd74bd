//! Instances and their events, by name.

ghost use Rattle.std.specs.Prelude.{◌≡◌, IfOk, OnOk, map, option_copied, option_map, slice_get};
ghost use Rattle.plan_definitions.specs.Common.{component_of, instance_named, event_named, named_by, event_names};
ghost use Rattle.mapping_rules.specs.Naming.{names_of};

use description_types::{Component, Description, Event, Flat, Instance, MappedEvent};
use plan_numbers::Positions;
use rte_text::Memory;
use std::alloc::Global;

/// The instances of a description made flat by their paths, and the events of its components by their names.
#[derive(Drop)]
pub struct Names<'a> {
    pub d: &'a Description,
    pub f: &'a Flat,
    paths: Positions<&'a [u8]>,
    /// For each component.
    events: Vec<Positions<&'a [u8]>>,
    ghost are_paths: { names_of paths ≡ map (λ x. x.path) f.now.instances },
    ghost are_events: { map names_of events.items ≡ map event_names d.now.components },
}

fn paths_of<'a>(alloc: Global, instances: &'a [Instance]) -> Result<Vec<&'a [u8]>, Memory>
    ensures { IfOk result (λ list. names_of list.items ≡ map (λ x. x.path) instances.now) }
{
    let mut list = Vec::new(alloc);
    for instance in instances {
        list.push(instance.path.bytes())?;
    }
    Ok(list)
}

/// The positions of instances by their paths.
fn positions_of<'a>(alloc: Global, instances: &'a [Instance]) -> Result<Positions<&'a [u8]>, Memory>
    ensures { IfOk result (λ names. names_of names ≡ map (λ x. x.path) instances.now) }
{
    let list = paths_of(alloc, instances)?;
    Positions::of(alloc, list.as_slice())
}

fn short_names<'a>(alloc: Global, events: &'a [Event]) -> Result<Vec<&'a [u8]>, Memory>
    ensures { IfOk result (λ list. names_of list.items ≡ map (λ e. e.short_name) events.now) }
{
    let mut list = Vec::new(alloc);
    for event in events {
        list.push(event.short_name.bytes())?;
    }
    Ok(list)
}

fn events_of<'a>(alloc: Global, component: &'a Component) -> Result<Positions<&'a [u8]>, Memory>
    ensures { IfOk result (λ names. names_of names ≡ event_names component.now) }
{
    let names = short_names(alloc, component.behavior.events.items())?;
    Positions::of(alloc, names.as_slice())
}

fn events_of_all<'a>(
    alloc: Global,
    components: &'a [Component],
) -> Result<Vec<Positions<&'a [u8]>>, Memory>
    ensures { IfOk result (λ list. map names_of list.items ≡ map event_names components.now) }
{
    let mut list = Vec::new(alloc);
    for component in components {
        list.push(events_of(alloc, component)?)?;
    }
    Ok(list)
}

fn positions_at<'b, 'a>(
    list: &'b [Positions<&'a [u8]>],
    number: u32,
) -> Option<&'b Positions<&'a [u8]>>
    ensures { option_copied result ≡ slice_get list.now number }
{
    list.get(number as usize)
}

fn event_of(instance: usize, event: Option<usize>) -> Option<(usize, usize)>
    ensures { result ≡ option_map (λ m. (instance, m)) event }
{
    match event {
        Some(event) => Some((instance, event)),
        None => None,
    }
}

impl<'a> Names<'a> {
    /// The names of a description and of its flat form.
    pub fn new(alloc: Global, d: &'a Description, f: &'a Flat) -> Result<Names<'a>, Memory>
        ensures d { IfOk result (λ names. names.d.now ≡ d.now) }
        ensures f { IfOk result (λ names. names.f.now ≡ f.now) }
    {
        let paths = positions_of(alloc, f.instances.items())?;
        let events = events_of_all(alloc, d.components.items())?;
        Ok(Names {
            d,
            f,
            paths,
            events,
        })
    }

    fn instance_named(&self, path: &'a [u8]) -> Option<usize>
        ensures { result ≡ instance_named self.now.f.now path.now }
    {
        self.paths.find(path)
    }

    fn events_in(&self, component: u32) -> Option<&Positions<&'a [u8]>>
        ensures { option_map names_of (option_copied result) ≡ option_map event_names (slice_get self.now.d.now.components component) }
    {
        positions_at(self.events.as_slice(), component)
    }

    fn events_at(&self, instance: usize) -> Option<&Positions<&'a [u8]>>
        ensures { option_map names_of (option_copied result) ≡ option_map event_names (component_of self.now.d.now self.now.f.now instance) }
    {
        match self.f.instances.items().get(instance) {
            Some(found) => self.events_in(found.component),
            None => None,
        }
    }

    #[tactic(auto, using(crate::proofs::Events::event_absent))]
    fn event_named(&self, name: &'a [u8], instance: usize) -> Option<(usize, usize)>
        ensures { result ≡ event_named self.now.d.now self.now.f.now name.now instance }
    {
        match self.events_at(instance) {
            Some(events) => event_of(instance, events.find(name)),
            None => None,
        }
    }

    /// The instance and the event of it that a mapped event names, by the number of the instance and the position of the event in
    /// its component. None if it names none.
    pub fn named_by(&self, mapped: &'a MappedEvent) -> Option<(usize, usize)>
        ensures { result ≡ named_by self.now.d.now self.now.f.now mapped.now }
    {
        let instance = self.instance_named(mapped.instance.bytes())?;
        self.event_named(mapped.event.bytes(), instance)
    }

    /// The component of an instance.
    pub fn component_of(&self, instance: usize) -> Option<&'a Component>
        ensures { option_copied result ≡ component_of self.now.d.now self.now.f.now instance }
    {
        let found = self.f.instances.items().get(instance)?;
        self.d.components.items().get(found.component as usize)
    }
}
