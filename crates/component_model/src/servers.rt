//! Which runnables are servers.

ghost use Rattle.std.specs.Prelude.{◌≡◌, [], IfOk, filter, map, option_copied, option_map, slice_get, slice_index_or, unwrap_or};
ghost use Rattle.serde_json.specs.View.{view};
ghost use Rattle.declared_names.specs.Names.{position_in, text_of};
ghost use Rattle.declared_names.specs.Sizes.{IsSmall};
ghost use Rattle.component_model.specs.Programs.{arguments_of, first_names, invoked_events, is_invoked, runnable_names};
ghost use Rattle.declared_names.specs.Values.{seen};

use declared_names::{InComponent, Positions, items_at, text_at};
use rte_text::{Memory, Seq};
use serde_json::Value;
use std::alloc::Global;

/// The events by which calls start runnables, with the runnables that they name.
#[derive(Drop)]
pub struct Servers<'a> {
    pub events: Vec<&'a Value>,
    pub runnables: Positions<'a>,
}

fn is_invoked(event: &Value) -> bool
    ensures { result ≡ is_invoked (view event.now) }
{
    text_at(event, "kind") == "OperationInvokedEvent"
}

fn invoked_events<'a>(alloc: Global, events: &'a [Value]) -> Result<Vec<&'a Value>, Memory>
    ensures { IfOk result (λ found. map seen found.items ≡ filter is_invoked (map view events.now)) }
{
    let mut found = Vec::new(alloc);
    for event in events {
        if is_invoked(event) {
            found.push(event)?;
        }
    }
    Ok(found)
}

fn runnable_names<'a>(alloc: Global, events: &[&'a Value]) -> Result<Vec<&'a str>, Memory>
    ensures { IfOk result (λ names. map text_of names.items ≡ runnable_names (map seen events.now)) }
{
    let mut names = Vec::new(alloc);
    for event in events {
        names.push(text_at(*event, "runnable"))?;
    }
    Ok(names)
}

/// The servers of a behavior.
pub fn servers_in<'a>(alloc: Global, behavior: &'a Value) -> Result<Servers<'a>, Memory>
    requires { IsSmall (view behavior.now) }
    ensures events { IfOk result (λ s. map seen s.events.items ≡ invoked_events (view behavior.now)) }
    ensures runnables { IfOk result (λ s. s.runnables ≡ runnable_names (invoked_events (view behavior.now))) }
{
    let events = invoked_events(alloc, items_at(behavior, "events"))?;
    let names = runnable_names(alloc, &events)?;
    let runnables = Positions::of(alloc, names)?;
    Ok(Servers { events, runnables })
}

fn arguments_at<'s, 'a>(
    arguments: &'s [Seq<Positions<'a>>],
    interface: u32,
    operation: u32,
) -> Option<&'s Positions<'a>>
    ensures { unwrap_or (option_copied result) [] ≡ slice_index_or (slice_index_or arguments.now interface []) operation [] }
{
    match arguments.get(interface as usize) {
        Some(operations) => operations.items().get(operation as usize),
        None => None,
    }
}

fn arguments_of<'s, 'a>(scope: &InComponent<'s, 'a>, event: &Value) -> Option<&'s Positions<'a>>
    ensures { unwrap_or (option_copied result) [] ≡ arguments_of scope.now.interfaces.now scope.now.names.now (view event.now) }
{
    let port = scope.port(text_at(event, "port"));
    let operation = scope.item(port, text_at(event, "operation"));
    match scope.names.port_interfaces.items().get(port as usize) {
        Some(interface) => arguments_at(scope.interfaces.arguments.items(), *interface, operation),
        None => None,
    }
}

fn names_of<'a>(alloc: Global, found: Option<&Positions<'a>>) -> Result<Vec<&'a str>, Memory>
    ensures { IfOk result (λ names. map text_of names.items ≡ unwrap_or (option_copied found.entry) []) }
{
    match found {
        Some(found) => Vec::from_slice(alloc, found.names()),
        None => Ok(Vec::new(alloc)),
    }
}

/// The names of the first variables of the program that such an event starts.
pub fn first_names<'s, 'a>(
    alloc: Global,
    scope: &InComponent<'s, 'a>,
    event: Option<&Value>,
) -> Result<Vec<&'a str>, Memory>
    ensures { IfOk result (λ names. map text_of names.items
        ≡ first_names scope.now.interfaces.now scope.now.names.now (option_map seen event.entry)) }
{
    match event {
        Some(event) => {
            let mut names = names_of(alloc, arguments_of(scope, event))?;
            names.push("error")?;
            Ok(names)
        }
        None => Ok(Vec::new(alloc)),
    }
}

impl<'a> Servers<'a> {
    /// The first of the events that starts the runnable of this name.
    pub fn event_of(&self, runnable: &str) -> Option<&'a Value>
        ensures { option_map seen result ≡ slice_get (map seen self.now.events.items) (position_in self.now.runnables runnable.now) }
    {
        let position = self.runnables.find(runnable);
        match self.events.get(position as usize) {
            Some(event) => Some(*event),
            None => None,
        }
    }
}
