//! By which event of an instance an operation is invoked.

ghost use Rattle.std.specs.Prelude.{◌≡◌, IfOk, Some, map, option_and_then, option_copied, slice_get};
ghost use Rattle.bus_semantics.specs.Common.{position_from, option_eq};
ghost use Rattle.plan_definitions.specs.Common.{same_pair, invocation_of, all_invoked, invoked_by, invoked_in};

use description_types::{Component, Description, Event, EventKind, Flat};
use plan_numbers::{Positions, Source};
use rte_text::{Memory, Seq};
use std::alloc::Global;

/// An operation of a component: its port and its position in the port's interface.
pub type Operation = (u32, u32);

/// The events of a component by the operation by which they are invoked, None for other events.
pub type Invocations = Positions<Option<Operation>>;

/// The port and the operation by whose call an event comes; None for other events.
pub fn invoked_by(kind: EventKind) -> Option<Operation>
    ensures { result ≡ invoked_by kind }
{
    match kind {
        EventKind::OperationInvoked { port, operation } => Some((port, operation)),
        _ => None,
    }
}

fn invoked_keys(alloc: Global, events: &[Event]) -> Result<Vec<Option<Operation>>, Memory>
    ensures { IfOk result (λ keys. keys.items ≡ map (λ e. invoked_by e.kind) events.now) }
{
    let mut keys = Vec::new(alloc);
    for event in events {
        keys.push(invoked_by(event.kind))?;
    }
    Ok(keys)
}

fn invoked_in(alloc: Global, component: &Component) -> Result<Invocations, Memory>
    ensures { IfOk result (λ keys. keys ≡ invoked_in component.now) }
{
    let keys = invoked_keys(alloc, component.behavior.events.items())?;
    Positions::of(alloc, keys.as_slice())
}

/// The invocations of each component.
pub fn all_invoked(alloc: Global, d: &Description) -> Result<Seq<Invocations>, Memory>
    ensures { IfOk result (λ tables. tables ≡ all_invoked d.now) }
{
    let mut tables = Vec::new(alloc);
    for component in d.components.items() {
        tables.push(invoked_in(alloc, component)?)?;
    }
    Ok(Seq::of(tables))
}

fn table_at<'a>(f: &Flat, tables: &'a [Invocations], instance: u32) -> Option<&'a Invocations>
    ensures { option_copied result ≡ option_and_then (λ x. slice_get tables.now x.component) (slice_get f.now.instances instance) }
{
    let found = f.instances.items().get(instance as usize)?;
    tables.get(found.component as usize)
}

fn found_in(table: Option<&Invocations>, port: u32, item: u32) -> Option<usize>
    ensures { result ≡ option_and_then (position_from (option_eq same_pair (Some (port, item))) 0) (option_copied table.entry) }
{
    table?.find(Some((port, item)))
}

/// The position of the first event of an instance by which an operation of a port is invoked.
pub fn invocation_of(
    source: &Source<'_>,
    tables: &[Invocations],
    instance: u32,
    port: u32,
    item: u32,
) -> Option<usize>
    requires { tables.now ≡ all_invoked source.now.d.now }
    ensures { result ≡ invocation_of source.now.d.now source.now.f.now instance port item }
{
    let table = table_at(source.f, tables, instance);
    found_in(table, port, item)
}
