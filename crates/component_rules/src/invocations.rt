//! Who serves the operations of a component.

ghost use Rattle.std.specs.Prelude.{◌≡◌, ◌++◌, ◌==◌, IfOk, OnOk, nat_eq};
ghost use Rattle.std.specs.Option.{option_or};
ghost use Rattle.plan_definitions.specs.Common.{each_number, count, same_operation, operation_of, invoked, is_served, started, is_alone, unserved, shared, wrongly_served};
ghost use Rattle.plan_definitions.specs.Invocations.{operation_count, operations_at};

use crate::tally::Tally;
use description_types::{Component, Event, EventKind, InterfaceKind, Port, PortKind, TypeTable};
use plan_definitions::Spot;
use rte_text::Memory;
use std::alloc::Global;

/// The positions of a port and of an operation of it.
type Operation = (usize, usize);

fn note(found: &mut Vec<Operation>, kind: EventKind) -> Result<(), Memory>
    ensures { OnOk result (found.new.items ≡ found.old.items ++ operation_of kind) }
{
    if let EventKind::OperationInvoked { port, operation } = kind {
        found.push((port as usize, operation as usize))?;
    }
    Ok(())
}

fn invoked(alloc: Global, events: &[Event]) -> Result<Vec<Operation>, Memory>
    ensures { IfOk result (λ found. found.items ≡ invoked events.now) }
{
    let mut found = Vec::new(alloc);
    for event in events {
        note(&mut found, event.kind)?;
    }
    Ok(found)
}

fn started(alloc: Global, events: &[Event]) -> Result<Vec<u32>, Memory>
    ensures { IfOk result (λ found. found.items ≡ started events.now) }
{
    let mut found = Vec::new(alloc);
    for event in events {
        found.push(event.runnable)?;
    }
    Ok(found)
}

fn operations_at(types: &TypeTable, port: &Port) -> usize
    ensures { result ≡ operations_at types.now port.now }
{
    match types.interfaces.items().get(port.interface as usize) {
        Some(interface) => match &interface.kind {
            InterfaceKind::ClientServer(operations) => operations.len(),
            InterfaceKind::SenderReceiver(_) | InterfaceKind::ModeSwitch(_) => 0,
        },
        None => 0,
    }
}

#[tactic(auto, using(crate::proofs::Firsts::each_more, crate::proofs::Firsts::each_fails))]
fn have_one_event(tally: &Tally<Operation>, port: usize, operations: usize) -> bool
    ensures { result ≡ each_number (λ n. count (same_operation (port, n)) tally.now.keys.items == 1) 0 operations }
{
    for operation in 0..operations {
        if !tally.comes_once((port, operation)) {
            return false;
        }
    }
    true
}

fn is_served(
    types: &TypeTable,
    events: &[Event],
    tally: &Tally<Operation>,
    number: usize,
    port: &Port,
) -> bool
    requires { tally.now.keys.items ≡ invoked events.now }
    ensures { result ≡ is_served types.now events.now number port.now }
{
    match port.kind {
        PortKind::Provided => have_one_event(tally, number, operations_at(types, port)),
        PortKind::Required => true,
    }
}

#[tactic(auto, using(plan_definitions::proofs::Turns::first_more, plan_definitions::proofs::Turns::first_here, plan_definitions::proofs::Turns::first_none))]
fn unserved(types: &TypeTable, component: &Component, tally: &Tally<Operation>) -> Option<Spot>
    requires { tally.now.keys.items ≡ invoked component.now.behavior.events }
    ensures { result ≡ unserved types.now component.now }
{
    let events = component.behavior.events.items();
    for (number, port) in component.ports.items().iter().enumerate() {
        if !is_served(types, events, tally, number, port) {
            return Some(Spot::Port(number));
        }
    }
    None
}

fn is_alone(events: &[Event], tally: &Tally<u32>, event: &Event) -> bool
    requires { tally.now.keys.items ≡ started events.now }
    ensures { result ≡ is_alone events.now event.now }
{
    match event.kind {
        EventKind::OperationInvoked { .. } => tally.comes_once(event.runnable),
        _ => true,
    }
}

#[tactic(auto, using(plan_definitions::proofs::Turns::first_more, plan_definitions::proofs::Turns::first_here, plan_definitions::proofs::Turns::first_none))]
fn shared(component: &Component, tally: &Tally<u32>) -> Option<Spot>
    requires { tally.now.keys.items ≡ started component.now.behavior.events }
    ensures { result ≡ shared component.now }
{
    let events = component.behavior.events.items();
    for (position, event) in events.iter().enumerate() {
        if !is_alone(events, tally, event) {
            return Some(Spot::Event(position));
        }
    }
    None
}

fn first_shared(alloc: Global, component: &Component) -> Result<Option<Spot>, Memory>
    ensures { IfOk result (λ spot. spot ≡ shared component.now) }
{
    let tally = Tally::new(alloc, started(alloc, component.behavior.events.items())?)?;
    let spot = shared(component, &tally);
    drop(tally);
    Ok(spot)
}

fn first_unserved(
    alloc: Global,
    types: &TypeTable,
    component: &Component,
) -> Result<Option<Spot>, Memory>
    ensures { IfOk result (λ spot. spot ≡ unserved types.now component.now) }
{
    let tally = Tally::new(alloc, invoked(alloc, component.behavior.events.items())?)?;
    let spot = unserved(types, component, &tally);
    drop(tally);
    Ok(spot)
}

/// The first port of a component with an operation that does not have exactly one OperationInvokedEvent, or else the first
/// OperationInvokedEvent whose runnable has another event.
pub fn wrongly_served(
    alloc: Global,
    types: &TypeTable,
    component: &Component,
) -> Result<Option<Spot>, Memory>
    ensures { IfOk result (λ spot. spot ≡ wrongly_served types.now component.now) }
{
    match first_unserved(alloc, types, component)? {
        Some(spot) => Ok(Some(spot)),
        None => first_shared(alloc, component),
    }
}
