//! Whether events fit their ports.

ghost use Rattle.std.specs.Prelude.{◌≡◌, nat_lt};
ghost use Rattle.std.specs.List.{list_all};
ghost use Rattle.plan_definitions.specs.Events.{requires_data, provides_operation, requires_operation, provides_modes, required_modes, has_moment, kind_fits, misplaced, may_be_disabled};
ghost use Rattle.plan_definitions.specs.Events.{has_modes, disabling_fits, wrongly_disabled};

use crate::items::item_at;
use description_types::{
    Component, DisabledInModes, EventKind, ModeActivation, Port, PortKind, TypeTable,
};
use plan_definitions::{Item, Spot};

fn requires_data(found: Option<(PortKind, Item)>) -> bool
    ensures { result ≡ requires_data found }
{
    matches!(found, Some((PortKind::Required, Item::Data(_))))
}

fn provides_operation(found: Option<(PortKind, Item)>) -> bool
    ensures { result ≡ provides_operation found }
{
    matches!(found, Some((PortKind::Provided, Item::Operation)))
}

fn requires_operation(found: Option<(PortKind, Item)>) -> bool
    ensures { result ≡ requires_operation found }
{
    matches!(found, Some((PortKind::Required, Item::Operation)))
}

fn provides_modes(found: Option<(PortKind, Item)>) -> bool
    ensures { result ≡ provides_modes found }
{
    matches!(found, Some((PortKind::Provided, Item::Modes(_))))
}

fn required_modes(found: Option<(PortKind, Item)>) -> Option<usize>
    ensures { result ≡ required_modes found }
{
    match found {
        Some((PortKind::Required, Item::Modes(count))) => Some(count),
        _ => None,
    }
}

fn has_moment(modes: Option<usize>, moment: ModeActivation) -> bool
    ensures { result ≡ has_moment modes moment }
{
    match (modes, moment) {
        (Some(count), ModeActivation::OnEntry(mode)) => (mode as usize) < count,
        (Some(count), ModeActivation::OnExit(mode)) => (mode as usize) < count,
        (Some(count), ModeActivation::OnTransition(before, after)) => {
            (before as usize) < count && (after as usize) < count
        }
        (None, _) => false,
    }
}

fn kind_fits(types: &TypeTable, ports: &[Port], kind: EventKind) -> bool
    ensures { result ≡ kind_fits types.now ports.now kind }
{
    match kind {
        EventKind::Timing { .. } | EventKind::Init => true,
        EventKind::DataReceived { port, element } => {
            requires_data(item_at(types, ports, port, element))
        }
        EventKind::OperationInvoked { port, operation } => {
            provides_operation(item_at(types, ports, port, operation))
        }
        EventKind::CallReturns { port, operation } => {
            requires_operation(item_at(types, ports, port, operation))
        }
        EventKind::ModeSwitch { port, activation } => {
            has_moment(required_modes(item_at(types, ports, port, 0)), activation)
        }
        EventKind::ModeSwitchedAck { port } => provides_modes(item_at(types, ports, port, 0)),
    }
}

/// The first event of a component that does not fit its port.
#[tactic(auto, using(plan_definitions::proofs::Turns::first_more, plan_definitions::proofs::Turns::first_here, plan_definitions::proofs::Turns::first_none))]
pub fn misplaced(types: &TypeTable, component: &Component) -> Option<Spot>
    ensures { result ≡ misplaced types.now component.now }
{
    let ports = component.ports.items();
    for (position, event) in component.behavior.events.items().iter().enumerate() {
        if !kind_fits(types, ports, event.kind) {
            return Some(Spot::Event(position));
        }
    }
    None
}

fn may_be_disabled(kind: EventKind) -> bool
    ensures { result ≡ may_be_disabled kind }
{
    matches!(
        kind,
        EventKind::Timing { .. }
            | EventKind::Init
            | EventKind::DataReceived { .. }
            | EventKind::CallReturns { .. }
    )
}

fn is_mode(mode: u32, count: usize) -> bool
    ensures { result ≡ nat_lt mode count }
{
    (mode as usize) < count
}

fn are_modes(modes: &[u32], count: usize) -> bool
    ensures { result ≡ list_all (λ mode. nat_lt mode count) modes.now }
{
    modes.iter().all(|mode| is_mode(*mode, count))
}

fn has_modes(count: Option<usize>, modes: &[u32]) -> bool
    ensures { result ≡ has_modes count modes.now }
{
    match count {
        Some(count) => are_modes(modes, count),
        None => false,
    }
}

fn disabling_fits(
    types: &TypeTable,
    ports: &[Port],
    kind: EventKind,
    disabled: &Option<DisabledInModes>,
) -> bool
    ensures { result ≡ disabling_fits types.now ports.now kind disabled.now }
{
    match disabled {
        None => true,
        Some(found) => {
            may_be_disabled(kind)
                && has_modes(
                    required_modes(item_at(types, ports, found.port, 0)),
                    found.modes.items(),
                )
        }
    }
}

/// The first event of a component that names modes in which it is disabled, and may not.
#[tactic(auto, using(plan_definitions::proofs::Turns::first_more, plan_definitions::proofs::Turns::first_here, plan_definitions::proofs::Turns::first_none))]
pub fn wrongly_disabled(types: &TypeTable, component: &Component) -> Option<Spot>
    ensures { result ≡ wrongly_disabled types.now component.now }
{
    let ports = component.ports.items();
    for (position, event) in component.behavior.events.items().iter().enumerate() {
        if !disabling_fits(types, ports, event.kind, &event.disabled_in_modes) {
            return Some(Spot::Event(position));
        }
    }
    None
}
