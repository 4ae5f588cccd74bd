//! The kinds of events.

ghost use Rattle.std.specs.Prelude.{◌≡◌, IfOk};
ghost use Rattle.plan_definitions.specs.Started.{disabling_of, kind_of, moment_of};
ghost use Rattle.plan_definitions.specs.Callings.{callings as all_callings};

use crate::listed_callings::Callings;
use bus_semantics::{Disabling, EventKind as Kind, Moment};
use description_types::{DisabledInModes, EventKind, ModeActivation};
use plan_numbers::Source;
use rte_text::{Memory, Seq};
use std::alloc::Global;

fn moment_of(activation: ModeActivation) -> Moment
    ensures { result ≡ moment_of activation }
{
    match activation {
        ModeActivation::OnEntry(mode) => Moment::OnEntry(mode),
        ModeActivation::OnExit(mode) => Moment::OnExit(mode),
        ModeActivation::OnTransition(before, after) => Moment::OnTransition(before, after),
    }
}

/// The kind of an event of an instance, with what it names by number.
pub fn kind_of(source: &Source<'_>, callings: &Callings, instance: u32, kind: EventKind) -> Kind
    requires { callings.now ≡ all_callings source.now.d.now source.now.f.now }
    ensures { result ≡ kind_of source.now.d.now source.now.f.now instance kind }
{
    match kind {
        EventKind::Timing { period } => Kind::Timing(u64::from(period)),
        EventKind::Init => Kind::Init,
        EventKind::DataReceived { port, element } => {
            Kind::DataReceived(source.element_number(Some(instance), Some(port), element))
        }
        EventKind::OperationInvoked { port, operation } => {
            Kind::Invoked(source.server_number(Some(instance), port, operation))
        }
        EventKind::CallReturns { port, operation } => {
            Kind::Returns(callings.left(instance, port, operation))
        }
        EventKind::ModeSwitch { port, activation } => Kind::ModeSwitch {
            machine: source.machine_for(Some(instance), port),
            moment: moment_of(activation),
        },
        EventKind::ModeSwitchedAck { port } => {
            Kind::Ack(source.machine_number(Some(instance), port, 0))
        }
    }
}

/// The modes in which an event of an instance is disabled, with their machine.
pub fn disabling_of(
    alloc: Global,
    source: &Source<'_>,
    instance: u32,
    disabled: &DisabledInModes,
) -> Result<Disabling, Memory>
    ensures { IfOk result (λ found. found ≡ disabling_of source.now.d.now source.now.f.now instance disabled.now) }
{
    let modes = Vec::from_slice(alloc, disabled.modes.items())?;
    Ok(Disabling {
        machine: source.machine_for(Some(instance), disabled.port),
        modes: Seq::of(modes),
    })
}
