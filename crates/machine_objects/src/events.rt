//! The events of a plan that a machine starts or disables.

ghost use Rattle.std.specs.Prelude.{◌≡◌, IfOk};
ghost use Rattle.bus_semantics.specs.Plan.{plan_of, kind_of};
ghost use Rattle.machine_objects.specs.Layout.{disabling_modes, may_disable, mode_event, moment_at, waits_for_end, waits_for_phase};

use crate::Memory;
use bus_semantics::{BusPlan, EventKind, Moment};
use mode_machine::ModeEvent;
use std::alloc::Global;

/// Whether an event is a SwcModeSwitchEvent of a machine.
pub(crate) fn is_switch_event(p: &BusPlan, machine: u32, event: u32) -> bool
    ensures { result ≡ waits_for_phase machine (kind_of (plan_of p.now) event) }
{
    match p.kind_of(event) {
        EventKind::ModeSwitch { machine: own, .. } => machine == own,
        _ => false,
    }
}

/// Whether an event is a ModeSwitchedAckEvent of a machine.
pub(crate) fn is_ack_event(p: &BusPlan, machine: u32, event: u32) -> bool
    ensures { result ≡ waits_for_end machine (kind_of (plan_of p.now) event) }
{
    match p.kind_of(event) {
        EventKind::Ack(own) => machine == own,
        _ => false,
    }
}

/// Whether a machine disables an event in some of its modes.
pub(crate) fn may_disable(p: &BusPlan, machine: u32, event: u32) -> bool
    ensures { result ≡ may_disable (plan_of p.now) machine event }
{
    match p.events.items().get(event as usize) {
        Some(found) => match &found.disabled {
            Some(disabling) => disabling.machine == machine,
            None => false,
        },
        None => false,
    }
}

/// A moment in the words of the machine.
fn mode_event(moment: Moment) -> ModeEvent
    ensures { result ≡ mode_event moment }
{
    match moment {
        Moment::OnExit(mode) => ModeEvent::OnExit(mode),
        Moment::OnTransition(from, to) => ModeEvent::OnTransition(from, to),
        Moment::OnEntry(mode) => ModeEvent::OnEntry(mode),
    }
}

/// When an event occurs.
pub(crate) fn moment_at(p: &BusPlan, event: u32) -> ModeEvent
    ensures { result ≡ moment_at (plan_of p.now) event }
{
    match p.kind_of(event) {
        EventKind::ModeSwitch { moment, .. } => mode_event(moment),
        _ => ModeEvent::OnExit(0),
    }
}

/// A copy of a list of modes.
fn copy_modes(alloc: Global, modes: &[u32]) -> Result<Vec<u32>, Memory>
    ensures { IfOk result (λ copy. copy.items ≡ modes.now) }
{
    let mut copy = Vec::new(alloc);
    copy.extend_from_slice(modes)?;
    Ok(copy)
}

/// The modes in which an event is disabled.
pub(crate) fn disabling_modes(alloc: Global, p: &BusPlan, event: u32) -> Result<Vec<u32>, Memory>
    ensures { IfOk result (λ modes. modes.items ≡ disabling_modes (plan_of p.now) event) }
{
    match p.events.items().get(event as usize) {
        Some(found) => match &found.disabled {
            Some(disabling) => copy_modes(alloc, disabling.modes.items()),
            None => Ok(Vec::new(alloc)),
        },
        None => Ok(Vec::new(alloc)),
    }
}
