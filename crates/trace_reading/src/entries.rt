//! Entries that fit.

ghost use Rattle.std.specs.Prelude.{◌≡◌};
ghost use Rattle.bus_semantics.specs.Common.{words_of, activation_fits, answer_fits, fits, phase_fits, start_fits, needs_event, plan_of};
ghost use Rattle.bus_semantics.specs.declared.entries.Actor.{Actor};
ghost use Rattle.bus_semantics.specs.declared.entries.Deed.TheVariants.{Mode};

use crate::looking::modes_of;
use crate::owners::key_fits;
use crate::wishes::wish_fits;
use bus_semantics::{Actor, BusPlan, Deed, Entry, EventKind, wish_of};
use line_fields::same_number;
use rte_value::{Step, Value};

/// Whether a start names a point that is joined to its server, and for any other event no point and the empty value.
fn start_fits(p: &BusPlan, kind: EventKind, point: Option<u32>, value: &Value) -> bool
    ensures { result ≡ start_fits (plan_of p.now) kind point (words_of value.now) }
{
    match (kind, point) {
        (EventKind::Invoked(server), Some(point)) => {
            same_number(p.server_of(point), Some(server))
        }
        (EventKind::Invoked(_), None) => false,
        (_, Some(_)) => false,
        (_, None) => *value == Value::empty(),
    }
}

/// Whether the mode of a phase is one of the machine's.
fn phase_fits(p: &BusPlan, who: Actor, step: Step) -> bool
    ensures { result ≡ phase_fits (plan_of p.now) who step }
{
    match (who, step) {
        (Actor::Machine(machine), Step::Close(mode)) => (mode as usize) < modes_of(p, machine),
        _ => true,
    }
}

/// Whether a mode that is seen at a port is one of its machine's, or the transition value.
fn seen_fits(p: &BusPlan, port: u32, mode: u32) -> bool
    ensures { (who : Actor) → result ≡ answer_fits (plan_of p.now) who (Mode port mode) }
{
    match p.mode_ports.items().get(port as usize) {
        Some(mode_port) => mode as usize <= modes_of(p, mode_port.machine),
        None => false,
    }
}

/// Whether what the bus answers names what there is.
fn answer_fits(p: &BusPlan, who: Actor, deed: &Deed) -> bool
    ensures { result ≡ answer_fits (plan_of p.now) who deed.now }
{
    match deed {
        Deed::Start {
            event,
            point,
            value,
        } => start_fits(p, p.kind_of(*event), *point, value),
        Deed::Mode { port, mode } => seen_fits(p, *port, *mode),
        Deed::Phase(step) => phase_fits(p, who, *step),
        _ => true,
    }
}

/// Whether the actor is an activation whose key fits.
fn activation_fits(p: &BusPlan, who: Actor) -> bool
    ensures { result ≡ activation_fits (plan_of p.now) who }
{
    match who {
        Actor::Act(key) => key_fits(p, key),
        _ => false,
    }
}

/// Whether the deed is one whose wish names the event that started the activation.
fn needs_event(deed: &Deed) -> bool
    ensures { result ≡ needs_event deed.now }
{
    match deed {
        Deed::Admit { .. } | Deed::End => true,
        _ => false,
    }
}

/// Whether the entry fits the plan: its wish fits its actor, and what the bus answers names what there is. An Admit and an End
/// are an activation's.
pub fn fits(p: &BusPlan, e: &Entry) -> bool
    ensures { result ≡ fits (plan_of p.now) e.now }
{
    let asked = if needs_event(&e.deed) {
        activation_fits(p, e.actor)
    } else {
        wish_fits(p, e.actor, &wish_of(e, None))
    };
    asked && answer_fits(p, e.actor, &e.deed)
}
