//! How large a plan is.

ghost use Rattle.std.specs.Prelude.{◌≡◌, ◌-◌, ◌==◌, ◌||◌, is_some, length, nat_lt, not, sum_by};
ghost use Rattle.plan_definitions.specs.Common.{elem_seen, object_count, is_queued, received, requested};
ghost use Rattle.event_mapping.specs.Sized.{are_too_large, few_things, queues_of, things_of};

use crate::pieces::Pieces;
use bus_semantics::{ElemKind, ElemPlan, MachinePlan, ServerPlan};

/// How many groups, servers, areas and machines a plan may have, with the clock.
pub const THINGS: u32 = 16_384;

/// How many events a plan may have.
pub const EVENTS: usize = 16_384;

/// How many points a plan may have at which operations are called.
pub const POINTS: usize = 262_144;

/// How long all queues may be together.
const QUEUES: u32 = 65_536;

fn is_queued(kind: ElemKind) -> bool
    ensures { result ≡ is_queued kind }
{
    match kind {
        ElemKind::Queued => true,
        ElemKind::Unqueued | ElemKind::Variable => false,
    }
}

/// How long the queue of an element is, if it has one: only what is required and queued receives.
fn received(element: &ElemPlan) -> u32
    ensures { result ≡ received (elem_seen element.now) }
{
    if is_queued(element.kind) && !element.provided {
        element.queue_length
    } else {
        0
    }
}

/// What is left of a number after the queues of elements.
#[tactic(auto, using(component_rules::proofs::Spending::spent))]
fn after_received(left: u32, elements: &[ElemPlan]) -> u32
    ensures { result ≡ left - sum_by (λ e. received (elem_seen e)) elements.now }
{
    let mut rest = left;
    for element in elements {
        rest = rest.saturating_sub(received(element));
    }
    rest
}

fn requested(server: &ServerPlan) -> u32
    ensures { result ≡ requested server.now }
{
    server.queue.unwrap_or(0)
}

/// What is left of a number after the queues of servers.
#[tactic(auto, using(component_rules::proofs::Spending::spent))]
fn after_requested(left: u32, servers: &[ServerPlan]) -> u32
    ensures { result ≡ left - sum_by requested servers.now }
{
    let mut rest = left;
    for server in servers {
        rest = rest.saturating_sub(requested(server));
    }
    rest
}

/// What is left of a number after the queues of machines.
#[tactic(auto, using(component_rules::proofs::Spending::spent))]
fn after_switches(left: u32, machines: &[MachinePlan]) -> u32
    ensures { result ≡ left - sum_by (λ m. m.queue) machines.now }
{
    let mut rest = left;
    for machine in machines {
        rest = rest.saturating_sub(machine.queue);
    }
    rest
}

/// What is left, after all queues of a plan, of the least length that is too much. It goes down, so that no sum is too large.
fn after_queues(pieces: &Pieces) -> u32
    ensures { result ≡ 65537 - queues_of pieces.now }
{
    let received = after_received(QUEUES + 1, pieces.items.elements.items());
    let requested = after_requested(received, pieces.services.servers.items());
    after_switches(requested, pieces.modes.machines.items())
}

/// How many groups, servers, areas and machines there are, with the clock. None if there may not be so many.
fn thing_count(groups: usize, servers: usize, areas: usize, machines: usize) -> Option<u32>
    ensures { result ≡ few_things (object_count groups servers areas machines) }
{
    let room = (THINGS as usize - 1).checked_sub(groups)?;
    let room = room.checked_sub(servers)?;
    let room = room.checked_sub(areas)?;
    let room = room.checked_sub(machines)?;
    Some(THINGS - room as u32)
}

fn things_of(pieces: &Pieces) -> Option<u32>
    ensures { result ≡ few_things (things_of pieces.now) }
{
    thing_count(
        pieces.items.groups.len(),
        pieces.services.servers.len(),
        pieces.services.areas.len(),
        pieces.modes.machines.len(),
    )
}

fn is_beyond(things: Option<u32>, events: usize, left: u32, points: usize) -> bool
    ensures { result ≡ ((not (is_some things) || nat_lt 16384 events) || ((left == 0) || nat_lt 262144 points)) }
{
    (things.is_none() || events > EVENTS) || (left == 0 || points > POINTS)
}

/// Whether a plan has more than 16,384 groups, servers, areas and machines with the clock, or more events than that, its queues are
/// together longer than 65,536, or it has more than 262,144 points.
pub fn are_too_large(pieces: &Pieces) -> bool
    ensures { result ≡ are_too_large pieces.now }
{
    let left = after_queues(pieces);
    let points = pieces.services.points.len();
    is_beyond(things_of(pieces), pieces.events.len(), left, points)
}
