//! A server of a plan, made.

ghost use Rattle.std.specs.Prelude.{◌≡◌, ℕ, ◌<◌, ◌+◌, All, IfOk, length, map};
ghost use Rattle.bus_semantics.specs.Common.{plan_of, queue_of, first_server};
ghost use Rattle.object_kinds.specs.Common.{listed_at, events_of};
ghost use Rattle.server_objects.specs.Kept.{awaiting, opening};
ghost use Rattle.server_objects.specs.Layout.{awaited_by, event_in, points_of, returns_for, IsServer};
ghost use Rattle.server_objects.specs.Plans.{IsOfPlan};

use crate::Memory;
use crate::gathering::{append_to, empty_lists};
use crate::server_object::ServerObject;
use bus_semantics::{BusPlan, EventKind};
use client_server::Server;
use object_kinds::find;
use std::alloc::Global;

impl ServerObject {
    /// The server of this number, which these points call and for whose points these return events of the plan wait, as `joined_points` and
    /// `return_events` list them. Nothing has happened to it yet. The only error is that there is no memory for it; no later call takes any.
    pub fn new(
        alloc: Global,
        p: &BusPlan,
        server: u32,
        points: Vec<u32>,
        returns: Vec<u32>,
    ) -> Result<ServerObject, Memory>
        requires server { IsServer (plan_of p.now) (first_server (plan_of p.now) + server) }
        requires points { points.items ≡ points_of (plan_of p.now) server }
        requires returns { returns.items ≡ events_of (plan_of p.now) (returns_for (plan_of p.now) server) }
        ensures kept { IfOk result (λ o. o.kept ≡ opening (plan_of p.now) (first_server (plan_of p.now) + server)) }
        ensures planned { IfOk result (λ o. IsOfPlan (plan_of p.now) (first_server (plan_of p.now) + server) o.kept) }
    {
        let awaited = awaited_places(alloc, p, server, points.as_slice(), returns.as_slice())?;
        let by_point = listed_by_point(
            alloc,
            points.len(),
            returns.as_slice(),
            awaited.as_slice(),
        )?;
        let queue = queue_of(p, server);
        let served = Server::new(alloc, points.len() as u32, queue)?;
        let woken = Vec::with_capacity(alloc, returns.len() + 1)?;
        Ok(ServerObject {
            points,
            event: event_of(p, server),
            returns,
            awaited,
            by_point,
            server: served,
            is_queued: queue.is_some(),
            woken,
            heard: None,
        })
    }
}

/// The OperationInvokedEvent of a server.
fn event_of(p: &BusPlan, server: u32) -> u32
    ensures { result ≡ event_in (plan_of p.now) server }
{
    match p.servers.items().get(server as usize) {
        Some(plan) => plan.event,
        None => 0,
    }
}

/// The length of a server's queue; none if it is direct.
fn queue_of(p: &BusPlan, server: u32) -> Option<u32>
    ensures { result ≡ queue_of (plan_of p.now) server }
{
    match p.servers.items().get(server as usize) {
        Some(plan) => plan.queue,
        None => None,
    }
}

/// The places of the points for which these return events wait.
fn awaited_places(
    alloc: Global,
    p: &BusPlan,
    server: u32,
    points: &[u32],
    returns: &[u32],
) -> Result<Vec<u32>, Memory>
    requires { points.now ≡ points_of (plan_of p.now) server }
    ensures { IfOk result (λ awaited. awaited.items ≡ map (awaited_by (plan_of p.now) server) returns.now) }
{
    let mut awaited = Vec::new(alloc);
    for event in returns {
        awaited.push(awaited_place(p, server, points, *event))?;
    }
    Ok(awaited)
}

/// The place of the point for which a return event waits.
fn awaited_place(p: &BusPlan, server: u32, points: &[u32], event: u32) -> u32
    requires { points.now ≡ points_of (plan_of p.now) server }
    ensures { result ≡ awaited_by (plan_of p.now) server event }
{
    let point = match p.kind_of(event) {
        EventKind::Returns(point) => point,
        _ => 0,
    };
    match find(points, point) {
        Some(place) => place,
        None => 0,
    }
}

/// The return events of each of so many points.
fn listed_by_point(
    alloc: Global,
    count: usize,
    returns: &[u32],
    awaited: &[u32],
) -> Result<Vec<Vec<u32>>, Memory>
    requires many { length awaited.now ≡ length returns.now }
    requires within { All (λ i. i < count) awaited.now }
    ensures long { IfOk result (λ lists. length lists.items ≡ count) }
    ensures listed { IfOk result (λ lists. (i : ℕ) → listed_at lists.items i ≡ awaiting returns.now awaited.now i) }
{
    let mut lists = empty_lists(alloc, count)?;
    for at in 0..returns.len() {
        append_to(&mut lists, awaited[at], returns[at])?;
    }
    Ok(lists)
}
