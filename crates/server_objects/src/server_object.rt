//! A server with its points and their return events.

ghost use Rattle.std.specs.Prelude.{◌≡◌, ℕ, ◌<◌, length, true, false, Some, IfSome};
ghost use Rattle.bus_semantics.specs.Common.{Contains, Plan, wanted_of};
ghost use Rattle.object_kinds.specs.declared.acted.Shown.{Shown};
ghost use Rattle.object_kinds.specs.declared.acted.Filled.TheVariants as filled;
ghost use Rattle.object_kinds.specs.Common.{IsAnswerOf, acted, place};
ghost use Rattle.server_objects.specs.Acting.{IsActed};
ghost use Rattle.server_objects.specs.Kept.{awaited_at, has_next, may_hear, may_start};
ghost use Rattle.server_objects.specs.Leading.{lead, own_place, serving_of, why_held, wakes};
ghost use Rattle.server_objects.specs.Plans.{IsOfPlan};

use bus_semantics::{Actor, Entry, Wish};
use client_server::Server;
use object_kinds::{Filled, Shown, find};
use std::marker::Model;

/// A server (an operation of a P-port): by number the points that call it, its OperationInvokedEvent, and the
/// AsynchronousServerCallReturnsEvents of its points, each with the place of its point; points and return events in rising order. `woken` has
/// those of the events that the last Ask or Return made pending, and room for all.
#[derive(Drop)]
pub struct ServerObject {
    pub(crate) points: Vec<u32>,
    pub(crate) event: u32,
    pub(crate) returns: Vec<u32>,
    pub(crate) awaited: Vec<u32>,
    /// The return events of each point.
    pub(crate) by_point: Vec<Vec<u32>>,
    pub(crate) server: Server,
    pub(crate) is_queued: bool,
    pub(crate) woken: Vec<u32>,
    /// The point to which the last Return went.
    pub(crate) heard: Option<u32>,
}

impl Model for ServerObject {
    ghost use Rattle.std.specs.Vec.{vec_capacity};
    ghost use Rattle.server_objects.specs.Acting.{IsWhole};
    ghost use Rattle.server_objects.specs.Kept.{ServerState};

    ghost Value = { ServerState };

    ghost view = { λ o. record { kept = record { points = o.points.items; event = o.event; returns = o.returns.items; awaited = o.awaited.items; served = o.server }; woken = o.woken.items; heard = o.heard } };

    ghost invariant = { λ o. IsWhole (record { points = o.points.items; event = o.event; returns = o.returns.items; awaited = o.awaited.items; served = o.server }) o.is_queued o.by_point.items (vec_capacity o.woken) };
}

impl ServerObject {
    /// Fills in the entry of a wish on the server that it touches, if one may come (SWS_RTE: Rte_Call, Rte_Result,
    /// OperationInvokedEvent, AsynchronousServerCallReturnsEvent). The wish fits its actor. A queued server starts with the request that
    /// waits longest; a direct one with that of the point of the activation's key. An Answer and a result give the Return of the point's own
    /// request. It takes no memory. `NotYet` changes nothing of the server. Every entry but an ask or a return leaves the list of woken
    /// events as it was.
    pub fn act(&mut self, who: &Actor, wish: &Wish, out: &mut Entry) -> Filled
        ensures planned { (p : Plan) (object : ℕ) → IsOfPlan p object self.old.kept → IsOfPlan p object self.new.kept }
        ensures answer { (p : Plan) (object : ℕ) → IsOfPlan p object self.old.kept → IsAnswerOf p lead may_start why_held who.now (wanted_of wish.now) self.old.kept self.new.kept (acted result out.new) }
        ensures same { (shown : Shown) → result ≡ filled.NotYet shown → self.new ≡ self.old }
        ensures told { (event : ℕ) → may_start self.old.kept event ≡ false → may_start self.new.kept event ≡ true → Contains self.new.woken event }
        ensures only { result ≡ filled.Done → wakes out.new.deed ≡ true → (event : ℕ) → Contains self.new.woken event → (may_start self.old.kept event ≡ false) × (may_start self.new.kept event ≡ true) }
        ensures heard { (point : ℕ) → may_hear self.old.kept point ≡ false → may_hear self.new.kept point ≡ true → self.new.heard ≡ Some point }
        ensures left { result ≡ filled.Done → wakes out.new.deed ≡ false → self.new.woken ≡ self.old.woken }
    {
        self.act_by_wish(who, wish, out)
    }

    /// Fills in the entry of a wish, by what it wants.
    fn act_by_wish(&mut self, who: &Actor, wish: &Wish, out: &mut Entry) -> Filled
        ensures { IsActed who.now (wanted_of wish.now) self.old self.new (acted result out.new) }
    {
        match wish {
            Wish::Ask { point, value } => self.ask(who, *point, value, out),
            Wish::Answer { point } => self.hear(who, *point, out),
            Wish::TakeResult { point } => self.take_result(who, *point, out),
            Wish::Start { event } => self.start(who, *event, out),
            Wish::Return { code, value } => self.give_back(who, *code, value, out),
            _ => Filled::NotYet(Shown::Unmatched),
        }
    }

    /// Whether a start by an event may come. None but a direct activation starts by the event of a direct server.
    pub fn may_start(&self, event: u32) -> bool
        ensures { result ≡ may_start self.now.kept event }
    {
        if event == self.event {
            return self.has_next();
        }
        match self.awaited_at(event) {
            Some(place) => self.server.is_return_due(place),
            None => false,
        }
    }

    /// The events that the last Ask or Return made pending, by number: each that it made pending, and no other.
    pub fn woken(&self) -> &[u32]
        ensures { result.now ≡ self.now.woken }
    {
        self.woken.as_slice()
    }

    /// The point to which the last Return went: if the last entry made an Answer come, it was at this one.
    pub fn heard(&self) -> Option<u32>
        ensures { result ≡ self.now.heard }
    {
        self.heard
    }

    /// Whether a queued server may start with a request.
    pub(crate) fn has_next(&self) -> bool
        ensures { result ≡ has_next self.now.kept.served }
    {
        self.is_queued && self.server.may_start()
    }

    /// The place of a point.
    pub(crate) fn place_of(&self, point: u32) -> Option<u32>
        ensures place { result ≡ place point self.now.kept.points }
        ensures within { IfSome result (λ i. i < length self.now.kept.served.points) }
    {
        find(self.points.as_slice(), point)
    }

    /// The place of the point of a key.
    pub(crate) fn own_place(&self, own: Option<u32>) -> Option<u32>
        ensures place { result ≡ own_place self.now.kept own }
        ensures within { IfSome result (λ i. i < length self.now.kept.served.points) }
    {
        match own {
            Some(point) => self.place_of(point),
            None => None,
        }
    }

    /// The place of the point of a return event.
    pub(crate) fn awaited_at(&self, event: u32) -> Option<u32>
        ensures place { result ≡ awaited_at self.now.kept event }
        ensures within { IfSome result (λ i. i < length self.now.kept.served.points) }
    {
        match find(self.returns.as_slice(), event) {
            Some(place) => Some(self.awaited[place as usize]),
            None => None,
        }
    }

    /// The place of the point that an actor serves.
    pub(crate) fn serving_of(&self, who: &Actor) -> Option<u32>
        ensures place { result ≡ serving_of self.now.kept who.now }
        ensures within { IfSome result (λ i. i < length self.now.kept.served.points) }
    {
        match who {
            Actor::Act(key) => {
                if self.is_queued {
                    self.server.serving()
                } else {
                    self.own_place(key.point)
                }
            }
            _ => None,
        }
    }
}
