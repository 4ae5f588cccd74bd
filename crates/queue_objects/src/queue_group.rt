//! A group of queued data elements with the plan's events that wait for it.

ghost use Rattle.std.specs.Prelude.{◌≡◌, ℕ, length, true, false, Some};
ghost use Rattle.bus_semantics.specs.Common.{Contains, words_of, wish_fits, Plan, plan_of, to_start, to_send, to_receive, wanted_of, object_of, touched};
ghost use Rattle.object_kinds.specs.declared.acted.Shown.{Shown};
ghost use Rattle.object_kinds.specs.declared.acted.Filled.TheVariants as filled;
ghost use Rattle.object_kinds.specs.Common.{place, IsAnswerOf, acted};
ghost use Rattle.queue_objects.specs.Acting.{IsActed, IsTaken};
ghost use Rattle.queue_objects.specs.Kept.{may_start};
ghost use Rattle.queue_objects.specs.Layout.{is_joined_at};
ghost use Rattle.queue_objects.specs.Leading.{lead, started_at, why_held, wakes};
ghost use Rattle.queue_objects.specs.Plans.{IsOfPlan};

use crate::elements::is_joined;
use crate::filling::{fill_receive, fill_send};
use bus_semantics::{Actor, BusPlan, Deed, Entry, Wish};
use object_kinds::{Filled, Shown, find};
use queued_ports::Queues;
use rte_value::{Code, Value};
use std::marker::Model;

/// RTE_E_UNCONNECTED.
const UNCONNECTED: Code = 134;

/// A group of queued data elements: by number its receivers, which are its required elements with a join, and the plan's
/// DataReceivedEvents that wait for them, both in rising order, and a queue for each receiver. `woken` has those of the events
/// that the last send made pending, and room for all.
#[derive(Drop)]
pub struct QueueGroup {
    pub(crate) receivers: Vec<u32>,
    pub(crate) events: Vec<u32>,
    pub(crate) queues: Queues,
    pub(crate) woken: Vec<u32>,
}

impl Model for QueueGroup {
    ghost use Rattle.std.specs.Prelude.{◌≡◌, ◌≤◌, length, true};
    ghost use Rattle.std.specs.Vec.{vec_capacity};
    ghost use Rattle.object_kinds.specs.Rising.{is_rising};
    ghost use Rattle.queue_objects.specs.Kept.{GroupState};

    ghost Value = { GroupState };

    ghost view = { λ g. record { kept = record { receivers = g.receivers.items; events = g.events.items; queued = g.queues }; woken = g.woken.items } };

    ghost invariant = { λ g. (is_rising g.receivers.items ≡ true) × (is_rising g.events.items ≡ true) × (length g.queues.queues ≡ length g.receivers.items) × (length g.queues.events ≡ length g.events.items) × (length g.events.items ≤ vec_capacity g.woken) };
}

impl QueueGroup {
    /// Fills in the entry of a wish on the group that it touches, if one may come (SWS_RTE: Rte_Send, Rte_Receive,
    /// DataReceivedEvent). The wish fits its actor. One send reaches all receivers of the group. It takes no memory. `NotYet` changes
    /// nothing of the group. Every entry but a send leaves the list of woken events as it was.
    pub fn act(&mut self, p: &BusPlan, who: &Actor, wish: &Wish, out: &mut Entry) -> Filled
        requires fits { wish_fits (plan_of p.now) who.now (wanted_of wish.now) ≡ true }
        requires touching { object_of (plan_of p.now) who.now (wanted_of wish.now) ≡ Some (touched (plan_of p.now) who.now (wanted_of wish.now)) }
        requires planned { IsOfPlan (plan_of p.now) (touched (plan_of p.now) who.now (wanted_of wish.now)) self.old.kept }
        ensures planned { IsOfPlan (plan_of p.now) (touched (plan_of p.now) who.now (wanted_of wish.now)) self.new.kept }
        ensures answer { IsAnswerOf (plan_of p.now) (lead (plan_of p.now)) may_start why_held who.now (wanted_of wish.now) self.old.kept self.new.kept (acted result out.new) }
        ensures same { (shown : Shown) → result ≡ filled.NotYet shown → self.new ≡ self.old }
        ensures told { (event : ℕ) → may_start self.old.kept event ≡ false → may_start self.new.kept event ≡ true → Contains self.new.woken event }
        ensures only { result ≡ filled.Done → wakes out.new.deed ≡ true → (event : ℕ) → Contains self.new.woken event → (may_start self.old.kept event ≡ false) × (may_start self.new.kept event ≡ true) }
        ensures left { result ≡ filled.Done → wakes out.new.deed ≡ false → self.new.woken ≡ self.old.woken }
    {
        self.act_by_wish(p, who, wish, out)
    }

    /// Fills in the entry of a wish, by what it wants.
    fn act_by_wish(&mut self, p: &BusPlan, who: &Actor, wish: &Wish, out: &mut Entry) -> Filled
        requires fits { wish_fits (plan_of p.now) who.now (wanted_of wish.now) ≡ true }
        requires touching { object_of (plan_of p.now) who.now (wanted_of wish.now) ≡ Some (touched (plan_of p.now) who.now (wanted_of wish.now)) }
        requires planned { IsOfPlan (plan_of p.now) (touched (plan_of p.now) who.now (wanted_of wish.now)) self.old.kept }
        ensures { IsActed (plan_of p.now) who.now (wanted_of wish.now) self.old self.new (acted result out.new) }
    {
        match wish {
            Wish::Send { elem, value } => self.send(who, *elem, value, out),
            Wish::Receive { elem } => self.receive(p, who, *elem, out),
            Wish::Start { event } => self.start(who, *event, out),
            _ => Filled::NotYet(Shown::Unmatched),
        }
    }

    /// A send by an element of the group.
    fn send(&mut self, who: &Actor, elem: u32, value: &Value, out: &mut Entry) -> Filled
        requires { length (words_of value.now) ≡ self.old.kept.queued.words }
        ensures { (p : Plan) → IsActed p who.now (to_send elem (words_of value.now)) self.old self.new (acted result out.new) }
    {
        let code = self
            .queues
            .send(value, self.events.as_slice(), &mut self.woken);
        fill_send(who, elem, value, code, out);
        Filled::Done
    }

    /// A receive by an element: without a join it is not connected.
    fn receive(&mut self, p: &BusPlan, who: &Actor, elem: u32, out: &mut Entry) -> Filled
        ensures { IsActed (plan_of p.now) who.now (to_receive elem) self.old self.new (acted result out.new) }
    {
        if is_joined(p, elem) {
            return self.take_value(who, elem, out);
        }
        *out = Entry {
            actor: *who,
            deed: Deed::Receive {
                elem,
                code: UNCONNECTED,
                value: Value::empty(),
            },
        };
        Filled::Done
    }

    /// A receive by an element with a join, if it is a receiver.
    fn take_value(&mut self, who: &Actor, elem: u32, out: &mut Entry) -> Filled
        ensures { (p : Plan) → is_joined_at p elem ≡ true → IsActed p who.now (to_receive elem) self.old self.new (acted result out.new) }
    {
        match find(self.receivers.as_slice(), elem) {
            Some(receiver) => {
                let received = self.queues.receive(receiver);
                fill_receive(who, elem, received.code, &received.value, out);
                Filled::Done
            }
            None => Filled::NotYet(Shown::Unmatched),
        }
    }

    /// The start by an event, if it is pending.
    fn start(&mut self, who: &Actor, event: u32, out: &mut Entry) -> Filled
        ensures { (p : Plan) → IsActed p who.now (to_start event) self.old self.new (acted result out.new) }
    {
        if self.take_start(event) {
            *out = Entry {
                actor: *who,
                deed: Deed::Start {
                    event,
                    point: None,
                    value: Value::empty(),
                },
            };
            Filled::Done
        } else {
            Filled::NotYet(Shown::NotDue(event))
        }
    }

    /// Whether a start by an event was pending; then it is no longer.
    fn take_start(&mut self, event: u32) -> bool
        ensures { IsTaken result self.old self.new (started_at self.old.kept.queued (place event self.old.kept.events)) }
    {
        match find(self.events.as_slice(), event) {
            Some(place) => self.queues.start(place),
            None => false,
        }
    }

    /// Whether a start by an event is pending.
    pub fn may_start(&self, event: u32) -> bool
        ensures { result ≡ may_start self.now.kept event }
    {
        match find(self.events.as_slice(), event) {
            Some(place) => self.queues.is_due(place),
            None => false,
        }
    }

    /// The events that the last send made pending, by number: each that it made pending, and no other.
    pub fn woken(&self) -> &[u32]
        ensures { result.now ≡ self.now.woken }
    {
        self.woken.as_slice()
    }
}
