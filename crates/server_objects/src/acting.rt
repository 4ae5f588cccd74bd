//! The entries of a server.

ghost use Rattle.std.specs.Prelude.{◌≡◌, ◌<◌, ◌≤◌, ◌+◌, ◌++◌, [], ◌∷◌, IsSome, None, length, true};
ghost use Rattle.bus_semantics.specs.Common.{vec_capacity, words_of, to_ask, to_hear, to_take_result, to_start, to_return};
ghost use Rattle.bus_semantics.specs.declared.entries.Actor.TheVariants.{Act};
ghost use Rattle.object_kinds.specs.Common.{acted, given};
ghost use Rattle.server_objects.specs.Acting.{IsActed, IsAskedAt, IsReturned, IsStart, IsTaken};
ghost use Rattle.server_objects.specs.Kept.{awaiting, has_next, told_where};

use crate::filling::{fill_answer, fill_ask, fill_return, fill_served_start};
use crate::server_object::ServerObject;
use bus_semantics::{Actor, Deed, Entry};
use client_server::Outcome;
use object_kinds::{Filled, Shown};
use rte_value::{ActKey, Code, Value};

/// RTE_E_NO_DATA.
const NO_DATA: Code = 131;

impl ServerObject {
    /// An Ask at a point.
    pub(crate) fn ask(&mut self, who: &Actor, point: u32, value: &Value, out: &mut Entry) -> Filled
        ensures { IsActed who.now (to_ask point (words_of value.now)) self.old self.new (acted result out.new) }
    {
        match self.place_of(point) {
            Some(place) => {
                let code = self.ask_at(place, value);
                fill_ask(who, point, value, code, out);
                Filled::Done
            }
            None => Filled::NotYet(Shown::Unmatched),
        }
    }

    /// Asks for the point at a place.
    fn ask_at(&mut self, place: u32, value: &Value) -> Code
        requires { place < length self.old.kept.served.points }
        ensures { IsAskedAt value.now self.old self.new place result }
    {
        let had_next = self.has_next();
        let code = self.server.ask(place, value);
        self.tell_next(had_next);
        code
    }

    /// Tells the server's event, if it may start now and might not before.
    fn tell_next(&mut self, had_next: bool)
        ensures kept { self.new.kept ≡ self.old.kept }
        ensures woken { self.new.woken ≡ told_where had_next (has_next self.old.kept.served) (self.old.kept.event ∷ []) }
        ensures heard { self.new.heard ≡ self.old.heard }
    {
        self.woken.clear();
        if !had_next && self.has_next() {
            self.woken.push_reserved(self.event);
        }
    }

    /// Tells besides the return events of the point at a place, if they were not pending before.
    fn tell_returns(&mut self, was_due: bool, place: u32)
        requires within { place < length self.old.kept.points }
        requires first { length self.old.woken ≤ 1 }
        ensures kept { self.new.kept ≡ self.old.kept }
        ensures woken { self.new.woken ≡ self.old.woken ++ told_where was_due true (awaiting self.old.kept.returns self.old.kept.awaited place) }
        ensures heard { self.new.heard ≡ self.old.heard }
    {
        if !was_due {
            append_all(&mut self.woken, self.by_point[place as usize].as_slice());
        }
    }

    /// An Answer at a point, if something was returned to it.
    pub(crate) fn hear(&mut self, who: &Actor, point: u32, out: &mut Entry) -> Filled
        ensures { IsActed who.now (to_hear point) self.old self.new (acted result out.new) }
    {
        match self.place_of(point) {
            Some(place) => match self.server.answer(place) {
                Some(outcome) => {
                    fill_answer(who, point, &outcome, out);
                    Filled::Done
                }
                None => Filled::NotYet(Shown::NotReturned(point)),
            },
            None => Filled::NotYet(Shown::NotReturned(point)),
        }
    }

    /// The result at a point: what was returned to it, if something was.
    pub(crate) fn take_result(&mut self, who: &Actor, point: u32, out: &mut Entry) -> Filled
        ensures { IsActed who.now (to_take_result point) self.old self.new (acted result out.new) }
    {
        match self.place_of(point) {
            Some(place) => {
                let outcome = self.result_at(place);
                *out = Entry {
                    actor: *who,
                    deed: Deed::TakeResult {
                        point,
                        code: outcome.code,
                        value: outcome.value,
                    },
                };
                Filled::Done
            }
            None => Filled::NotYet(Shown::Unmatched),
        }
    }

    /// Takes what was returned to the point at a place, if something was.
    fn result_at(&mut self, place: u32) -> Outcome
        requires { place < length self.old.kept.served.points }
        ensures { IsTaken self.old self.new place result }
    {
        match self.server.result(place) {
            Some(outcome) => outcome,
            None => Outcome {
                code: NO_DATA,
                value: Value::empty(),
            },
        }
    }

    /// The start by an event, if it may come.
    pub(crate) fn start(&mut self, who: &Actor, event: u32, out: &mut Entry) -> Filled
        ensures { IsActed who.now (to_start event) self.old self.new (acted result out.new) }
    {
        match who {
            Actor::Act(key) => self.start_for(who, key, event, out),
            _ => Filled::NotYet(Shown::NotDue(event)),
        }
    }

    /// The start by an event for an activation with this key.
    fn start_for(&mut self, who: &Actor, key: &ActKey, event: u32, out: &mut Entry) -> Filled
        requires { who.now ≡ Act key.now }
        ensures { IsActed who.now (to_start event) self.old self.new (acted result out.new) }
    {
        out.actor = *who;
        if self.take_start(key.point, event, &mut out.deed) {
            Filled::Done
        } else {
            Filled::NotYet(Shown::NotDue(event))
        }
    }

    /// Whether the start by an event may come for an activation whose key has this point; then it has, and `deed` is the start.
    fn take_start(&mut self, own: Option<u32>, event: u32, deed: &mut Deed) -> bool
        ensures { IsStart own event self.old self.new (given result deed.new) }
    {
        if event != self.event {
            self.start_return(own, event, deed)
        } else if self.is_queued {
            self.start_next(own, event, deed)
        } else {
            self.start_directly(own, event, deed)
        }
    }

    /// Whether a queued server may start for this key; then it has, and `deed` is the start.
    fn start_next(&mut self, own: Option<u32>, event: u32, deed: &mut Deed) -> bool
        requires event { event ≡ self.old.kept.event }
        requires queued { IsSome self.old.kept.served.queue }
        ensures { IsStart own event self.old self.new (given result deed.new) }
    {
        if own.is_some() {
            return false;
        }
        match self.server.start() {
            Some(request) => {
                fill_served_start(
                    event,
                    self.points[request.point as usize],
                    &request.value,
                    deed,
                );
                true
            }
            None => false,
        }
    }

    /// Whether a direct server may start for this key; then it has, and `deed` is the start.
    fn start_directly(&mut self, own: Option<u32>, event: u32, deed: &mut Deed) -> bool
        requires event { event ≡ self.old.kept.event }
        requires direct { self.old.kept.served.queue ≡ None }
        ensures { IsStart own event self.old self.new (given result deed.new) }
    {
        match self.own_place(own) {
            Some(place) => match self.server.start_direct(place) {
                Some(value) => {
                    *deed = Deed::Start {
                        event,
                        point: own,
                        value,
                    };
                    true
                }
                None => false,
            },
            None => false,
        }
    }

    /// Whether the start by a return event may come; then it has, and `deed` is the start.
    fn start_return(&mut self, own: Option<u32>, event: u32, deed: &mut Deed) -> bool
        requires { event ≡ self.old.kept.event → ⊥ }
        ensures { IsStart own event self.old self.new (given result deed.new) }
    {
        match self.awaited_at(event) {
            Some(place) => {
                if self.server.start_return(place) {
                    *deed = Deed::Start {
                        event,
                        point: None,
                        value: Value::empty(),
                    };
                    true
                } else {
                    false
                }
            }
            None => false,
        }
    }

    /// A Return, if the actor serves a point.
    pub(crate) fn give_back(
        &mut self,
        who: &Actor,
        code: Code,
        value: &Value,
        out: &mut Entry,
    ) -> Filled
        ensures { IsActed who.now (to_return code (words_of value.now)) self.old self.new (acted result out.new) }
    {
        let is_returned = match self.serving_of(who) {
            Some(place) => self.return_at(place, code, value),
            None => false,
        };
        if is_returned {
            fill_return(who, code, value, out);
            Filled::Done
        } else {
            Filled::NotYet(Shown::Unmatched)
        }
    }

    /// Returns to the point at a place, if its request has started.
    fn return_at(&mut self, place: u32, code: Code, value: &Value) -> bool
        requires { place < length self.old.kept.served.points }
        ensures { IsReturned code value.now self.old self.new place result }
    {
        let had_next = self.has_next();
        let was_due = self.server.is_return_due(place);
        let point = self.points[place as usize];
        let outcome = Outcome {
            code,
            value: *value,
        };
        if !self.server.reply(place, &outcome) {
            return false;
        }
        self.heard = Some(point);
        self.tell_next(had_next);
        self.tell_returns(was_due, place);
        true
    }
}

/// Appends all of these events. There is room for them.
fn append_all(woken: &mut Vec<u32>, events: &[u32])
    requires { length woken.old.items + length events.now ≤ vec_capacity woken.old }
    ensures appended { woken.new.items ≡ woken.old.items ++ events.now }
    ensures room { vec_capacity woken.new ≡ vec_capacity woken.old }
{
    for event in events {
        woken.push_reserved(*event);
    }
}
