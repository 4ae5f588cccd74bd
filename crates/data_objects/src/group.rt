//! A group of unqueued data elements with the plan's events that wait for it.

ghost use Rattle.std.specs.Prelude.{◌≡◌, ◌<◌, ◌≤◌, ◌+◌, ◌⊎◌, ℕ, count_by, length, not, true, false, Some, is_some};
ghost use Rattle.bus_semantics.specs.Common.{Contains, vec_capacity, words_of, Plan, plan_of, look, groups_fit, to_start, to_fetch, to_write, to_read, to_invalidate, to_see_updated};
ghost use Rattle.bus_semantics.specs.Common.{to_publish, wanted_of, object_of, touched};
ghost use Rattle.object_kinds.specs.declared.acted.Shown.{Shown};
ghost use Rattle.object_kinds.specs.declared.acted.Filled.TheVariants as filled;
ghost use Rattle.object_kinds.specs.Common.{place, members_of, IsAnswerOf, acted};
ghost use Rattle.data_objects.specs.KeptValues.{after_write};
ghost use Rattle.data_objects.specs.Acting.{IsActed, IsTaken, IsWishIn, group_seen, started_at};
ghost use Rattle.data_objects.specs.Kept.{may_start};
ghost use Rattle.data_objects.specs.Leading.{group_lead, lead, why_held, read_code_by, value_in, wakes};
ghost use Rattle.data_objects.specs.Plans.{IsGroupOfPlan, IsOfPlan};

use crate::filling::{fill_read, fill_write};
use crate::unqueued::Unqueued;
use bus_semantics::{Actor, BusPlan, Deed, ElemKind, ElemPlan, Entry, Wish};
use object_kinds::{Filled, Shown, find};
use rte_value::{Code, Value};
use std::marker::Model;

/// A group of unqueued data elements, and by number the plan's DataReceivedEvents that wait for it, in rising order. `woken`
/// has those of them that the last write or publication made pending, and room for all.
#[derive(Drop)]
pub struct Group {
    pub(crate) events: Vec<u32>,
    pub(crate) unqueued: Unqueued,
    pub(crate) woken: Vec<u32>,
}

impl Model for Group {
    ghost use Rattle.std.specs.Prelude.{◌≡◌, ◌≤◌, length, true};
    ghost use Rattle.std.specs.Vec.{vec_capacity};
    ghost use Rattle.object_kinds.specs.Rising.{is_rising};
    ghost use Rattle.data_objects.specs.Kept.{GroupState};

    ghost Value = { GroupState };

    ghost view = { λ g. record { kept = record { events = g.events.items; unqueued = g.unqueued }; woken = g.woken.items } };

    ghost invariant = { λ g. (is_rising g.events.items ≡ true) × (length g.unqueued.events ≡ length g.events.items) × (length g.events.items ≤ vec_capacity g.woken) };
}

/// The receiver of a group that an element is: its place among the elements of the group.
pub(crate) fn receiver(p: &BusPlan, group: u32, elem: u32) -> Option<u32>
    requires groups { groups_fit (plan_of p.now) ≡ true }
    requires within { group < length p.now.groups }
    ensures { result ≡ place elem (members_of (plan_of p.now) group) }
{
    find(p.groups.items()[group as usize].items(), elem)
}

/// The code of a read (SWS_RTE: Rte_Read), where the group is invalid, and where something was written.
pub(crate) fn read_code(element: &ElemPlan, invalid: bool, seen: bool) -> Code
    ensures { result ≡ read_code_by element.now invalid seen }
{
    match element.kind {
        ElemKind::Variable => 0,
        ElemKind::Unqueued | ElemKind::Queued => {
            if !element.joined {
                134
            } else if invalid {
                1
            } else if element.never_received && !seen {
                133
            } else {
                0
            }
        }
    }
}

/// The code of a read by an element, where this is kept.
fn code_for(p: &BusPlan, elem: u32, kept: &Unqueued) -> Code
    ensures { result ≡ look p.now.elements elem (λ e. read_code_by e kept.now.invalid (is_some kept.now.stored)) 0 }
{
    match p.elements.items().get(elem as usize) {
        Some(element) => read_code(element, kept.is_invalid(), kept.is_written()),
        None => 0,
    }
}

impl Group {
    /// Makes the entry of a wish on the group that it touches, if one may come, and fills it in at `out` (SWS_RTE: Rte_Write, Rte_Read,
    /// Rte_Invalidate, Rte_IsUpdated, implicit access, DataReceivedEvent). It takes no memory. `NotYet` changes nothing of the group.
    /// Then no entry of the actor and the wish leads on, and the answer says why. Every entry but a write or a publication leaves
    /// the list of woken events as it was.
    pub fn act(&mut self, p: &BusPlan, who: &Actor, wish: &Wish, out: &mut Entry) -> Filled
        requires groups { groups_fit (plan_of p.now) ≡ true }
        requires touching { object_of (plan_of p.now) who.now (wanted_of wish.now) ≡ Some (touched (plan_of p.now) who.now (wanted_of wish.now)) }
        requires planned { IsOfPlan (plan_of p.now) (touched (plan_of p.now) who.now (wanted_of wish.now)) self.old.kept }
        ensures planned { IsOfPlan (plan_of p.now) (touched (plan_of p.now) who.now (wanted_of wish.now)) self.new.kept }
        ensures answer { IsAnswerOf (plan_of p.now) (lead (plan_of p.now) (touched (plan_of p.now) who.now (wanted_of wish.now))) may_start why_held who.now (wanted_of wish.now) self.old.kept self.new.kept (acted result out.new) }
        ensures same { (shown : Shown) → result ≡ filled.NotYet shown → self.new ≡ self.old }
        ensures told { (event : ℕ) → may_start self.old.kept event ≡ false → may_start self.new.kept event ≡ true → Contains self.new.woken event }
        ensures only { result ≡ filled.Done → wakes out.new.deed ≡ true → (event : ℕ) → Contains self.new.woken event → (may_start self.old.kept event ≡ false) × (may_start self.new.kept event ≡ true) }
        ensures left { result ≡ filled.Done → wakes out.new.deed ≡ false → self.new.woken ≡ self.old.woken }
    {
        self.act_by_wish(p, who, wish, out)
    }

    /// Makes the entry of a wish as `act` does, on a group that is one of several in a bundle: of whatever else is wished, an element
    /// that is read or looked at is of the group.
    pub fn act_in_group(&mut self, p: &BusPlan, who: &Actor, wish: &Wish, out: &mut Entry) -> Filled
        requires groups { groups_fit (plan_of p.now) ≡ true }
        requires planned { (group : ℕ) → group_seen (plan_of p.now) (wanted_of wish.now) ≡ Some group → IsGroupOfPlan (plan_of p.now) group self.old.kept }
        ensures planned { (group : ℕ) → IsWishIn (plan_of p.now) group (wanted_of wish.now) → IsGroupOfPlan (plan_of p.now) group self.old.kept → IsGroupOfPlan (plan_of p.now) group self.new.kept }
        ensures answer { (group : ℕ) → IsWishIn (plan_of p.now) group (wanted_of wish.now) → IsGroupOfPlan (plan_of p.now) group self.old.kept →
            IsAnswerOf (plan_of p.now) (group_lead (plan_of p.now) group) may_start why_held who.now (wanted_of wish.now) self.old.kept self.new.kept (acted result out.new) }
        ensures same { (group : ℕ) → IsWishIn (plan_of p.now) group (wanted_of wish.now) → (shown : Shown) → result ≡ filled.NotYet shown → self.new ≡ self.old }
        ensures long { length self.new.kept.unqueued.due ≡ length self.old.kept.unqueued.due }
    {
        self.act_by_wish(p, who, wish, out)
    }

    /// Makes the entry of a wish, by what it wants.
    fn act_by_wish(&mut self, p: &BusPlan, who: &Actor, wish: &Wish, out: &mut Entry) -> Filled
        requires groups { groups_fit (plan_of p.now) ≡ true }
        requires planned { (group : ℕ) → group_seen (plan_of p.now) (wanted_of wish.now) ≡ Some group → IsGroupOfPlan (plan_of p.now) group self.old.kept }
        ensures acted { (group : ℕ) → IsWishIn (plan_of p.now) group (wanted_of wish.now) → IsActed (plan_of p.now) group who.now (wanted_of wish.now) self.old self.new (acted result out.new) }
        ensures long { length self.new.kept.unqueued.due ≡ length self.old.kept.unqueued.due }
    {
        // Each arm returns: what the arms give to a match is copied once more behind it.
        match wish {
            Wish::Write { elem, value } => return self.write(who, *elem, value, out),
            Wish::Publish { elem, value } => return self.publish(who, *elem, value, out),
            Wish::Invalidate { elem } => return self.invalidate(who, *elem, out),
            Wish::Read { elem } => match p.group_of(*elem) {
                Some(group) => return self.read(p, group, who, *elem, out),
                None => return Filled::NotYet(Shown::Unmatched),
            },
            Wish::Fetch { elem } => match p.group_of(*elem) {
                Some(group) => return self.fetch(p, group, who, *elem, out),
                None => return Filled::NotYet(Shown::Unmatched),
            },
            Wish::IsUpdated { elem } => match p.group_of(*elem) {
                Some(group) => return self.is_updated(p, group, who, *elem, out),
                None => return Filled::NotYet(Shown::Unmatched),
            },
            Wish::Start { event } => return self.start(who, *event, out),
            _ => return Filled::NotYet(Shown::Unmatched),
        }
    }

    /// A write to an element.
    fn write(&mut self, who: &Actor, elem: u32, value: &Value, out: &mut Entry) -> Filled
        ensures { (p : Plan) (group : ℕ) → IsActed p group who.now (to_write elem (words_of value.now)) self.old self.new (acted result out.new) }
    {
        self.unqueued
            .write_and_tell(value, self.events.as_slice(), &mut self.woken);
        fill_write(who, elem, value, out);
        Filled::Done
    }

    /// A publication of an element.
    fn publish(&mut self, who: &Actor, elem: u32, value: &Value, out: &mut Entry) -> Filled
        ensures { (p : Plan) (group : ℕ) → IsActed p group who.now (to_publish elem (words_of value.now)) self.old self.new (acted result out.new) }
    {
        self.unqueued
            .publish_and_tell(value, self.events.as_slice(), &mut self.woken);
        *out = Entry {
            actor: *who,
            deed: Deed::Publish {
                elem,
                value: *value,
            },
        };
        Filled::Done
    }

    /// An invalidation of an element.
    fn invalidate(&mut self, who: &Actor, elem: u32, out: &mut Entry) -> Filled
        ensures { (p : Plan) (group : ℕ) → IsActed p group who.now (to_invalidate elem) self.old self.new (acted result out.new) }
    {
        self.unqueued.invalidate();
        *out = Entry {
            actor: *who,
            deed: Deed::Invalidate { elem },
        };
        Filled::Done
    }

    /// The start by an event, if it is pending.
    fn start(&mut self, who: &Actor, event: u32, out: &mut Entry) -> Filled
        ensures { (p : Plan) (group : ℕ) → IsActed p group who.now (to_start event) self.old self.new (acted result out.new) }
    {
        if self.take_start(event) {
            *out = Entry {
                actor: *who,
                deed: Deed::Start {
                    event,
                    point: None,
                    value: Value::empty(),
                },
            };
            Filled::Done
        } else {
            Filled::NotYet(Shown::NotDue(event))
        }
    }

    /// Whether a start by an event was pending; then it is no longer.
    fn take_start(&mut self, event: u32) -> bool
        ensures { IsTaken result self.old self.new (started_at self.old.kept.unqueued (place event self.old.kept.events)) }
    {
        match find(self.events.as_slice(), event) {
            Some(place) => self.unqueued.start(place),
            None => false,
        }
    }

    /// A read by an element.
    fn read(&mut self, p: &BusPlan, group: u32, who: &Actor, elem: u32, out: &mut Entry) -> Filled
        requires groups { groups_fit (plan_of p.now) ≡ true }
        requires within { group < length p.now.groups }
        requires inits { length self.old.kept.unqueued.inits ≡ length (members_of (plan_of p.now) group) }
        ensures { IsActed (plan_of p.now) group who.now (to_read elem) self.old self.new (acted result out.new) }
    {
        match receiver(p, group, elem) {
            Some(receiver) => {
                let code = code_for(p, elem, &self.unqueued);
                fill_read(who, elem, code, self.unqueued.value(receiver), out);
                self.unqueued.note_read(receiver);
                Filled::Done
            }
            None => Filled::NotYet(Shown::Unmatched),
        }
    }

    /// A fetch of an element.
    fn fetch(&self, p: &BusPlan, group: u32, who: &Actor, elem: u32, out: &mut Entry) -> Filled
        requires groups { groups_fit (plan_of p.now) ≡ true }
        requires within { group < length p.now.groups }
        requires inits { length self.now.kept.unqueued.inits ≡ length (members_of (plan_of p.now) group) }
        ensures { IsActed (plan_of p.now) group who.now (to_fetch elem) self.now self.now (acted result out.new) }
    {
        match receiver(p, group, elem) {
            Some(receiver) => {
                *out = Entry {
                    actor: *who,
                    deed: Deed::Fetch {
                        elem,
                        value: self.unqueued.fetch(receiver),
                    },
                };
                Filled::Done
            }
            None => Filled::NotYet(Shown::Unmatched),
        }
    }

    /// Whether an element is updated.
    fn is_updated(&self, p: &BusPlan, group: u32, who: &Actor, elem: u32, out: &mut Entry) -> Filled
        requires groups { groups_fit (plan_of p.now) ≡ true }
        requires within { group < length p.now.groups }
        requires inits { length self.now.kept.unqueued.inits ≡ length (members_of (plan_of p.now) group) }
        ensures { IsActed (plan_of p.now) group who.now (to_see_updated elem) self.now self.now (acted result out.new) }
    {
        match receiver(p, group, elem) {
            Some(receiver) => {
                *out = Entry {
                    actor: *who,
                    deed: Deed::IsUpdated {
                        elem,
                        yes: self.unqueued.is_updated(receiver),
                    },
                };
                Filled::Done
            }
            None => Filled::NotYet(Shown::Unmatched),
        }
    }

    /// The value that an implicit read by an element of the group fetches (SWS_RTE: Rte_IRead); none for another element.
    pub fn value(&self, p: &BusPlan, group: u32, elem: u32) -> Option<Value>
        requires groups { groups_fit (plan_of p.now) ≡ true }
        requires planned { IsGroupOfPlan (plan_of p.now) group self.now.kept }
        ensures { result ≡ value_in (plan_of p.now) group elem self.now.kept.unqueued }
    {
        match receiver(p, group, elem) {
            Some(receiver) => Some(self.unqueued.fetch(receiver)),
            None => None,
        }
    }

    /// Stores a value that was written or published in the group, and appends the events that it makes pending to `woken`. The group's
    /// own list of them stays.
    pub fn publish_and_add(&mut self, value: &Value, woken: &mut Vec<u32>)
        requires room { length woken.old.items + count_by not self.old.kept.unqueued.due ≤ vec_capacity woken.old }
        ensures events { self.new.kept.events ≡ self.old.kept.events }
        ensures stored { self.new.kept.unqueued ≡ after_write value.now self.old.kept.unqueued }
        ensures told { (event : ℕ) → may_start self.old.kept event ≡ false → may_start self.new.kept event ≡ true → Contains woken.new.items event }
        ensures stayed { (event : ℕ) → Contains woken.old.items event → Contains woken.new.items event }
        ensures only { (event : ℕ) → Contains woken.new.items event → Contains woken.old.items event ⊎ ((may_start self.old.kept event ≡ false) × (may_start self.new.kept event ≡ true)) }
        ensures room { length woken.new.items + count_by not self.new.kept.unqueued.due ≤ length woken.old.items + count_by not self.old.kept.unqueued.due }
        ensures capacity { vec_capacity woken.new ≡ vec_capacity woken.old }
    {
        self.unqueued
            .publish_and_add(value, self.events.as_slice(), woken);
    }

    /// Whether a start by an event is pending.
    pub fn may_start(&self, event: u32) -> bool
        ensures { result ≡ may_start self.now.kept event }
    {
        match find(self.events.as_slice(), event) {
            Some(place) => self.unqueued.is_due(place),
            None => false,
        }
    }

    /// The events that the last write or publication made pending, by number: each that it made pending, and no other.
    pub fn woken(&self) -> &[u32]
        ensures { result.now ≡ self.now.woken }
    {
        self.woken.as_slice()
    }
}
