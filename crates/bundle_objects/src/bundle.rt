//! Groups of unqueued data elements that coherent access lists connect, with the plan's events that wait for them.

ghost use Rattle.std.specs.Prelude.{◌≡◌, ◌<◌, ◌≤◌, ◌+◌, ℕ, [], length, slice_get, true, false, Some, IfSome};
ghost use Rattle.bus_semantics.specs.Common.{Contains, words_of, Plan, plan_of, groups_fit, to_start, wanted_of, object_of, touched};
ghost use Rattle.bus_semantics.specs.declared.entries.Deed.TheVariants as deed;
ghost use Rattle.object_kinds.specs.declared.acted.Shown.{Shown};
ghost use Rattle.object_kinds.specs.declared.acted.Filled.TheVariants as filled;
ghost use Rattle.object_kinds.specs.Common.{IsAnswerOf, acted};
ghost use Rattle.data_objects.specs.Acting.{group_seen};
ghost use Rattle.data_objects.specs.Kept as groups;
ghost use Rattle.data_objects.specs.Plans.{IsGroupOfPlan};
ghost use Rattle.bundle_objects.specs.Acting.{Adds, Answered, IsActedAt, IsOnElem, IsPartActed, IsStored};
ghost use Rattle.bundle_objects.specs.Kept.{clear_in, may_start, route};
ghost use Rattle.bundle_objects.specs.Leading.{lead, part_of, store_at, why_held, wakes};
ghost use Rattle.bundle_objects.specs.Plans.{AreGroups, IsOfPlan};

use bus_semantics::{Actor, BusPlan, Deed, Entry, Wish};
use data_objects::Group;
use object_kinds::{Filled, Shown, find};
use rte_value::Value;
use std::marker::Model;

/// A bundle of groups: their numbers in rising order, and by number the plan's DataReceivedEvents that wait for them, in rising order,
/// each with the place of its group. So the start by an event needs no walk over the groups. `woken` has those of the events that the last
/// write or publication made pending, and room for all.
#[derive(Drop)]
pub struct Bundle {
    pub(crate) numbers: Vec<u32>,
    pub(crate) events: Vec<u32>,
    pub(crate) places: Vec<u32>,
    pub(crate) groups: Vec<Group>,
    pub(crate) woken: Vec<u32>,
}

impl Model for Bundle {
    ghost use Rattle.std.specs.Prelude.{◌≡◌, ◌≤◌, length, map, nat_lt, sum_by, true};
    ghost use Rattle.std.specs.List.{list_all};
    ghost use Rattle.std.specs.Vec.{vec_capacity};
    ghost use Rattle.data_objects.specs.Kept.{GroupState};
    ghost use Rattle.object_kinds.specs.Rising.{is_rising};
    ghost use Rattle.bundle_objects.specs.Kept.{BundleState};

    ghost Value = { BundleState };

    ghost view = { λ b. record { kept = record { numbers = b.numbers.items; events = b.events.items; places = b.places.items; parts = map (λ (g : GroupState). g.kept) b.groups.items }; woken = b.woken.items; room = vec_capacity b.woken } };

    ghost invariant = { λ b. (is_rising b.numbers.items ≡ true) × (is_rising b.events.items ≡ true) × (length b.groups.items ≡ length b.numbers.items)
        × (length b.places.items ≡ length b.events.items) × (list_all (λ i. nat_lt i (length b.groups.items)) b.places.items ≡ true)
        × (sum_by (λ (g : GroupState). length g.kept.unqueued.due) b.groups.items ≤ vec_capacity b.woken) };
}

impl Bundle {
    /// Makes the entry of a wish on the bundle that it touches, if one may come, and fills it in at `out` (SWS_RTE: Rte_Write, Rte_Read,
    /// Rte_Invalidate, Rte_IsUpdated, implicit access, DataReceivedEvent). The values of a list are fetched, or published, at one moment.
    /// It takes no memory. `NotYet` changes nothing of the bundle. A publication of a list stores the words of each marked element, the
    /// last of a group's elements last, and nothing in the groups of others. Every entry but a write or a publication leaves the list
    /// of woken events as it was.
    pub fn act(&mut self, p: &BusPlan, who: &Actor, wish: &Wish, out: &mut Entry) -> Filled
        requires groups { groups_fit (plan_of p.now) ≡ true }
        requires touching { object_of (plan_of p.now) who.now (wanted_of wish.now) ≡ Some (touched (plan_of p.now) who.now (wanted_of wish.now)) }
        requires planned { IsOfPlan (plan_of p.now) (touched (plan_of p.now) who.now (wanted_of wish.now)) self.old.kept }
        ensures planned { IsOfPlan (plan_of p.now) (touched (plan_of p.now) who.now (wanted_of wish.now)) self.new.kept }
        ensures answer { IsAnswerOf (plan_of p.now) (lead (plan_of p.now)) may_start why_held who.now (wanted_of wish.now) self.old.kept self.new.kept (acted result out.new) }
        ensures same { (shown : Shown) → result ≡ filled.NotYet shown → self.new ≡ self.old }
        ensures told { (event : ℕ) → may_start self.old.kept event ≡ false → may_start self.new.kept event ≡ true → Contains self.new.woken event }
        ensures only { result ≡ filled.Done → wakes out.new.deed ≡ true → (event : ℕ) → Contains self.new.woken event → (may_start self.old.kept event ≡ false) × (may_start self.new.kept event ≡ true) }
        ensures left { result ≡ filled.Done → wakes out.new.deed ≡ false → self.new.woken ≡ self.old.woken }
    {
        self.act_by_wish(p, who, wish, out)
    }

    /// Makes the entry of a wish, by what it wants.
    fn act_by_wish(&mut self, p: &BusPlan, who: &Actor, wish: &Wish, out: &mut Entry) -> Filled
        requires groups { groups_fit (plan_of p.now) ≡ true }
        requires planned { IsOfPlan (plan_of p.now) (touched (plan_of p.now) who.now (wanted_of wish.now)) self.old.kept }
        ensures { Answered (plan_of p.now) (touched (plan_of p.now) who.now (wanted_of wish.now)) who.now (wanted_of wish.now) self.old self.new (acted result out.new) }
    {
        match wish {
            Wish::FetchAll { list } => self.fetch_all(p, who, *list, out),
            Wish::PublishAll {
                list,
                written,
                value,
            } => self.publish_all(p, who, *list, *written, value, out),
            Wish::Write { elem, value } => self.write(p, who, *elem, value, out),
            Wish::Publish { elem, value } => self.publish(p, who, *elem, value, out),
            Wish::Read { elem }
            | Wish::Fetch { elem }
            | Wish::Invalidate { elem }
            | Wish::IsUpdated { elem } => self.act_by_elem(p, *elem, who, wish, out),
            Wish::Start { event } => self.start(p, *event, who, wish, out),
            _ => Filled::NotYet(Shown::Unmatched),
        }
    }

    /// The place of an element's group.
    pub(crate) fn place_of(&self, p: &BusPlan, elem: u32) -> Option<u32>
        ensures place { result ≡ part_of (plan_of p.now) self.now.kept elem }
        ensures within { IfSome result (λ place. place < length self.now.kept.parts) }
    {
        match p.group_of(elem) {
            Some(group) => find(self.numbers.as_slice(), group),
            None => None,
        }
    }

    /// The place of the group that an event waits for.
    fn route(&self, event: u32) -> Option<u32>
        ensures place { result ≡ route self.now.kept event }
        ensures within { IfSome result (λ place. place < length self.now.kept.parts) }
    {
        match find(self.events.as_slice(), event) {
            Some(at) => Some(self.places[at as usize]),
            None => None,
        }
    }

    /// Makes the entry of a wish on the group at a place.
    fn act_at(
        &mut self,
        p: &BusPlan,
        place: u32,
        who: &Actor,
        wish: &Wish,
        out: &mut Entry,
    ) -> Filled
        requires groups { groups_fit (plan_of p.now) ≡ true }
        requires within { place < length self.old.kept.parts }
        requires planned { (group : ℕ) (part : groups.Kept) → slice_get self.old.kept.parts place ≡ Some part → group_seen (plan_of p.now) (wanted_of wish.now) ≡ Some group → IsGroupOfPlan (plan_of p.now) group part }
        ensures { IsPartActed (plan_of p.now) place who.now (wanted_of wish.now) self.old self.new (acted result out.new) }
    {
        self.groups[place as usize].act_in_group(p, who, wish, out)
    }

    /// Makes the entry of a wish that reads, looks at or invalidates an element, on the element's group.
    fn act_by_elem(
        &mut self,
        p: &BusPlan,
        elem: u32,
        who: &Actor,
        wish: &Wish,
        out: &mut Entry,
    ) -> Filled
        requires groups { groups_fit (plan_of p.now) ≡ true }
        requires planned { AreGroups (plan_of p.now) self.old.kept }
        requires wish { IsOnElem (wanted_of wish.now) elem }
        ensures wish { IsOnElem (wanted_of wish.now) elem }
        ensures acted { IsActedAt (plan_of p.now) (part_of (plan_of p.now) self.old.kept elem) who.now (wanted_of wish.now) self.old self.new (acted result out.new) }
    {
        match self.place_of(p, elem) {
            Some(place) => self.act_at(p, place, who, wish, out),
            None => Filled::NotYet(Shown::Unmatched),
        }
    }

    /// Makes the entry of the start by an event, on the group that the event waits for.
    fn start(
        &mut self,
        p: &BusPlan,
        event: u32,
        who: &Actor,
        wish: &Wish,
        out: &mut Entry,
    ) -> Filled
        requires groups { groups_fit (plan_of p.now) ≡ true }
        requires wish { wanted_of wish.now ≡ to_start event }
        ensures { IsActedAt (plan_of p.now) (route self.old.kept event) who.now (wanted_of wish.now) self.old self.new (acted result out.new) }
    {
        match self.route(event) {
            Some(place) => self.act_at(p, place, who, wish, out),
            None => Filled::NotYet(Shown::NotDue(event)),
        }
    }

    /// Stores a value in the group at a place, and appends the events that it makes pending to those in `woken`.
    pub(crate) fn store_at(&mut self, place: u32, value: &Value)
        requires within { place < length self.old.kept.parts }
        requires room { length self.old.woken + clear_in self.old.kept ≤ self.old.room }
        ensures kept { self.new.kept ≡ store_at self.old.kept value.now (Some place) }
        ensures room { length self.new.woken + clear_in self.new.kept ≤ self.new.room }
        ensures adds { (p : Plan) (bundle : ℕ) → IsOfPlan p bundle self.old.kept → Adds self.old self.new }
    {
        self.groups[place as usize].publish_and_add(value, &mut self.woken);
    }

    /// Forgets the events that were told.
    pub(crate) fn forget(&mut self)
        ensures kept { self.new.kept ≡ self.old.kept }
        ensures woken { self.new.woken ≡ [] }
        ensures room { length self.new.woken + clear_in self.new.kept ≤ self.new.room }
    {
        self.woken.clear();
    }

    /// A write to an element.
    fn write(
        &mut self,
        p: &BusPlan,
        who: &Actor,
        elem: u32,
        value: &Value,
        out: &mut Entry,
    ) -> Filled
        ensures { IsStored (plan_of p.now) (part_of (plan_of p.now) self.old.kept elem) value.now (record { actor = who.now; deed = deed.Write elem value.now }) self.old self.new (acted result out.new) }
    {
        match self.place_of(p, elem) {
            Some(place) => {
                self.forget();
                self.store_at(place, value);
                *out = Entry {
                    actor: *who,
                    deed: Deed::Write {
                        elem,
                        value: *value,
                    },
                };
                Filled::Done
            }
            None => Filled::NotYet(Shown::Unmatched),
        }
    }

    /// A publication of an element.
    fn publish(
        &mut self,
        p: &BusPlan,
        who: &Actor,
        elem: u32,
        value: &Value,
        out: &mut Entry,
    ) -> Filled
        ensures { IsStored (plan_of p.now) (part_of (plan_of p.now) self.old.kept elem) value.now (record { actor = who.now; deed = deed.Publish elem value.now }) self.old self.new (acted result out.new) }
    {
        match self.place_of(p, elem) {
            Some(place) => {
                self.forget();
                self.store_at(place, value);
                *out = Entry {
                    actor: *who,
                    deed: Deed::Publish {
                        elem,
                        value: *value,
                    },
                };
                Filled::Done
            }
            None => Filled::NotYet(Shown::Unmatched),
        }
    }

    /// Whether a start by an event is pending.
    pub fn may_start(&self, event: u32) -> bool
        ensures { result ≡ may_start self.now.kept event }
    {
        match self.route(event) {
            Some(place) => self.groups[place as usize].may_start(event),
            None => false,
        }
    }

    /// The events that the last write or publication made pending, by number, of whatever group: each that it made pending, and no other.
    pub fn woken(&self) -> &[u32]
        ensures { result.now ≡ self.now.woken }
    {
        self.woken.as_slice()
    }
}
