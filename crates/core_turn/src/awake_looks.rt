//! Looks at the slots and events of a core that are awake.

ghost use Rattle.std.specs.Prelude.{◌≡◌, ◌<◌, ◌≤◌, ◌-◌, ℕ, length, Some, None, slice_get};
ghost use Rattle.bus_semantics.specs.Common.{vec_capacity, plan_of, IsSound};
ghost use Rattle.bus_semantics.specs.declared.script.Mapping.{Mapping};
ghost use Rattle.task_generator.specs.Promise.{AsksAsPlanned};
ghost use Rattle.task_slots.specs.declared.slot.Slot.{Slot};
ghost use Rattle.task_slots.specs.Ready.{IsReadySlot};
ghost use Rattle.task_slots.specs.Waiting.{is_free, sum_below};
ghost use Rattle.core_turn.specs.Turning.{IsPass};
ghost use Rattle.core_turn.specs.Awake.{Fits, HeldTold, HeldPassed, IsSettled, PassCounted, SameBefore, looks_at_place};

use crate::awake::Awake;
use crate::passed::Passed;
use bus_semantics::{BusPlan, Stamped};
use port_objects::{Bench, areas_are_closed_alike, last_entries_are_last};
use task_machine::TaskSet;
use task_slots::{Looks, Slot, area_tried, is_free, look_at, point_tried};

/// A slot of which nothing may come falls asleep, if nothing runs in it (a free task, a machine between two phases) or its
/// activation waits at an area or for an answer. What other activations wait for wakes no slot.
fn settle(p: &BusPlan, t: &TaskSet, slot: &Slot, place: usize, a: &mut Awake)
    requires bodies { AsksAsPlanned (plan_of p.now) t.now }
    requires sound { (m : Mapping) × IsSound (plan_of p.now) m }
    requires ready { IsReadySlot (plan_of p.now) t.now slot.now }
    requires slots { place < length a.old.slots }
    requires waiting { place < length a.old.waiting }
    requires areas { place < length a.old.areas }
    ensures { IsSettled (plan_of p.now) t.now slot.now (is_free slot.now) place a.old a.new }
{
    if is_free(slot) {
        a.slots.remove(place);
    } else if let Some(object) = area_tried(p, t, slot) {
        a.slots.remove(place);
        a.waiting.insert(place);
        a.areas[place] = object;
    } else if point_tried(p, t, slot).is_some() {
        a.slots.remove(place);
    }
}

/// Looks at the slots that are awake from one place up to another, as `look_through` does. It stays a function of its own, since its
/// room costs a look through no slots more than the look.
#[inline(never)]
fn look_among<B: Bench>(
    p: &BusPlan,
    t: &TaskSet,
    slots: &mut Vec<Slot>,
    a: &mut Awake,
    from: usize,
    to: usize,
    bench: &mut B,
    made: &mut Vec<Stamped>,
) -> Passed
    requires room { 0 < (B.told bench.old).room }
    requires plan { B.plan bench.old ≡ plan_of p.now }
    requires bodies { AsksAsPlanned (plan_of p.now) t.now }
    requires sound { (m : Mapping) × IsSound (plan_of p.now) m }
    requires ready { (i : ℕ) (s : Slot) → slice_get slots.old.items i ≡ Some s → IsReadySlot (plan_of p.now) t.now s }
    requires order { from ≤ to }
    requires within { to ≤ length slots.old.items }
    requires space { length made.old.items < vec_capacity made.old }
    requires fits { Fits slots.old.items a.old.first a.old }
    requires held { HeldTold (plan_of p.now) t.now (B.told bench.old).objects None slots.old.items from a.old }
    ensures home { B.home bench.new ≡ B.home bench.old }
    ensures plan { B.plan bench.new ≡ B.plan bench.old }
    ensures capacity { vec_capacity made.new ≡ vec_capacity made.old }
    ensures pass { IsPass (plan_of p.now) t.now 0 slots.old.items slots.new.items from to
        (B.told bench.old) (B.told bench.new) made.old.items made.new.items result }
    ensures fits { Fits slots.new.items a.old.first a.new }
    ensures held { HeldPassed (plan_of p.now) t.now (B.told bench.old).objects slots.new.items to a.new made.old.items made.new.items result }
    ensures counted { PassCounted (sum_below (looks_at_place (plan_of p.now) slots.old.items a.old) to - sum_below (looks_at_place (plan_of p.now) slots.old.items a.old) from)
        (B.told bench.old).work (B.told bench.new).work result }
    ensures before { SameBefore from a.old a.new }
{
    areas_are_closed_alike();
    last_entries_are_last();
    let mut behind = from;
    while let Some(at) = a.slots.next(behind) {
        if at >= to {
            return Passed::Nothing;
        }
        match look_at(p, t, &mut slots[at], &mut a.events[at], bench, made) {
            Looks::Made => return Passed::Made(at),
            Looks::Nothing => settle(p, t, &slots[at], at, a),
            Looks::Contended(object) => return Passed::Contended(object),
        }
        behind = at + 1;
    }
    Passed::Nothing
}

/// Looks at the slots that are awake from one place up to another, until one of them steps. Its entry goes to the end of the list,
/// which has room for it. The order of slots, by which those that wait at areas may sleep, begins at the first of these places
/// before it, and behind the last one after it.
pub(crate) fn look_through<B: Bench>(
    p: &BusPlan,
    t: &TaskSet,
    slots: &mut Vec<Slot>,
    a: &mut Awake,
    from: usize,
    to: usize,
    bench: &mut B,
    made: &mut Vec<Stamped>,
) -> Passed
    requires room { 0 < (B.told bench.old).room }
    requires plan { B.plan bench.old ≡ plan_of p.now }
    requires bodies { AsksAsPlanned (plan_of p.now) t.now }
    requires sound { (m : Mapping) × IsSound (plan_of p.now) m }
    requires ready { (i : ℕ) (s : Slot) → slice_get slots.old.items i ≡ Some s → IsReadySlot (plan_of p.now) t.now s }
    requires order { from ≤ to }
    requires within { to ≤ length slots.old.items }
    requires space { length made.old.items < vec_capacity made.old }
    requires fits { Fits slots.old.items a.old.first a.old }
    requires held { HeldTold (plan_of p.now) t.now (B.told bench.old).objects None slots.old.items from a.old }
    ensures home { B.home bench.new ≡ B.home bench.old }
    ensures plan { B.plan bench.new ≡ B.plan bench.old }
    ensures capacity { vec_capacity made.new ≡ vec_capacity made.old }
    ensures pass { IsPass (plan_of p.now) t.now 0 slots.old.items slots.new.items from to
        (B.told bench.old) (B.told bench.new) made.old.items made.new.items result }
    ensures fits { Fits slots.new.items a.old.first a.new }
    ensures held { HeldPassed (plan_of p.now) t.now (B.told bench.old).objects slots.new.items to a.new made.old.items made.new.items result }
    ensures counted { PassCounted (sum_below (looks_at_place (plan_of p.now) slots.old.items a.old) to - sum_below (looks_at_place (plan_of p.now) slots.old.items a.old) from)
        (B.told bench.old).work (B.told bench.new).work result }
    ensures before { SameBefore from a.old a.new }
{
    // Each second pass of a core with one slot.
    if from == to {
        return Passed::Nothing;
    }
    look_among(p, t, slots, a, from, to, bench, made)
}
