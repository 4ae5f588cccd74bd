//! Which slots and events of a core are awake.

ghost use Rattle.std.specs.Prelude.{◌≡◌, ◌<◌, ◌≤◌, ◌&&◌, ◌==◌, ℕ, List, [], Bool, length, true, false, slice_set, slice_index_or, set, Option, Some, None, IfOk};
ghost use Rattle.bus_semantics.specs.Plan.{Plan};
ghost use Rattle.port_objects.specs.declared.object.Object.{Object};
ghost use Rattle.place_set.specs.Places.{NoneBetween};
ghost use Rattle.task_machine.specs.declared.instr.TaskSet.{TaskSet};
ghost use Rattle.task_slots.specs.declared.slot.Slot.{Slot};
ghost use Rattle.core_turn.specs.Awake.{Fits, AreHeld, StartsHeld, IsOver, WaitersHeld, IsNextWaiter, FirstIs, FirstWakes, all_awake};

use crate::Memory;
use crate::cores::Core;
use place_set::PlaceSet;
use std::alloc::Global;
use std::marker::Model;
use task_slots::Slot;

/// Which slots of a core may step, and which events of each slot may start their runnables (SWS_RTE: runnable
/// activation). What is not awake is known to be held by the objects as they are, so that no turn looks at it. A set of
/// the core's slots, and for each of them a set of its events by position. It takes no memory once it is made.
///
/// Slots whose activation waits at an exclusive area sleep too, each with the object of that area. Of those that wait at
/// one area the first wakes when it is left; the others would find it entered again.
#[derive(Drop)]
pub struct Awake {
    pub(crate) slots: PlaceSet,
    pub(crate) events: Vec<PlaceSet>,
    /// The slots that sleep since their activation waits at an area.
    pub(crate) waiting: PlaceSet,
    /// For each slot the object of the area at which it waited last.
    pub(crate) areas: Vec<u32>,
    /// The slot at which the core's next turn begins.
    pub(crate) first: usize,
}

impl Model for Awake {
    ghost use Rattle.core_turn.specs.Awake.{AwakeState};

    ghost Value = { AwakeState };

    ghost view = { λ a. record { slots = a.slots; events = a.events.items; waiting = a.waiting; areas = a.areas.items; first = a.first } };
}

/// The events of these slots, each of which is awake.
fn all_events(alloc: Global, slots: &[Slot]) -> Result<Vec<PlaceSet>, Memory>
    ensures { IfOk result (λ rows. rows.items ≡ all_awake slots.now) }
{
    let mut events = Vec::new(alloc);
    for slot in slots {
        let all = PlaceSet::full(alloc, slot.events().len())?;
        events.push(all)?;
    }
    Ok(events)
}

/// None of so many slots.
fn none_of(alloc: Global, len: usize) -> Result<PlaceSet, Memory>
    ensures count { IfOk result (λ s. length s ≡ len) }
    ensures none { IfOk result (λ s. NoneBetween s 0 len) }
{
    let mut none = PlaceSet::full(alloc, len)?;
    for place in 0..len {
        none.remove(place);
    }
    Ok(none)
}

/// The first of these places, from one up to another, that waits at the area which is this object.
fn waiter_between(
    waiting: &mut PlaceSet,
    areas: &[u32],
    object: u32,
    from: usize,
    to: usize,
) -> Option<usize>
    requires { length waiting.old ≡ length areas.now }
    ensures same { waiting.new ≡ waiting.old }
    ensures next { IsNextWaiter waiting.old areas.now object from to result }
{
    let mut behind = from;
    while let Some(at) = waiting.next(behind) {
        if at >= to {
            return None;
        }
        if areas[at] == object {
            return Some(at);
        }
        behind = at + 1;
    }
    None
}

impl Awake {
    /// All slots of a core and all their events. The only error is that there is no memory.
    pub fn all(alloc: Global, c: &Core) -> Result<Awake, Memory>
        ensures fits { IfOk result (λ a. Fits c.now.slots c.now.first a) }
        ensures held { IfOk result (λ a. (p : Plan) (t : TaskSet) (objects : List Object) (touched : Option ℕ) (first : ℕ) → AreHeld p t objects touched c.now.slots first a) }
    {
        let count = c.slots.len();
        let slots = PlaceSet::full(alloc, count)?;
        let events = all_events(alloc, &c.slots)?;
        let waiting = none_of(alloc, count)?;
        let areas = vec![in alloc; 0; count]?;
        Ok(Awake {
            slots,
            events,
            waiting,
            areas,
            first: c.first,
        })
    }

    /// Whether the event at a place of the slot is awake, and the slot.
    pub fn is_awake(&self, slot: usize, place: usize) -> bool
        requires slot { slot < length self.now.slots }
        requires place { place < length (slice_index_or self.now.events slot []) }
        ensures { result ≡ (slice_index_or self.now.slots slot false && slice_index_or (slice_index_or self.now.events slot []) place false) }
    {
        self.slots.contains(slot) && self.events[slot].contains(place)
    }

    /// Wakes the event at a place of the slot, and the slot. The slot then waits at no area. Nothing else changes; what sleeps
    /// then is held if it was.
    pub fn wake(&mut self, slot: usize, place: usize)
        requires slot { slot < length self.old.slots }
        requires place { place < length (slice_index_or self.old.events slot []) }
        requires waiting { length self.old.waiting ≡ length self.old.slots }
        ensures slots { self.new.slots ≡ slice_set self.old.slots slot true }
        ensures events { self.new.events ≡ slice_set self.old.events slot (slice_set (slice_index_or self.old.events slot []) place true) }
        ensures waiting { self.new.waiting ≡ slice_set self.old.waiting slot false }
        ensures areas { self.new.areas ≡ self.old.areas }
        ensures first { self.new.first ≡ self.old.first }
        ensures fits { (slots : List Slot) (first : ℕ) → Fits slots first self.old → Fits slots first self.new }
        ensures starts { (p : Plan) (t : TaskSet) (objects : List Object) (slots : List Slot) → StartsHeld p t objects slots self.old → StartsHeld p t objects slots self.new }
        ensures waiters { (p : Plan) (t : TaskSet) (objects : List Object) (touched : Option ℕ) (slots : List Slot) (first : ℕ) →
            WaitersHeld p t objects touched slots first self.old → WaitersHeld p t objects touched slots first self.new }
    {
        self.slots.insert(slot);
        self.events[slot].insert(place);
        self.waiting.remove(slot);
    }

    /// Puts the event at a place of the slot to sleep, and leaves the slot as it is. What sleeps then is held if it was, and if no start
    /// by this event may come.
    pub fn rest(&mut self, slot: usize, place: usize)
        requires place { place < length (slice_index_or self.old.events slot []) }
        ensures first { self.new.first ≡ self.old.first }
        ensures fits { (slots : List Slot) (first : ℕ) → Fits slots first self.old → Fits slots first self.new }
        ensures starts { (p : Plan) (t : TaskSet) (objects : List Object) (slots : List Slot) → IsOver p objects slots slot place
            → StartsHeld p t objects slots self.old → StartsHeld p t objects slots self.new }
        ensures waiters { (p : Plan) (t : TaskSet) (objects : List Object) (touched : Option ℕ) (slots : List Slot) (first : ℕ) →
            WaitersHeld p t objects touched slots first self.old → WaitersHeld p t objects touched slots first self.new }
    {
        self.events[slot].remove(place);
    }

    /// How many slots the core has.
    pub fn count(&self) -> usize
        requires areas { length self.now.areas ≡ length self.now.slots }
        ensures { result ≡ length self.now.slots }
    {
        self.areas.len()
    }

    /// Wakes a slot, and none of its events. It then waits at no area; what sleeps is held if it was.
    pub fn rouse(&mut self, slot: usize)
        requires slot { slot < length self.old.slots }
        requires waiting { length self.old.waiting ≡ length self.old.slots }
        ensures slots { self.new.slots ≡ slice_set self.old.slots slot true }
        ensures events { self.new.events ≡ self.old.events }
        ensures waiting { self.new.waiting ≡ slice_set self.old.waiting slot false }
        ensures areas { self.new.areas ≡ self.old.areas }
        ensures first { self.new.first ≡ self.old.first }
        ensures fits { (slots : List Slot) (first : ℕ) → Fits slots first self.old → Fits slots first self.new }
        ensures starts { (p : Plan) (t : TaskSet) (objects : List Object) (slots : List Slot) → StartsHeld p t objects slots self.old → StartsHeld p t objects slots self.new }
        ensures waiters { (p : Plan) (t : TaskSet) (objects : List Object) (touched : Option ℕ) (slots : List Slot) (first : ℕ) →
            WaitersHeld p t objects touched slots first self.old → WaitersHeld p t objects touched slots first self.new }
    {
        self.slots.insert(slot);
        self.waiting.remove(slot);
    }

    /// Wakes the first slot that waits at the area which is this object, in the order in which the core's next turn looks at
    /// slots (SWS_RTE: Rte_Exit). So nobody who waits there is tried before it, and if it may not enter, nobody else may.
    pub fn wake_first(&mut self, object: u32)
        requires waiting { length self.old.waiting ≡ length self.old.slots }
        requires areas { length self.old.areas ≡ length self.old.slots }
        ensures woken { (which : Option ℕ) × FirstWakes object self.old self.new which }
        ensures fits { (slots : List Slot) (first : ℕ) → Fits slots first self.old → Fits slots first self.new }
        ensures starts { (p : Plan) (t : TaskSet) (objects : List Object) (slots : List Slot) → StartsHeld p t objects slots self.old → StartsHeld p t objects slots self.new }
        ensures waiters { (p : Plan) (t : TaskSet) (objects : List Object) (slots : List Slot) (left : Object) →
            WaitersHeld p t objects (Some object) slots self.old.first self.old → WaitersHeld p t (set objects object left) None slots self.new.first self.new }
    {
        match self.first_waiter(object) {
            Some(place) => {
                self.slots.insert(place);
                self.waiting.remove(place);
            }
            None => {}
        }
    }

    /// The first slot that waits at the area which is this object, in the order in which the core's next turn looks at slots.
    fn first_waiter(&mut self, object: u32) -> Option<usize>
        requires { length self.old.areas ≡ length self.old.waiting }
        ensures same { self.new ≡ self.old }
        ensures first { FirstIs self.old object result }
    {
        let count = self.areas.len();
        match waiter_between(&mut self.waiting, &self.areas, object, self.first, count) {
            Some(place) => Some(place),
            None => waiter_between(&mut self.waiting, &self.areas, object, 0, self.first),
        }
    }
}
