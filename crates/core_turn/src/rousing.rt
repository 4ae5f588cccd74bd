//! All of a core is awake again.

ghost use Rattle.std.specs.Prelude.{◌≡◌, ◌<◌, ℕ, List, [], Bool, length, map, true, false, set, slice_get, slice_index_or, Option, Some};
ghost use Rattle.bus_semantics.specs.Plan.{Plan};
ghost use Rattle.port_objects.specs.declared.object.Object.{Object};
ghost use Rattle.task_machine.specs.declared.instr.TaskSet.{TaskSet};
ghost use Rattle.task_slots.specs.declared.slot.Slot.{Slot};
ghost use Rattle.task_slots.specs.Slots.{table_of};
ghost use Rattle.core_turn.specs.Awake.{AllAre, Fits, AreHeld, WakesSlot};

use crate::awake::Awake;
use crate::cores::Core;
use place_set::PlaceSet;

/// Puts each of so many places into a set of them.
fn fill(places: &mut PlaceSet, count: usize)
    requires { length places.old ≡ count }
    ensures count { length places.new ≡ count }
    ensures all { AllAre true places.new }
{
    for place in 0..count {
        places.insert(place);
    }
}

impl Awake {
    /// Wakes the slot at this place with all of its events, of which there are so many.
    fn wake_slot(&mut self, place: usize, events: usize)
        requires slots { place < length self.old.slots }
        requires rows { place < length self.old.events }
        requires waiting { place < length self.old.waiting }
        requires events { length (slice_index_or self.old.events place []) ≡ events }
        ensures { WakesSlot place self.old self.new }
    {
        self.slots.insert(place);
        self.waiting.remove(place);
        fill(&mut self.events[place], events);
    }

    /// Wakes all slots of a core and all their events, wherever the core's next turn begins. It was made for a core with the same
    /// tasks. It takes no memory.
    pub fn wake_all(&mut self, c: &Core)
        requires { (slots : List Slot) × (first : ℕ) × Fits slots first self.old × (map table_of c.now.slots ≡ map table_of slots) }
        ensures fits { Fits c.now.slots c.now.first self.new }
        ensures held { (p : Plan) (t : TaskSet) (objects : List Object) (touched : Option ℕ) (first : ℕ) → AreHeld p t objects touched c.now.slots first self.new }
    {
        for place in 0..c.slots.len() {
            self.wake_slot(place, c.slots[place].events().len());
        }
        self.first = c.first;
    }
}
