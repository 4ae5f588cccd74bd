//! What of a core is awake, as a guess.

ghost use Rattle.std.specs.Prelude.{◌≡◌, ◌≤◌, ℕ, List, length, map};
ghost use Rattle.task_slots.specs.declared.slot.Slot.{Slot};
ghost use Rattle.task_slots.specs.Slots.{table_of};
ghost use Rattle.core_turn.specs.Awake.{Fits};

use crate::awake::Awake;
use crate::cores::Core;

/// If nobody tells what others change, what sleeps is a guess: if nothing of what is awake steps, a turn looks at all.
impl Awake {
    /// Wakes the event at a place of a slot of the core, if there is such a place.
    pub fn wake_at(&mut self, c: &Core, slot: usize, place: usize)
        requires { Fits c.now.slots c.now.first self.old }
        ensures { Fits c.now.slots c.now.first self.new }
    {
        if slot < c.slots.len() && place < c.slots[slot].events().len() {
            self.wake(slot, place);
        }
    }

    /// Wakes the slot before this place, if there is one.
    fn rouse_before(&mut self, place: usize)
        requires place { place ≤ length self.old.slots }
        requires waiting { length self.old.waiting ≡ length self.old.slots }
        ensures { (slots : List Slot) (first : ℕ) → Fits slots first self.old → Fits slots first self.new }
    {
        if place > 0 {
            self.rouse(place - 1);
        }
    }

    /// Goes on where the core's next turn begins, after a turn that looked at all, and wakes the slot that stepped. It was made for a core
    /// with the same tasks. It takes no memory.
    pub fn follow(&mut self, c: &Core)
        requires { (slots : List Slot) × (first : ℕ) × Fits slots first self.old × (map table_of c.now.slots ≡ map table_of slots) }
        ensures { Fits c.now.slots c.now.first self.new }
    {
        self.rouse_before(c.first);
        self.first = c.first;
    }
}
