//! The slots of a core, as those above see them.

ghost use Rattle.std.specs.Prelude.{◌≡◌, ◌<◌, length, map, slice_get, Some};
ghost use Rattle.task_slots.specs.Slots.{events_of_slot};

use crate::cores::Core;

impl Core {
    /// How many slots it has: one for each task and mode machine.
    pub fn slots(&self) -> usize
        ensures { result ≡ length self.now.slots }
    {
        self.slots.len()
    }

    /// The events of the task at this place, by position (SWS_RTE: mapping of RTEEvents to tasks); a mode machine has none.
    pub fn events(&self, slot: usize) -> &[u32]
        requires { slot < length self.now.slots }
        ensures { slice_get (map events_of_slot self.now.slots) slot ≡ Some result.now }
    {
        self.slots[slot].events()
    }
}
