//! The slots of a core.

ghost use Rattle.std.specs.Prelude.{◌≡◌};
ghost use Rattle.task_slots.specs.Slots.{events_of_slot};

use rte_value::ActKey;
use task_machine::Frame;

/// A slot of a core.
#[derive(Drop)]
pub enum Slot {
    /// A task (SWS_RTE: mapping of RTEEvents to tasks).
    Task(TaskSlot),
    /// The mode machine of this number (SWS_RTE: mode machine instance).
    Machine(u32),
}

/// A task with what runs in it.
#[derive(Drop)]
pub struct TaskSlot {
    /// Its events by position.
    pub events: Vec<u32>,
    /// What runs in it.
    pub activity: Activity,
    /// Where the activation stands that one of its events started.
    pub frame: Frame,
    /// Where the direct activation stands that this one called.
    pub inner: Frame,
}

/// What runs in a task.
#[derive(Clone, Copy)]
pub enum Activity {
    /// Nothing.
    Free,
    /// The activation of this key.
    Runs(ActKey),
    /// An activation has called a direct one, which starts next.
    Calls(Call),
    /// An activation is held back by the direct one that it called, which runs.
    Serves(Call),
}

/// An accepted ask at a point whose server has no queue: the server's runnable runs in the caller's task (SWS_RTE: Rte_Call of a
/// server runnable that is not mapped to a task).
#[derive(Clone, Copy)]
pub struct Call {
    /// The key of the activation that asked.
    pub caller: ActKey,
    /// The key of the direct activation.
    pub direct: ActKey,
    /// The event that starts it.
    pub event: u32,
}

impl Slot {
    /// The events of the task by position; a mode machine has none.
    pub fn events(&self) -> &[u32]
        ensures { result.now ≡ events_of_slot self.now }
    {
        match self {
            Slot::Task(task) => task.events.as_slice(),
            Slot::Machine(_) => &[],
        }
    }
}
