//! The slot of a task.

ghost use Rattle.std.specs.Prelude.{IfOk};
ghost use Rattle.task_slots.specs.Made.{IsNew};

use crate::Memory;
use crate::slot::{Activity, TaskSlot};
use bus_semantics::Task;
use std::alloc::Global;
use task_machine::{Frame, TaskSet};

impl TaskSlot {
    /// A slot of a task, in which nothing runs, with frames for these bodies. The only error is that there is no memory.
    pub fn new(alloc: Global, t: &TaskSet, task: &Task) -> Result<TaskSlot, Memory>
        ensures { IfOk result (λ s. IsNew t.now task.now.events s) }
    {
        let events = Vec::from_slice(alloc, task.events.items())?;
        let frame = Frame::new(alloc, t)?;
        let inner = Frame::new(alloc, t)?;
        Ok(TaskSlot {
            events,
            activity: Activity::Free,
            frame,
            inner,
        })
    }
}
