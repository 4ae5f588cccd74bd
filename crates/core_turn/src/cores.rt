//! A core.

ghost use Rattle.std.specs.Prelude.{◌≡◌, ◌+◌, ◌^◌, ◌<◌, ◌≤◌, suc, [], length, IfOk, OnOk, min};
ghost use Rattle.bus_semantics.specs.Common.{vec_capacity, Plan, plan_of, IsSound};
ghost use Rattle.core_turn.specs.Cores.{HasSlots};
ghost use Rattle.core_turn.specs.Ready.{IsReady};
ghost use Rattle.core_turn.specs.Standing.{CoreStands};

use crate::Memory;
use crate::making::slots_of;
use bus_semantics::{BusPlan, Mapping, Stamped};
use std::alloc::Global;
use std::marker::Model;
use task_machine::TaskSet;
use task_slots::Slot;

/// A core with its tasks and mode machines, which makes one turn after the other, and the trace of what it made.
#[derive(Drop)]
pub struct Core {
    pub(crate) number: u32,
    pub(crate) slots: Vec<Slot>,
    pub(crate) first: usize,
    pub(crate) trace: Vec<Stamped>,
}

impl Model for Core {
    ghost use Rattle.std.specs.Prelude.{◌≡◌, ◌+◌, ◌-◌, ◌≤◌, length};
    ghost use Rattle.std.specs.Vec.{vec_capacity};
    ghost use Rattle.core_turn.specs.Cores.{CoreState};

    ghost Value = { CoreState };

    ghost view = { λ c. record { number = c.number; slots = c.slots.items; first = c.first; trace = c.trace.items; room = vec_capacity c.trace - length c.trace.items } };

    ghost invariant = { λ c. c.first ≤ length c.slots.items };
}

impl Core {
    /// The core of this number of the mapping, with its tasks in the order of the description and frames for these
    /// bodies, and core 0 with the plan's mode machines behind them (SWS_RTE: mapping of RTEEvents to tasks). No activation
    /// runs, and the trace is empty and has no room. The only error is that there is no memory.
    pub fn new(
        alloc: Global,
        p: &BusPlan,
        m: &Mapping,
        t: &TaskSet,
        number: u32,
    ) -> Result<Core, Memory>
        ensures number { IfOk result (λ c. c.number ≡ number) }
        ensures slots { IfOk result (λ c. length p.now.machines < 2 ^ 32 → HasSlots (plan_of p.now) m.now c) }
        ensures first { IfOk result (λ c. c.first ≡ 0) }
        ensures trace { IfOk result (λ c. c.trace ≡ []) }
        ensures ready { IfOk result (λ c. IsSound (plan_of p.now) m.now → IsReady (plan_of p.now) m.now t.now c) }
        ensures stands { IfOk result (λ c. (p : Plan) → CoreStands p t.now [] c) }
    {
        let slots = slots_of(alloc, p, m, t, number)?;
        Ok(Core {
            number,
            slots,
            first: 0,
            trace: Vec::new(alloc),
        })
    }

    /// Room in the trace for so many more entries. If there is no memory for it, the trace keeps its entries and its
    /// room.
    pub fn make_room(&mut self, _alloc: Global, n: u32) -> Result<(), Memory>
        ensures room { OnOk result (n ≤ self.new.room) }
        ensures kept { self.old.room ≤ self.new.room }
        ensures number { self.new.number ≡ self.old.number }
        ensures slots { self.new.slots ≡ self.old.slots }
        ensures first { self.new.first ≡ self.old.first }
        ensures trace { self.new.trace ≡ self.old.trace }
    {
        self.trace.reserve(n as usize)
    }

    /// For how many entries the trace has room. More than 32 bits count are told as the most that they count.
    pub fn room(&self) -> u32
        ensures { result ≡ min self.now.room u32.MAX }
    {
        (self.trace.capacity() - self.trace.len()).min(u32::MAX as usize) as u32
    }

    /// What it made since it was made or cleared, the oldest entry first.
    pub fn trace(&self) -> &[Stamped]
        ensures { result.now ≡ self.now.trace }
    {
        self.trace.as_slice()
    }

    /// The trace is empty again, with the room of what it held.
    pub fn clear(&mut self)
        ensures trace { self.new.trace ≡ [] }
        ensures room { self.new.room ≡ self.old.room + length self.old.trace }
        ensures number { self.new.number ≡ self.old.number }
        ensures slots { self.new.slots ≡ self.old.slots }
        ensures first { self.new.first ≡ self.old.first }
    {
        self.trace.clear();
    }
}

impl Core {
    /// The slot at this place has made an entry: the next turn begins behind it.
    pub(crate) fn note(&mut self, at: usize)
        requires { at < length self.old.slots }
        ensures first { self.new.first ≡ suc at }
        ensures trace { self.new.trace ≡ self.old.trace }
        ensures room { self.new.room ≡ self.old.room }
        ensures number { self.new.number ≡ self.old.number }
        ensures slots { self.new.slots ≡ self.old.slots }
    {
        let _slots = self.slots.len();
        self.first = at + 1;
    }
}
