//! Looks at the slots of a core.

ghost use Rattle.std.specs.Prelude.{◌≡◌, ◌<◌, ◌≤◌, ℕ, length, Some, slice_get};
ghost use Rattle.bus_semantics.specs.Common.{vec_capacity, plan_of, IsSound};
ghost use Rattle.bus_semantics.specs.declared.script.Mapping.{Mapping};
ghost use Rattle.task_generator.specs.Promise.{AsksAsPlanned};
ghost use Rattle.task_slots.specs.declared.slot.Slot.{Slot};
ghost use Rattle.task_slots.specs.Ready.{IsReadySlot};
ghost use Rattle.core_turn.specs.Cores.{slots_between, looks_in};
ghost use Rattle.core_turn.specs.Turning.{IsPass};

use crate::passed::Passed;
use bus_semantics::{BusPlan, Stamped};
use port_objects::{Bench, last_entries_are_last};
use task_machine::TaskSet;
use task_slots::{All, Looks, Slot, look_at};

/// Looks at the slots from one place up to another, until one of them steps. Its entry goes to the end of the list, which has room
/// for it.
pub(crate) fn look_through<B: Bench>(
    p: &BusPlan,
    t: &TaskSet,
    slots: &mut Vec<Slot>,
    from: usize,
    to: usize,
    bench: &mut B,
    made: &mut Vec<Stamped>,
) -> Passed
    requires room { 0 < (B.told bench.old).room }
    requires plan { B.plan bench.old ≡ plan_of p.now }
    requires bodies { AsksAsPlanned (plan_of p.now) t.now }
    requires sound { (m : Mapping) × IsSound (plan_of p.now) m }
    requires ready { (i : ℕ) (s : Slot) → slice_get slots.old.items i ≡ Some s → IsReadySlot (plan_of p.now) t.now s }
    requires order { from ≤ to }
    requires within { to ≤ length slots.old.items }
    requires space { length made.old.items < vec_capacity made.old }
    ensures home { B.home bench.new ≡ B.home bench.old }
    ensures plan { B.plan bench.new ≡ B.plan bench.old }
    ensures capacity { vec_capacity made.new ≡ vec_capacity made.old }
    ensures pass { IsPass (plan_of p.now) t.now (looks_in (plan_of p.now) (slots_between from to slots.old.items)) slots.old.items slots.new.items from to
        (B.told bench.old) (B.told bench.new) made.old.items made.new.items result }
{
    last_entries_are_last();
    let mut all = All;
    for at in from..to {
        match look_at(p, t, &mut slots[at], &mut all, bench, made) {
            Looks::Made => return Passed::Made(at),
            Looks::Nothing => {}
            Looks::Contended(object) => return Passed::Contended(object),
        }
    }
    Passed::Nothing
}
