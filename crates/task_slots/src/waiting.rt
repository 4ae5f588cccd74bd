//! Which slots may sleep.

ghost use Rattle.std.specs.Prelude.{◌≡◌, IfSome};
ghost use Rattle.bus_semantics.specs.declared.script.Mapping.{Mapping};
ghost use Rattle.bus_semantics.specs.Common.{plan_of, IsSound};
ghost use Rattle.task_generator.specs.Promise.{AsksAsPlanned};
ghost use Rattle.task_slots.specs.Ready.{IsBegun, IsReadySlot};
ghost use Rattle.task_slots.specs.Waiting.{AsksAt, AsksToHear, HearsAt, WaitsAt, is_free};

use crate::asking::what_is_asked_may_be_tried;
use crate::slot::{Activity, Slot};
use bus_semantics::{Actor, BusPlan, Wish};
use port_objects::object_of;
use rte_value::ActKey;
use task_machine::{Frame, Next, TaskSet};

/// Whether nothing runs in a slot: it is that of a free task, or a mode machine's, which keeps nothing between its phases.
pub fn is_free(slot: &Slot) -> bool
    ensures { result ≡ is_free slot.now }
{
    match slot {
        Slot::Task(task) => matches!(task.activity, Activity::Free),
        Slot::Machine(_) => true,
    }
}

/// The object of the area that an activation asks to enter, if that is what it asks.
fn area_asked(p: &BusPlan, t: &TaskSet, key: ActKey, frame: &Frame) -> Option<u32>
    requires bodies { AsksAsPlanned (plan_of p.now) t.now }
    requires sound { (m : Mapping) × IsSound (plan_of p.now) m }
    requires begun { IsBegun (plan_of p.now) t.now frame.now key }
    ensures { IfSome result (AsksAt (plan_of p.now) t.now key frame.now) }
{
    what_is_asked_may_be_tried();
    match frame.next_call(t) {
        Next::Call(Wish::Enter { area }) => object_of(p, &Actor::Act(key), &Wish::Enter { area }),
        _ => None,
    }
}

/// The object of the exclusive area that an activation of a slot tries to enter, if that is what the slot tries.
pub fn area_tried(p: &BusPlan, t: &TaskSet, slot: &Slot) -> Option<u32>
    requires bodies { AsksAsPlanned (plan_of p.now) t.now }
    requires sound { (m : Mapping) × IsSound (plan_of p.now) m }
    requires ready { IsReadySlot (plan_of p.now) t.now slot.now }
    ensures { IfSome result (WaitsAt (plan_of p.now) t.now slot.now) }
{
    match slot {
        Slot::Task(task) => match task.activity {
            Activity::Runs(key) => area_asked(p, t, key, &task.frame),
            Activity::Serves(call) => area_asked(p, t, call.direct, &task.inner),
            _ => None,
        },
        Slot::Machine(_) => None,
    }
}

/// The point at which an activation asks for an answer, if that is what it asks.
fn point_asked(p: &BusPlan, t: &TaskSet, key: ActKey, frame: &Frame) -> Option<u32>
    requires bodies { AsksAsPlanned (plan_of p.now) t.now }
    requires sound { (m : Mapping) × IsSound (plan_of p.now) m }
    requires begun { IsBegun (plan_of p.now) t.now frame.now key }
    ensures { IfSome result (AsksToHear (plan_of p.now) t.now key frame.now) }
{
    what_is_asked_may_be_tried();
    match frame.next_call(t) {
        Next::Call(Wish::Answer { point }) => {
            match object_of(p, &Actor::Act(key), &Wish::Answer { point }) {
                Some(_) => Some(point),
                None => None,
            }
        }
        _ => None,
    }
}

/// The point at which an activation of a slot tries to hear an answer, if that is what the slot tries. A direct activation makes no
/// call.
pub fn point_tried(p: &BusPlan, t: &TaskSet, slot: &Slot) -> Option<u32>
    requires bodies { AsksAsPlanned (plan_of p.now) t.now }
    requires sound { (m : Mapping) × IsSound (plan_of p.now) m }
    requires ready { IsReadySlot (plan_of p.now) t.now slot.now }
    ensures { IfSome result (HearsAt (plan_of p.now) t.now slot.now) }
{
    match slot {
        Slot::Task(task) => match task.activity {
            Activity::Runs(key) => point_asked(p, t, key, &task.frame),
            _ => None,
        },
        Slot::Machine(_) => None,
    }
}
