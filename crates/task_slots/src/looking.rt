//! A look at a slot.

ghost use Rattle.std.specs.Prelude.{◌≡◌, ◌<◌, length};
ghost use Rattle.bus_semantics.specs.Common.{vec_capacity, plan_of, IsSound};
ghost use Rattle.bus_semantics.specs.declared.script.Mapping.{Mapping};
ghost use Rattle.task_generator.specs.Promise.{AsksAsPlanned};
ghost use Rattle.task_slots.specs.declared.slot.Slot.TheVariants as slots;
ghost use Rattle.task_slots.specs.Slots.{task_tries, slot_tries, events_of_slot};
ghost use Rattle.task_slots.specs.Ready.{IsReadyTask, IsReadySlot};
ghost use Rattle.task_slots.specs.Look.{IsWrittenLook, look_of};
ghost use Rattle.task_slots.specs.Looking.{Looked};
ghost use Rattle.task_slots.specs.Stepping.{SlotLooked};
ghost use Rattle.task_slots.specs.Waiting.{EventsHeld, looks_awake};

use crate::going::go_on;
use crate::hints::Hints;
use crate::inside::{go_on_inside, start_inside};
use crate::look::Looks;
use crate::phasing::move_on;
use crate::slot::{Activity, Slot, TaskSlot};
use crate::starting::start_due;
use bus_semantics::{BusPlan, Stamped};
use port_objects::Bench;
use task_machine::TaskSet;

/// A task tries what it may: the next call of its deepest activation, the start that is called, or its events that are awake.
fn look_at_task<B: Bench, H: Hints>(
    p: &BusPlan,
    t: &TaskSet,
    slot: &mut TaskSlot,
    hints: &mut H,
    bench: &mut B,
    made: &mut Vec<Stamped>,
) -> Looks
    requires room { 0 < (B.told bench.old).room }
    requires space { length made.old.items < vec_capacity made.old }
    requires plan { B.plan bench.old ≡ plan_of p.now }
    requires bodies { AsksAsPlanned (plan_of p.now) t.now }
    requires sound { (m : Mapping) × IsSound (plan_of p.now) m }
    requires ready { IsReadyTask (plan_of p.now) t.now slot.old }
    requires width { H.fits hints.old (length slot.old.events.items) }
    requires held { EventsHeld (plan_of p.now) (B.told bench.old).objects slot.old.events.items (H.awake hints.old) }
    ensures home { B.home bench.new ≡ B.home bench.old }
    ensures plan { B.plan bench.new ≡ B.plan bench.old }
    ensures capacity { vec_capacity made.new ≡ vec_capacity made.old }
    ensures written { IsWrittenLook made.old.items made.new.items result }
    ensures looked { Looked (plan_of p.now) (task_tries (plan_of p.now) t.now slot.old) (looks_awake (plan_of p.now) (slots.Task slot.old) (H.awake hints.old))
        (B.told bench.old) (B.told bench.new) (look_of result made.new.items) }
    ensures slot { SlotLooked (plan_of p.now) t.now (slots.Task slot.old) (slots.Task slot.new) (look_of result made.new.items) }
    ensures width { H.fits hints.new (length slot.old.events.items) }
    ensures held { EventsHeld (plan_of p.now) (B.told bench.old).objects slot.old.events.items (H.awake hints.new) }
{
    match slot.activity {
        Activity::Free => start_due(p, t, slot, hints, bench, made),
        Activity::Runs(key) => go_on(p, t, key, slot, bench, made),
        Activity::Calls(call) => start_inside(p, t, call, slot, bench, made),
        Activity::Serves(call) => go_on_inside(p, t, call, slot, bench, made),
    }
}

/// Tries what a slot may do over a bench, and makes the first entry that may come. It is written down once, at the end of `made`,
/// which has room for one more. It takes no memory.
///
/// In a task with an activation that activation's next call is tried; after its accepted ask at a direct point the start of the
/// direct activation, then that one's calls, up to its end (SWS_RTE: Rte_Call); a free task tries its events that are awake in order of
/// position (SWS_RTE: runnable activation); and a mode machine its next phase. One look is made for each that touches an object. If the
/// bench tells its objects, what sleeps is held by the objects before, and so is what it puts to sleep.
pub fn look_at<B: Bench, H: Hints>(
    p: &BusPlan,
    t: &TaskSet,
    slot: &mut Slot,
    hints: &mut H,
    bench: &mut B,
    made: &mut Vec<Stamped>,
) -> Looks
    requires room { 0 < (B.told bench.old).room }
    requires space { length made.old.items < vec_capacity made.old }
    requires plan { B.plan bench.old ≡ plan_of p.now }
    requires bodies { AsksAsPlanned (plan_of p.now) t.now }
    requires sound { (m : Mapping) × IsSound (plan_of p.now) m }
    requires ready { IsReadySlot (plan_of p.now) t.now slot.old }
    requires width { H.fits hints.old (length (events_of_slot slot.old)) }
    requires held { EventsHeld (plan_of p.now) (B.told bench.old).objects (events_of_slot slot.old) (H.awake hints.old) }
    ensures home { B.home bench.new ≡ B.home bench.old }
    ensures plan { B.plan bench.new ≡ B.plan bench.old }
    ensures capacity { vec_capacity made.new ≡ vec_capacity made.old }
    ensures written { IsWrittenLook made.old.items made.new.items result }
    ensures looked { Looked (plan_of p.now) (slot_tries (plan_of p.now) t.now slot.old) (looks_awake (plan_of p.now) slot.old (H.awake hints.old))
        (B.told bench.old) (B.told bench.new) (look_of result made.new.items) }
    ensures slot { SlotLooked (plan_of p.now) t.now slot.old slot.new (look_of result made.new.items) }
    ensures width { H.fits hints.new (length (events_of_slot slot.old)) }
    ensures held { EventsHeld (plan_of p.now) (B.told bench.old).objects (events_of_slot slot.old) (H.awake hints.new) }
{
    match slot {
        Slot::Task(task) => look_at_task(p, t, task, hints, bench, made),
        Slot::Machine(number) => move_on(p, *number, bench, made),
    }
}
