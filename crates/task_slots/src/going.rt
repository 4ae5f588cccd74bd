//! The activation that goes on in a task.

ghost use Rattle.std.specs.Prelude.{◌≡◌, ◌<◌, length};
ghost use Rattle.bus_semantics.specs.Common.{vec_capacity, plan_of, IsSound};
ghost use Rattle.bus_semantics.specs.declared.script.Mapping.{Mapping};
ghost use Rattle.task_generator.specs.Promise.{AsksAsPlanned};
ghost use Rattle.task_slots.specs.declared.slot.Slot.TheVariants as slots;
ghost use Rattle.task_slots.specs.declared.slot.Activity.TheVariants.{Runs};
ghost use Rattle.task_slots.specs.Slots.{task_tries, task_looks};
ghost use Rattle.task_slots.specs.Ready.{IsReadyTask};
ghost use Rattle.task_slots.specs.Look.{IsWrittenLook, look_of};
ghost use Rattle.task_slots.specs.Looking.{Looked};
ghost use Rattle.task_slots.specs.Stepping.{Heard, SlotLooked};

use crate::asking::what_is_asked_may_be_tried;
use crate::direct::after_deed;
use crate::look::Looks;
use crate::slot::TaskSlot;
use crate::trying::try_wish;
use bus_semantics::{Actor, BusPlan, Deed, Stamped};
use port_objects::{Bench, free_deeds_are_legal, last_written};
use rte_value::ActKey;
use task_machine::{Next, TaskSet};

/// The activation of a task hears the bus's answer to its call.
fn hear(p: &BusPlan, t: &TaskSet, key: ActKey, slot: &mut TaskSlot, deed: &Deed)
    ensures { Heard (plan_of p.now) t.now key deed.now slot.old slot.new }
{
    slot.frame.feed(t, deed);
    slot.activity = after_deed(p, key, deed);
}

/// The activation of a task tries its next call.
pub(crate) fn go_on<B: Bench>(
    p: &BusPlan,
    t: &TaskSet,
    key: ActKey,
    slot: &mut TaskSlot,
    bench: &mut B,
    made: &mut Vec<Stamped>,
) -> Looks
    requires room { 0 < (B.told bench.old).room }
    requires space { length made.old.items < vec_capacity made.old }
    requires plan { B.plan bench.old ≡ plan_of p.now }
    requires bodies { AsksAsPlanned (plan_of p.now) t.now }
    requires sound { (m : Mapping) × IsSound (plan_of p.now) m }
    requires ready { IsReadyTask (plan_of p.now) t.now slot.old }
    requires runs { slot.old.activity ≡ Runs key }
    ensures home { B.home bench.new ≡ B.home bench.old }
    ensures plan { B.plan bench.new ≡ B.plan bench.old }
    ensures capacity { vec_capacity made.new ≡ vec_capacity made.old }
    ensures written { IsWrittenLook made.old.items made.new.items result }
    ensures looked { Looked (plan_of p.now) (task_tries (plan_of p.now) t.now slot.old) (task_looks (plan_of p.now) slot.old)
        (B.told bench.old) (B.told bench.new) (look_of result made.new.items) }
    ensures slot { SlotLooked (plan_of p.now) t.now (slots.Task slot.old) (slots.Task slot.new) (look_of result made.new.items) }
{
    what_is_asked_may_be_tried();
    free_deeds_are_legal();
    match slot.frame.next_call(t) {
        Next::Over => unreachable!(),
        Next::Call(ref wish) => match try_wish(p, &Actor::Act(key), wish, bench, made) {
            Looks::Made => {
                hear(p, t, key, slot, &last_written(made).entry.deed);
                Looks::Made
            }
            Looks::Nothing => Looks::Nothing,
            Looks::Contended(object) => Looks::Contended(object),
        },
    }
}
