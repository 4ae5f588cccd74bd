//! The direct activation that an activation of a task has called.

ghost use Rattle.std.specs.Prelude.{◌≡◌, ◌<◌, length};
ghost use Rattle.bus_semantics.specs.Common.{vec_capacity, plan_of, IsSound};
ghost use Rattle.bus_semantics.specs.declared.script.Mapping.{Mapping};
ghost use Rattle.task_generator.specs.Promise.{AsksAsPlanned};
ghost use Rattle.task_machine.specs.Frames.{IsMadeFor};
ghost use Rattle.task_slots.specs.declared.slot.Slot.TheVariants as slots;
ghost use Rattle.task_slots.specs.declared.slot.Activity.TheVariants.{Calls, Serves};
ghost use Rattle.task_slots.specs.Slots.{task_tries, task_looks};
ghost use Rattle.task_slots.specs.Ready.{IsReadyTask};
ghost use Rattle.task_slots.specs.Look.{IsWrittenLook, look_of};
ghost use Rattle.task_slots.specs.Looking.{Looked};
ghost use Rattle.task_slots.specs.Stepping.{ServedBy, HeardInside, SlotLooked};

use crate::asking::what_is_asked_may_be_tried;
use crate::direct::after_inside;
use crate::look::Looks;
use crate::slot::{Activity, Call, TaskSlot};
use crate::trying::try_wish;
use bus_semantics::{Actor, BusPlan, Deed, Stamped, Wish};
use port_objects::{Bench, free_deeds_are_legal, last_written, sound_plans_have_objects};
use task_machine::{Next, TaskSet};

/// The direct activation that is called begins with its start.
fn serve(t: &TaskSet, call: Call, slot: &mut TaskSlot, start: &Deed)
    requires { IsMadeFor t.now slot.old.inner }
    ensures { ServedBy t.now call start.now slot.old slot.new }
{
    slot.inner.begin(t, call.direct, start);
    slot.activity = Activity::Serves(call);
}

/// The direct activation hears the bus's answer to its call.
fn hear_inside(t: &TaskSet, call: Call, slot: &mut TaskSlot, deed: &Deed)
    ensures { HeardInside t.now call deed.now slot.old slot.new }
{
    slot.inner.feed(t, deed);
    slot.activity = after_inside(call, deed);
}

/// The direct activation that is called tries to start (SWS_RTE: Rte_Call).
pub(crate) fn start_inside<B: Bench>(
    p: &BusPlan,
    t: &TaskSet,
    call: Call,
    slot: &mut TaskSlot,
    bench: &mut B,
    made: &mut Vec<Stamped>,
) -> Looks
    requires room { 0 < (B.told bench.old).room }
    requires space { length made.old.items < vec_capacity made.old }
    requires plan { B.plan bench.old ≡ plan_of p.now }
    requires sound { (m : Mapping) × IsSound (plan_of p.now) m }
    requires ready { IsReadyTask (plan_of p.now) t.now slot.old }
    requires calls { slot.old.activity ≡ Calls call }
    ensures home { B.home bench.new ≡ B.home bench.old }
    ensures plan { B.plan bench.new ≡ B.plan bench.old }
    ensures capacity { vec_capacity made.new ≡ vec_capacity made.old }
    ensures written { IsWrittenLook made.old.items made.new.items result }
    ensures looked { Looked (plan_of p.now) (task_tries (plan_of p.now) t.now slot.old) (task_looks (plan_of p.now) slot.old)
        (B.told bench.old) (B.told bench.new) (look_of result made.new.items) }
    ensures slot { SlotLooked (plan_of p.now) t.now (slots.Task slot.old) (slots.Task slot.new) (look_of result made.new.items) }
{
    what_is_asked_may_be_tried();
    sound_plans_have_objects();
    let who = Actor::Act(call.direct);
    match try_wish(p, &who, &Wish::Start { event: call.event }, bench, made) {
        Looks::Made => {
            serve(t, call, slot, &last_written(made).entry.deed);
            Looks::Made
        }
        Looks::Nothing => Looks::Nothing,
        Looks::Contended(object) => Looks::Contended(object),
    }
}

/// The direct activation tries its next call, while its caller is held back.
pub(crate) fn go_on_inside<B: Bench>(
    p: &BusPlan,
    t: &TaskSet,
    call: Call,
    slot: &mut TaskSlot,
    bench: &mut B,
    made: &mut Vec<Stamped>,
) -> Looks
    requires room { 0 < (B.told bench.old).room }
    requires space { length made.old.items < vec_capacity made.old }
    requires plan { B.plan bench.old ≡ plan_of p.now }
    requires bodies { AsksAsPlanned (plan_of p.now) t.now }
    requires sound { (m : Mapping) × IsSound (plan_of p.now) m }
    requires ready { IsReadyTask (plan_of p.now) t.now slot.old }
    requires serves { slot.old.activity ≡ Serves call }
    ensures home { B.home bench.new ≡ B.home bench.old }
    ensures plan { B.plan bench.new ≡ B.plan bench.old }
    ensures capacity { vec_capacity made.new ≡ vec_capacity made.old }
    ensures written { IsWrittenLook made.old.items made.new.items result }
    ensures looked { Looked (plan_of p.now) (task_tries (plan_of p.now) t.now slot.old) (task_looks (plan_of p.now) slot.old)
        (B.told bench.old) (B.told bench.new) (look_of result made.new.items) }
    ensures slot { SlotLooked (plan_of p.now) t.now (slots.Task slot.old) (slots.Task slot.new) (look_of result made.new.items) }
{
    what_is_asked_may_be_tried();
    free_deeds_are_legal();
    match slot.inner.next_call(t) {
        Next::Over => unreachable!(),
        Next::Call(ref wish) => match try_wish(p, &Actor::Act(call.direct), wish, bench, made) {
            Looks::Made => {
                hear_inside(t, call, slot, &last_written(made).entry.deed);
                Looks::Made
            }
            Looks::Nothing => Looks::Nothing,
            Looks::Contended(object) => Looks::Contended(object),
        },
    }
}
