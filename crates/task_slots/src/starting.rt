//! The start of a free task.

ghost use Rattle.std.specs.Prelude.{◌≡◌, ◌<◌, ◌∷◌, [], true, length, nat_lt, if◌then◌else◌, Some};
ghost use Rattle.bus_semantics.specs.Common.{list_all, vec_capacity, ActKey, plan_of, runnable_of_event, gathered, start_try, IsSound};
ghost use Rattle.bus_laws.specs.Common.{Act, Mapping};
ghost use Rattle.task_machine.specs.Frames.{IsMadeFor};
ghost use Rattle.task_slots.specs.declared.slot.Slot.TheVariants as slots;
ghost use Rattle.task_slots.specs.declared.slot.Activity.TheVariants.{Free};
ghost use Rattle.task_slots.specs.Slots.{waits, task_tries};
ghost use Rattle.task_slots.specs.Ready.{may_be_mapped, IsReadyTask};
ghost use Rattle.task_slots.specs.Stepping.{BegunBy, SlotLooked};
ghost use Rattle.task_slots.specs.Look.{IsWrittenLook, look_of};
ghost use Rattle.task_slots.specs.Looking.{StartBy, Looked};
ghost use Rattle.task_slots.specs.Waiting.{EventsHeld, row_looks};

use crate::asking::what_is_asked_may_be_tried;
use crate::hints::Hints;
use crate::look::Looks;
use crate::slot::{Activity, TaskSlot};
use crate::trying::try_wish;
use bus_semantics::{Actor, BusPlan, Entry, Stamped, Wish};
use port_objects::{Bench, last_entries_are_last, last_written, sound_plans_have_objects};
use rte_value::ActKey;
use task_machine::TaskSet;

/// The runnable of an event.
fn runnable_of(p: &BusPlan, event: u32) -> u32
    requires { nat_lt event (length p.now.events) ≡ true }
    ensures { runnable_of_event (plan_of p.now) event ≡ Some result }
{
    p.events.items()[event as usize].runnable
}

/// An event tries to start its runnable. One whose start touches no object costs no look.
pub(crate) fn try_event<B: Bench>(
    p: &BusPlan,
    event: u32,
    bench: &mut B,
    made: &mut Vec<Stamped>,
) -> Looks
    requires room { 0 < (B.told bench.old).room }
    requires space { length made.old.items < vec_capacity made.old }
    requires plan { B.plan bench.old ≡ plan_of p.now }
    requires sound { (m : Mapping) × IsSound (plan_of p.now) m }
    requires there { may_be_mapped (plan_of p.now) event ≡ true }
    ensures home { B.home bench.new ≡ B.home bench.old }
    ensures plan { B.plan bench.new ≡ B.plan bench.old }
    ensures capacity { vec_capacity made.new ≡ vec_capacity made.old }
    ensures written { IsWrittenLook made.old.items made.new.items result }
    ensures start { StartBy (plan_of p.now) (event ∷ []) (look_of result made.new.items) }
    ensures looked { Looked (plan_of p.now) (start_try (plan_of p.now) event) (if waits (plan_of p.now) event then 1 else 0)
        (B.told bench.old) (B.told bench.new) (look_of result made.new.items) }
{
    sound_plans_have_objects();
    let key = ActKey {
        runnable: runnable_of(p, event),
        point: None,
    };
    try_wish(p, &Actor::Act(key), &Wish::Start { event }, bench, made)
}

/// The first of the events that are awake that may start its runnable does so. Those before it may fall asleep.
fn start_first<B: Bench, H: Hints>(
    p: &BusPlan,
    events: &[u32],
    hints: &mut H,
    bench: &mut B,
    made: &mut Vec<Stamped>,
) -> Looks
    requires room { 0 < (B.told bench.old).room }
    requires space { length made.old.items < vec_capacity made.old }
    requires plan { B.plan bench.old ≡ plan_of p.now }
    requires sound { (m : Mapping) × IsSound (plan_of p.now) m }
    requires there { list_all (may_be_mapped (plan_of p.now)) events.now ≡ true }
    requires width { H.fits hints.old (length events.now) }
    requires held { EventsHeld (plan_of p.now) (B.told bench.old).objects events.now (H.awake hints.old) }
    ensures home { B.home bench.new ≡ B.home bench.old }
    ensures plan { B.plan bench.new ≡ B.plan bench.old }
    ensures capacity { vec_capacity made.new ≡ vec_capacity made.old }
    ensures written { IsWrittenLook made.old.items made.new.items result }
    ensures start { StartBy (plan_of p.now) events.now (look_of result made.new.items) }
    ensures looked { Looked (plan_of p.now) (gathered (start_try (plan_of p.now)) events.now) (row_looks (plan_of p.now) events.now (H.awake hints.old))
        (B.told bench.old) (B.told bench.new) (look_of result made.new.items) }
    ensures width { H.fits hints.new (length events.now) }
    ensures held { EventsHeld (plan_of p.now) (B.told bench.old).objects events.now (H.awake hints.new) }
{
    last_entries_are_last();
    let count = events.len();
    let mut from = 0;
    while let Some(at) = hints.next_awake(from, count) {
        match try_event(p, events[at], bench, made) {
            Looks::Made => return Looks::Made,
            Looks::Nothing => hints.rest(at),
            Looks::Contended(object) => return Looks::Contended(object),
        }
        from = at + 1;
    }
    Looks::Nothing
}

/// The activation that an entry starts begins in the task.
pub(crate) fn begin(t: &TaskSet, slot: &mut TaskSlot, entry: &Entry)
    requires { IsMadeFor t.now slot.old.frame }
    ensures { (k : ActKey) → entry.now.actor ≡ Act k → BegunBy t.now k entry.now.deed slot.old slot.new }
{
    if let Actor::Act(key) = entry.actor {
        slot.frame.begin(t, key, &entry.deed);
        slot.activity = Activity::Runs(key);
    }
}

/// A free task starts the first of its events that are awake, in order of position, that may.
pub(crate) fn start_due<B: Bench, H: Hints>(
    p: &BusPlan,
    t: &TaskSet,
    slot: &mut TaskSlot,
    hints: &mut H,
    bench: &mut B,
    made: &mut Vec<Stamped>,
) -> Looks
    requires room { 0 < (B.told bench.old).room }
    requires space { length made.old.items < vec_capacity made.old }
    requires plan { B.plan bench.old ≡ plan_of p.now }
    requires sound { (m : Mapping) × IsSound (plan_of p.now) m }
    requires ready { IsReadyTask (plan_of p.now) t.now slot.old }
    requires free { slot.old.activity ≡ Free }
    requires width { H.fits hints.old (length slot.old.events.items) }
    requires held { EventsHeld (plan_of p.now) (B.told bench.old).objects slot.old.events.items (H.awake hints.old) }
    ensures home { B.home bench.new ≡ B.home bench.old }
    ensures plan { B.plan bench.new ≡ B.plan bench.old }
    ensures capacity { vec_capacity made.new ≡ vec_capacity made.old }
    ensures written { IsWrittenLook made.old.items made.new.items result }
    ensures looked { Looked (plan_of p.now) (task_tries (plan_of p.now) t.now slot.old) (row_looks (plan_of p.now) slot.old.events.items (H.awake hints.old))
        (B.told bench.old) (B.told bench.new) (look_of result made.new.items) }
    ensures slot { SlotLooked (plan_of p.now) t.now (slots.Task slot.old) (slots.Task slot.new) (look_of result made.new.items) }
    ensures width { H.fits hints.new (length slot.old.events.items) }
    ensures held { EventsHeld (plan_of p.now) (B.told bench.old).objects slot.old.events.items (H.awake hints.new) }
{
    what_is_asked_may_be_tried();
    match start_first(p, slot.events.as_slice(), hints, bench, made) {
        Looks::Made => {
            begin(t, slot, &last_written(made).entry);
            Looks::Made
        }
        Looks::Nothing => Looks::Nothing,
        Looks::Contended(object) => Looks::Contended(object),
    }
}
