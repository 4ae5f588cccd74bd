//! The turn of a core that looks only at what is awake.

ghost use Rattle.std.specs.Prelude.{◌≡◌, ◌<◌, length, None};
ghost use Rattle.bus_semantics.specs.Common.{vec_capacity, plan_of};
ghost use Rattle.bus_semantics.specs.declared.script.Mapping.{Mapping};
ghost use Rattle.task_generator.specs.Promise.{AsksAsPlanned};
ghost use Rattle.core_turn.specs.Ready.{IsReady};
ghost use Rattle.core_turn.specs.Turning.{IsTurnInto};
ghost use Rattle.core_turn.specs.Awake.{Fits, HeldTold, HeldTurned, TurnCounted, looks_of_awake};

use crate::awake::Awake;
use crate::awake_looks::look_through;
use crate::cores::Core;
use crate::passed::Passed;
use crate::turning::Turned;
use bus_semantics::{BusPlan, Stamped};
use port_objects::Bench;
use task_machine::TaskSet;

/// Makes a turn of a core as `turn` does, and looks only at slots and events that are awake (OS: scheduling; SWS_RTE:
/// runnable activation). Its entry goes to the end of the list, which has room for it, and the core's trace stays. It takes
/// no memory.
///
/// If the bench tells its objects, what sleeps is held by them as they are before the turn, and so is what it puts to
/// sleep, except those that wait at the area which its entry touched. If it tells none, what sleeps is a guess: an entry
/// is one that `turn` may make, and `NothingNow` says only that nothing of what is awake may come. If the bench tells its
/// work, each look that it takes to see this answered NotYet. It makes what a turn makes that looks at all. What sleeps has to be
/// held by the objects: no event that sleeps may start; in a slot that sleeps nothing runs and none of its events may start, or
/// its machine's next phase may not come, or its activation waits for an answer that may not come, or at an area that it may not
/// enter, or not before another of the core that waits there and is awake. After an entry the caller wakes what it made due.
pub fn turn_of_awake<B: Bench>(
    p: &BusPlan,
    t: &TaskSet,
    c: &mut Core,
    a: &mut Awake,
    b: &mut B,
    made: &mut Vec<Stamped>,
) -> Turned
    requires space { length made.old.items < vec_capacity made.old }
    requires bench_room { 0 < (B.told b.old).room }
    requires plan { B.plan b.old ≡ plan_of p.now }
    requires bodies { AsksAsPlanned (plan_of p.now) t.now }
    requires ready { (m : Mapping) × IsReady (plan_of p.now) m t.now c.old }
    requires fits { Fits c.old.slots c.old.first a.old }
    requires held { HeldTold (plan_of p.now) t.now (B.told b.old).objects None c.old.slots a.old.first a.old }
    ensures home { B.home b.new ≡ B.home b.old }
    ensures plan { B.plan b.new ≡ B.plan b.old }
    ensures ready { (m : Mapping) → IsReady (plan_of p.now) m t.now c.old → IsReady (plan_of p.now) m t.now c.new }
    ensures capacity { vec_capacity made.new ≡ vec_capacity made.old }
    ensures turned { IsTurnInto (plan_of p.now) t.now c.old c.new
        (B.told b.old) (B.told b.new) made.old.items made.new.items result }
    ensures fits { Fits c.new.slots c.new.first a.new }
    ensures held { HeldTurned (plan_of p.now) t.now (B.told b.old).objects c.new a.new made.old.items made.new.items result }
    ensures counted { TurnCounted (looks_of_awake (plan_of p.now) c.old.slots a.old) (B.told b.old).work (B.told b.new).work result }
{
    let first = c.first;
    let count = c.slots.len();
    match look_through(p, t, &mut c.slots, a, first, count, b, made) {
        Passed::Made(at) => {
            c.note(at);
            a.first = at + 1;
            Turned::Stepped
        }
        Passed::Contended(object) => Turned::Contended(object),
        Passed::Nothing => match look_through(p, t, &mut c.slots, a, 0, first, b, made) {
            Passed::Made(at) => {
                c.note(at);
                a.first = at + 1;
                Turned::Stepped
            }
            Passed::Contended(object) => Turned::Contended(object),
            Passed::Nothing => Turned::NothingNow,
        },
    }
}
