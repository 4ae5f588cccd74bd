//! The turn of a core.

ghost use Rattle.std.specs.Prelude.{◌≡◌, ◌<◌};
ghost use Rattle.bus_semantics.specs.declared.script.Mapping.{Mapping};
ghost use Rattle.bus_semantics.specs.Plan.{plan_of};
ghost use Rattle.task_generator.specs.Promise.{AsksAsPlanned};
ghost use Rattle.core_turn.specs.Ready.{IsReady};
ghost use Rattle.core_turn.specs.Turning.{IsTurn};

use crate::cores::Core;
use crate::looking::look_through;
use crate::passed::Passed;
use bus_semantics::BusPlan;
use port_objects::Bench;
use task_machine::TaskSet;

/// What a turn answers.
#[derive(Drop)]
pub enum Turned {
    /// One entry was made.
    Stepped,
    /// Nothing may come now.
    NothingNow,
    /// Another core holds this object; the order of slots stays.
    Contended(u32),
}

/// Makes a turn of a core over a bench: it looks at the core's tasks in cyclic order, beginning behind the one that
/// stepped last, and makes the first entry that may come (OS: scheduling; SWS_RTE: runnable activation). It takes no
/// memory.
///
/// A task with a running activation tries that activation's next call, and after its ask at a direct point the direct activation, up
/// to its end (SWS_RTE: Rte_Call); a free task tries its events in order of position. On core 0 the mode machines come behind the
/// tasks. The entry fits, and follows the actor rule after each history for which the core stands; the core then stands for the
/// history and it. A turn without an entry changes nothing of the core, nor of objects that are told. Over a bench that tells its
/// work: then the count of `NotYet` rose at least by the number of tasks in which something runs, of events with an object of free
/// tasks, and of mode machines (an event whose start touches no object costs no look); if the core met another one, the count of
/// that rose.
pub fn turn<B: Bench>(p: &BusPlan, t: &TaskSet, c: &mut Core, b: &mut B) -> Turned
    requires room { 0 < c.old.room }
    requires bench_room { 0 < (B.told b.old).room }
    requires plan { B.plan b.old ≡ plan_of p.now }
    requires bodies { AsksAsPlanned (plan_of p.now) t.now }
    requires ready { (m : Mapping) × IsReady (plan_of p.now) m t.now c.old }
    ensures home { B.home b.new ≡ B.home b.old }
    ensures plan { B.plan b.new ≡ B.plan b.old }
    ensures ready { (m : Mapping) → IsReady (plan_of p.now) m t.now c.old → IsReady (plan_of p.now) m t.now c.new }
    ensures turned { IsTurn (plan_of p.now) t.now c.old c.new
        (B.told b.old) (B.told b.new) result }
{
    let first = c.first;
    let count = c.slots.len();
    match look_through(p, t, &mut c.slots, first, count, b, &mut c.trace) {
        Passed::Made(at) => {
            c.note(at);
            Turned::Stepped
        }
        Passed::Contended(object) => Turned::Contended(object),
        Passed::Nothing => match look_through(p, t, &mut c.slots, 0, first, b, &mut c.trace) {
            Passed::Made(at) => {
                c.note(at);
                Turned::Stepped
            }
            Passed::Contended(object) => Turned::Contended(object),
            Passed::Nothing => Turned::NothingNow,
        },
    }
}
