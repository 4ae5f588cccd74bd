//! The turns of a core at its bench.

ghost use Rattle.std.specs.Prelude.{◌≡◌, ◌<◌, [], false, length};
ghost use Rattle.bus_semantics.specs.declared.script.Mapping.{Mapping};
ghost use Rattle.bus_semantics.specs.Plan.{plan_of};
ghost use Rattle.task_generator.specs.Promise.{AsksAsPlanned};
ghost use Rattle.core_turn.specs.Cores.{looks_in};
ghost use Rattle.core_turn.specs.Ready.{IsReady};
ghost use Rattle.cross_core_table.specs.Logs.{plan_in};
ghost use Rattle.core_lanes.specs.Taking.{TakesTurns};
ghost use Rattle.core_lanes.specs.Rooms.{HasRoom};
ghost use Rattle.core_lanes.specs.Benching.{IsTaken, has_made};
ghost use Rattle.core_lanes.specs.Leaving.{IsEmptyTurn, IsTrueOf, MayLeave};

use crate::guesses::Guesses;
use crate::guided::Guided;
use crate::stay::Stay;
use bus_semantics::BusPlan;
use core_turn::{Core, Turned, turn};
use cross_core_table::SeatBench;
use rte_text::Gate;
use task_machine::TaskSet;

/// How many turns a core makes in a round at most: 1,024 with an entry, and before each of them 63 without one, or 64 at the end.
const MOST_TURNS: u32 = 1024 * 64;

/// A core makes a turn at its bench over all of its slots. If it made an entry, the trace is empty again, since the seat keeps the entry.
/// It made none if each look said that nothing may come, or if another seat held the object. It takes no memory.
pub fn turn_once(p: &BusPlan, t: &TaskSet, core: &mut Core, bench: &mut SeatBench) -> Turned
    requires plan { plan_in bench.old.round.opening ≡ plan_of p.now }
    requires bodies { AsksAsPlanned (plan_of p.now) t.now }
    requires ready { (m : Mapping) × IsReady (plan_of p.now) m t.now core.old }
    requires room { HasRoom core.old }
    requires bench_room { length bench.old.view.made < bench.old.round.opening.room }
    ensures round { bench.new.round ≡ bench.old.round }
    ensures number { bench.new.core ≡ bench.old.core }
    ensures ready { (m : Mapping) → IsReady (plan_of p.now) m t.now core.old → IsReady (plan_of p.now) m t.now core.new }
    ensures room { HasRoom core.new }
    ensures taken { IsTaken (plan_of p.now) t.now core.old core.new bench.old.view.made bench.new.view.made (has_made result) }
    ensures looked { has_made result ≡ false → IsEmptyTurn (looks_in (plan_of p.now) core.old.slots) bench.old.view bench.new.view }
{
    match turn(p, t, core, bench) {
        Turned::Stepped => {
            core.clear();
            Turned::Stepped
        }
        Turned::NothingNow => Turned::NothingNow,
        Turned::Contended(object) => Turned::Contended(object),
    }
}

/// A core makes turns at its bench until it leaves the round: after 1,024 entries, or 64 turns in a row without one, in one of which it
/// looked at all of its slots. It passes the gate before each turn. The answer is what it did.
pub(crate) fn make_turns<G: Gate>(
    p: &BusPlan,
    t: &TaskSet,
    core: &mut Guided,
    bench: &mut SeatBench,
    guesses: &Guesses,
    number: u32,
    gate: &G,
) -> Stay
    requires plan { plan_in bench.old.round.opening ≡ plan_of p.now }
    requires bodies { AsksAsPlanned (plan_of p.now) t.now }
    requires ready { (m : Mapping) × IsReady (plan_of p.now) m t.now core.old }
    requires room { HasRoom core.old }
    requires none { bench.old.view.made ≡ [] }
    requires limit { bench.old.round.opening.room ≡ 1024 }
    ensures round { bench.new.round ≡ bench.old.round }
    ensures number { bench.new.core ≡ bench.old.core }
    ensures room { HasRoom core.new }
    ensures turns { TakesTurns (plan_of p.now) t.now core.old bench.new.view.made core.new }
    ensures did { IsTrueOf (plan_of p.now) core.new.slots result bench.new.view }
    ensures left { MayLeave result }
{
    let mut stay = Stay::new();
    for turns in 0..MOST_TURNS {
        if !stay.goes_on() {
            return stay;
        }
        gate.pass(number);
        stay.turn(p, t, core, bench, guesses, number);
    }
    stay
}
