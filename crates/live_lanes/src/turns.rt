//! The turns of a core while stimuli arrive.

ghost use Rattle.std.specs.Prelude.{◌≡◌, ◌≤◌, ◌<◌, [], Bool, length};
ghost use Rattle.bus_semantics.specs.declared.script.Mapping.{Mapping};
ghost use Rattle.bus_semantics.specs.Plan.{plan_of};
ghost use Rattle.task_generator.specs.Promise.{AsksAsPlanned};
ghost use Rattle.core_turn.specs.Ready.{IsReady};
ghost use Rattle.cross_core_table.specs.Logs.{plan_in};
ghost use Rattle.core_lanes.specs.Benching.{IsTaken};
ghost use Rattle.core_lanes.specs.Taking.{TakesTurns};
ghost use Rattle.core_lanes.specs.Rooms.{HasRoom};

use crate::beside::MOST_ENTRIES;
use crate::post::Post;
use bus_semantics::BusPlan;
use core_lanes::turn_once;
use core_turn::{Core, Turned};
use cross_core_table::SeatBench;
use rte_text::Gate;
use std::sync::Wait;
use task_machine::TaskSet;

/// A core that has made so many entries makes a turn at its bench: an entry of which it tells the others, or none. The answer is how many
/// entries it has made then.
fn turn<R: Wait, G: Gate>(
    rt: &R,
    p: &BusPlan,
    t: &TaskSet,
    core: &mut Core,
    bench: &mut SeatBench,
    post: &mut Post<G>,
    made: u32,
) -> u32
    requires plan { plan_in bench.old.round.opening ≡ plan_of p.now }
    requires bodies { AsksAsPlanned (plan_of p.now) t.now }
    requires ready { (m : Mapping) × IsReady (plan_of p.now) m t.now core.old }
    requires room { HasRoom core.old }
    requires limit { bench.old.round.opening.room ≡ 65536 }
    requires made { length bench.old.view.made ≡ made }
    requires few { made < 65536 }
    ensures round { bench.new.round ≡ bench.old.round }
    ensures number { bench.new.core ≡ bench.old.core }
    ensures ready { (m : Mapping) → IsReady (plan_of p.now) m t.now core.old → IsReady (plan_of p.now) m t.now core.new }
    ensures room { HasRoom core.new }
    ensures taken { (was : Bool) × IsTaken (plan_of p.now) t.now core.old core.new bench.old.view.made bench.new.view.made was }
    ensures made { length bench.new.view.made ≡ result }
    ensures few { result ≤ 65536 }
{
    match turn_once(p, t, core, bench) {
        Turned::Stepped => {
            post.tell();
            made + 1
        }
        Turned::NothingNow => {
            post.rest(rt);
            made
        }
        Turned::Contended(_) => {
            post.give_way();
            made
        }
    }
}

/// A core makes turns at its bench until its seat has no more room, or the pump has ended. It passes its gate before each turn, and parks
/// after 64 turns in a row that found nothing which may come. A turn that found its object held by another seat ends such a row.
pub(crate) fn make_turns<R: Wait, G: Gate>(
    rt: &R,
    p: &BusPlan,
    t: &TaskSet,
    core: &mut Core,
    bench: &mut SeatBench,
    post: &mut Post<G>,
)
    requires plan { plan_in bench.old.round.opening ≡ plan_of p.now }
    requires bodies { AsksAsPlanned (plan_of p.now) t.now }
    requires ready { (m : Mapping) × IsReady (plan_of p.now) m t.now core.old }
    requires room { HasRoom core.old }
    requires none { bench.old.view.made ≡ [] }
    requires limit { bench.old.round.opening.room ≡ 65536 }
    ensures round { bench.new.round ≡ bench.old.round }
    ensures number { bench.new.core ≡ bench.old.core }
    ensures room { HasRoom core.new }
    ensures turns { TakesTurns (plan_of p.now) t.now core.old bench.new.view.made core.new }
{
    let mut made = 0u32;
    for _ in rt.forever() {
        if made == MOST_ENTRIES || post.has_ended() {
            return;
        }
        post.pass();
        made = turn(rt, p, t, core, bench, post, made);
    }
    unreachable!()
}
