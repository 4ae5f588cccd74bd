//! Lanes: a core with its seat in a round.

ghost use Rattle.std.specs.Prelude.{◌≡◌, ◌<◌, ◌≤◌, [], length};
ghost use Rattle.bus_semantics.specs.Common.{vec_capacity, plan_of};
ghost use Rattle.task_generator.specs.Promise.{AsksAsPlanned};
ghost use Rattle.cross_core_table.specs.Logs.{plan_in};
ghost use Rattle.core_lanes.specs.Lanes.{IsSeated, AreSeated, HasGone, HaveGone};

use crate::guesses::Guesses;
use crate::guided::Guided;
use crate::stay::Stay;
use crate::threads::is_shared;
use crate::turns::make_turns;
use bus_semantics::BusPlan;
use cross_core_table::{CoreSeat, Round};
use rte_text::Gate;
use std::thread::Threads;
use task_machine::TaskSet;
use thread_starts::start_each;

/// A core with its seat in a round. It is worked on by one thread.
#[derive(Drop)]
pub(crate) struct Lane {
    pub core: Guided,
    /// None only while the core is at its bench.
    pub seat: Option<CoreSeat>,
    /// What the core did in the round.
    pub stay: Stay,
}

impl Lane {
    /// The core sits down at its bench, makes its turns, and leaves with its seat.
    fn go<G: Gate>(
        &mut self,
        p: &BusPlan,
        t: &TaskSet,
        round: &Round,
        guesses: &Guesses,
        number: usize,
        gate: &G,
    )
        requires plan { plan_in round.now.opening ≡ plan_of p.now }
        requires limit { round.now.opening.room ≡ 1024 }
        requires bodies { AsksAsPlanned (plan_of p.now) t.now }
        requires number { number < 8 }
        requires seated { IsSeated (plan_of p.now) t.now round.now number self.old }
        ensures { HasGone (plan_of p.now) t.now round.now number self.old self.new }
    {
        let Some(seat) = self.seat.take() else {
            return;
        };
        let mut bench = round.bench(p, seat);
        let stay = make_turns(
            p,
            t,
            &mut self.core,
            &mut bench,
            guesses,
            number as u32,
            gate,
        );
        self.stay = stay;
        self.core.retire(guesses, number as u32);
        self.seat = Some(bench.leave());
    }
}

/// The cores of all lanes make their turns at the same time, each in a thread of its own. It takes no memory.
pub(crate) fn go_all<R: Threads + Sync, G: Gate>(
    rt: &R,
    p: &BusPlan,
    t: &TaskSet,
    round: &Round,
    guesses: &Guesses,
    lanes: &mut [Lane],
    gate: &G,
)
    requires plan { plan_in round.now.opening ≡ plan_of p.now }
    requires limit { round.now.opening.room ≡ 1024 }
    requires bodies { AsksAsPlanned (plan_of p.now) t.now }
    requires few { (0 < length lanes.old) × (length lanes.old ≤ 8) }
    requires seated { AreSeated (plan_of p.now) t.now round.now lanes.old }
    ensures { HaveGone (plan_of p.now) t.now round.now lanes.old lanes.new }
{
    is_shared::<Round>();
    is_shared::<Guesses>();
    guesses.news.begin(lanes.len());
    start_each(
        rt,
        lanes,
        &|number: usize, lane: &mut Lane|
            requires plan { plan_in round.now.opening ≡ plan_of p.now }
            requires limit { round.now.opening.room ≡ 1024 }
            requires bodies { AsksAsPlanned (plan_of p.now) t.now }
            requires number { number < 8 }
            requires seated { IsSeated (plan_of p.now) t.now round.now number lane.old }
            ensures { HasGone (plan_of p.entry.now) t.entry.now round.entry.now number lane.old lane.new }
        {
            lane.go(p, t, round, guesses, number, gate);
        },
    );
}
