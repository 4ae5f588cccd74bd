//! How long a core stays in a round.

ghost use Rattle.std.specs.Prelude.{◌≡◌, ◌+◌, ◌<◌, ◌≤◌, ◌&&◌, ◌||◌, ◌⊎◌, true, false, nat_lt, length, if◌then◌else◌};
ghost use Rattle.bus_semantics.specs.declared.script.Mapping.{Mapping};
ghost use Rattle.bus_semantics.specs.Plan.{plan_of};
ghost use Rattle.task_generator.specs.Promise.{AsksAsPlanned};
ghost use Rattle.core_turn.specs.Ready.{IsReady};
ghost use Rattle.cross_core_table.specs.Logs.{plan_in};
ghost use Rattle.core_lanes.specs.Rooms.{HasRoom};
ghost use Rattle.core_lanes.specs.Benching.{IsTaken};
ghost use Rattle.core_lanes.specs.Leaving.{Counts, nothing_done};

use crate::guesses::Guesses;
use crate::guided::Guided;
use bus_semantics::BusPlan;
use core_turn::{goes_on, looks_at_all};
use cross_core_table::SeatBench;
use task_machine::TaskSet;

/// What a core did in a round. Nothing changes it but a turn, which counts itself.
#[derive(Clone, Copy)]
pub(crate) struct Stay {
    /// How many entries it made.
    made: u32,
    /// How many turns it made behind its last entry.
    quiet: u32,
    /// Whether one of these looked at all of its slots, or up to an object that another core held.
    whole: bool,
}

impl Stay {
    /// It has made no turn.
    pub(crate) fn new() -> Stay
        ensures { result ≡ nothing_done }
    {
        Stay {
            made: 0,
            quiet: 0,
            whole: false,
        }
    }

    /// Whether the core makes a further turn: it leaves after 1,024 entries, or 64 turns in a row without one.
    pub(crate) fn goes_on(&self) -> bool
        ensures exactly { result ≡ (nat_lt self.now.made 1024 && nat_lt self.now.quiet 64) }
        ensures stays { result ≡ true → (self.now.made < 1024) × (self.now.quiet < 64) }
        ensures leaves { result ≡ false → (1024 ≤ self.now.made) ⊎ (64 ≤ self.now.quiet) }
    {
        goes_on(self.made, self.quiet)
    }

    /// The core makes a turn at its bench, which is counted. In the 33rd turn of a row without an entry it looks at all of its slots, and
    /// in each other turn at what is awake. The answer is whether it made an entry. The count's fields, and the call that sets
    /// them, are private to this file: nothing but a turn sets them.
    pub(crate) fn turn(
        &mut self,
        p: &BusPlan,
        t: &TaskSet,
        core: &mut Guided,
        bench: &mut SeatBench,
        guesses: &Guesses,
        number: u32,
    ) -> bool
        requires plan { plan_in bench.old.round.opening ≡ plan_of p.now }
        requires bodies { AsksAsPlanned (plan_of p.now) t.now }
        requires ready { (m : Mapping) × IsReady (plan_of p.now) m t.now core.old }
        requires room { HasRoom core.old }
        requires bench_room { length bench.old.view.made < bench.old.round.opening.room }
        requires stays { (self.old.made < 1024) × (self.old.quiet < 64) }
        ensures round { bench.new.round ≡ bench.old.round }
        ensures number { bench.new.core ≡ bench.old.core }
        ensures ready { (m : Mapping) → IsReady (plan_of p.now) m t.now core.old → IsReady (plan_of p.now) m t.now core.new }
        ensures room { HasRoom core.new }
        ensures taken { IsTaken (plan_of p.now) t.now core.old core.new bench.old.view.made bench.new.view.made result }
        ensures counts { Counts (plan_of p.now) core.old.slots self.old self.new bench.old.view bench.new.view result }
        ensures due { result ≡ false → self.old.quiet ≡ 32 → self.new.whole ≡ true }
    {
        let all = looks_at_all(self.quiet);
        let made = core.turn(p, t, bench, guesses, number, all);
        self.note(made, all);
        made
    }

    /// The core made a turn, with an entry or without one, and looked at all of its slots in it or not.
    fn note(&mut self, made: bool, all: bool)
        requires entries { self.old.made < 1024 }
        requires turns { self.old.quiet < 64 }
        ensures entries { self.new.made ≡ (if made then self.old.made + 1 else self.old.made) }
        ensures turns { self.new.quiet ≡ (if made then 0 else self.old.quiet + 1) }
        ensures whole { self.new.whole ≡ (if made then false else (all || self.old.whole)) }
    {
        if made {
            self.made += 1;
            self.quiet = 0;
            self.whole = false;
        } else {
            self.quiet += 1;
            self.whole = all || self.whole;
        }
    }
}
