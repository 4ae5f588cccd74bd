//! Cores that look first where an entry may have started something.

ghost use Rattle.std.specs.Prelude.{◌≡◌, ◌<◌, [], false, IfOk, length};
ghost use Rattle.std.specs.Vec.{vec_capacity};
ghost use Rattle.bus_semantics.specs.declared.script.Mapping.{Mapping};
ghost use Rattle.bus_semantics.specs.Plan.{plan_of};
ghost use Rattle.task_generator.specs.Promise.{AsksAsPlanned};
ghost use Rattle.core_turn.specs.Awake.{Fits, looks_of_awake};
ghost use Rattle.core_turn.specs.Cores.{looks_in};
ghost use Rattle.core_turn.specs.Ready.{IsReady};
ghost use Rattle.cross_core_table.specs.Logs.{plan_in};
ghost use Rattle.core_lanes.specs.Rooms.{HasRoom};
ghost use Rattle.core_lanes.specs.Benching.{IsTaken};
ghost use Rattle.core_lanes.specs.Guiding.{IsGuide, AreRooms};
ghost use Rattle.core_lanes.specs.Leaving.{IsEmptyTurn, looks_due};

use crate::guesses::Guesses;
use crate::turns::turn_once;
use bus_semantics::{BusPlan, Stamped};
use core_turn::{Awake, Core, Turned, turn_of_awake};
use cross_core_table::SeatBench;
use port_objects::{last_entries_are_last, last_written, sound_plans_have_objects};
use std::alloc::{AllocError, Global};
use std::marker::Model;
use task_machine::TaskSet;

/// What of a core may step, as far as it is known, and a list with room for the entry of a turn.
#[derive(Drop)]
pub(crate) struct Guide {
    pub awake: Awake,
    pub made: Vec<Stamped>,
    /// Its last turn made no entry, and it has no news.
    pub idle: bool,
}

/// A core and what guides it.
#[derive(Drop)]
pub(crate) struct Guided {
    core: Core,
    guide: Guide,
}

impl Model for Guided {
    ghost use Rattle.core_turn.specs.Cores.{CoreState};
    ghost use Rattle.core_lanes.specs.Guiding.{IsGuide};

    ghost Value = { CoreState };

    ghost view = { λ g. g.core };

    ghost invariant = { λ g. IsGuide g.core g.guide };
}

/// Room for an entry, as each of so many guides has it. The only error is that there is no memory.
pub(crate) fn rooms_of(alloc: Global, count: usize) -> Result<Vec<Vec<Stamped>>, AllocError>
    ensures { IfOk result (λ rooms. AreRooms count rooms.items) }
{
    let mut rooms = Vec::new(alloc);
    for _core in 0..count {
        rooms.push(Vec::with_capacity(alloc, 1)?)?;
    }
    Ok(rooms)
}

/// A core hears of what others did, and wakes what that may start. An idle core waits for it a while, if others are not idle.
fn hear(core: &Core, guide: &mut Guide, guesses: &Guesses, number: u32)
    requires { IsGuide core.now guide.old }
    ensures { IsGuide core.now guide.new }
{
    if guide.idle {
        guesses.news.wait(number);
    }
    if guesses.hear(number, core, &mut guide.awake) {
        // It counts once among those that are not idle: for its news, or since it was not.
        if !guide.idle {
            guesses.news.rest();
        }
        guide.idle = false;
    }
}

/// A core with an entry is not idle, and one without an entry is.
fn note(guide: &mut Guide, guesses: &Guesses, made: bool)
    ensures awake { guide.new.awake ≡ guide.old.awake }
    ensures made { guide.new.made ≡ guide.old.made }
{
    if made && guide.idle {
        guesses.news.stir();
    }
    if !made && !guide.idle {
        guesses.news.rest();
    }
    guide.idle = !made;
}

/// A turn of a core over what is awake of it. The answer is whether it made an entry. It made none if each look at what is awake said that
/// nothing may come, or if another core held the object.
fn turn_by_guide(
    p: &BusPlan,
    t: &TaskSet,
    core: &mut Core,
    guide: &mut Guide,
    bench: &mut SeatBench,
    guesses: &Guesses,
    number: u32,
) -> bool
    requires plan { plan_in bench.old.round.opening ≡ plan_of p.now }
    requires bodies { AsksAsPlanned (plan_of p.now) t.now }
    requires ready { (m : Mapping) × IsReady (plan_of p.now) m t.now core.old }
    requires room { HasRoom core.old }
    requires bench_room { length bench.old.view.made < bench.old.round.opening.room }
    requires guide { IsGuide core.old guide.old }
    ensures round { bench.new.round ≡ bench.old.round }
    ensures number { bench.new.core ≡ bench.old.core }
    ensures ready { (m : Mapping) → IsReady (plan_of p.now) m t.now core.old → IsReady (plan_of p.now) m t.now core.new }
    ensures room { HasRoom core.new }
    ensures taken { IsTaken (plan_of p.now) t.now core.old core.new bench.old.view.made bench.new.view.made result }
    ensures looked { result ≡ false → IsEmptyTurn (looks_of_awake (plan_of p.now) core.old.slots guide.old.awake) bench.old.view bench.new.view }
    ensures guide { IsGuide core.new guide.new }
{
    last_entries_are_last();
    sound_plans_have_objects();
    match turn_of_awake(p, t, core, &mut guide.awake, bench, &mut guide.made) {
        Turned::Stepped => {
            let made = last_written(guide.made.as_slice());
            guesses.wake_after(p, number, core, made, &mut guide.awake);
            guide.made.clear();
            true
        }
        Turned::NothingNow => false,
        Turned::Contended(_) => false,
    }
}

/// A turn of a core over all of it, of which the guide is told.
fn turn_past_guide(
    p: &BusPlan,
    t: &TaskSet,
    core: &mut Core,
    guide: &mut Guide,
    bench: &mut SeatBench,
) -> bool
    requires plan { plan_in bench.old.round.opening ≡ plan_of p.now }
    requires bodies { AsksAsPlanned (plan_of p.now) t.now }
    requires ready { (m : Mapping) × IsReady (plan_of p.now) m t.now core.old }
    requires room { HasRoom core.old }
    requires bench_room { length bench.old.view.made < bench.old.round.opening.room }
    requires guide { IsGuide core.old guide.old }
    ensures round { bench.new.round ≡ bench.old.round }
    ensures number { bench.new.core ≡ bench.old.core }
    ensures ready { (m : Mapping) → IsReady (plan_of p.now) m t.now core.old → IsReady (plan_of p.now) m t.now core.new }
    ensures room { HasRoom core.new }
    ensures taken { IsTaken (plan_of p.now) t.now core.old core.new bench.old.view.made bench.new.view.made result }
    ensures looked { result ≡ false → IsEmptyTurn (looks_in (plan_of p.now) core.old.slots) bench.old.view bench.new.view }
    ensures guide { IsGuide core.new guide.new }
{
    match turn_once(p, t, core, bench) {
        Turned::Stepped => {
            guide.awake.follow(core);
            true
        }
        Turned::NothingNow => false,
        Turned::Contended(_) => false,
    }
}

impl Guided {
    /// A core with what of it may step, as far as it is known, and a list with room for an entry.
    pub(crate) fn of(core: Core, awake: Awake, made: Vec<Stamped>) -> Guided
        requires fits { Fits core.slots core.first awake }
        requires room { (made.items ≡ []) × (0 < vec_capacity made) }
        ensures { result ≡ core }
    {
        Guided {
            core,
            guide: Guide {
                awake,
                made,
                idle: false,
            },
        }
    }

    /// The core, and what of it may step, as far as it is known.
    pub(crate) fn into_parts(self) -> (Core, Awake)
        ensures core { result.0 ≡ self }
        ensures fits { Fits result.0.slots result.0.first result.1 }
    {
        (self.core, self.guide.awake)
    }

    /// The core leaves the round: others count on no entry of it.
    pub(crate) fn retire(&self, guesses: &Guesses, number: u32) {
        guesses.news.leave(number);
        if !self.guide.idle {
            guesses.news.rest();
        }
    }

    /// The core makes a turn at its bench: over what is awake, and if that gives no entry and all are due, over all of its slots. The answer
    /// is whether it made an entry. A turn that found its object held by another core made none. The core's trace is empty, since the seat
    /// keeps the entry. That it makes `turn_by_guide` each time, after the core has asked for news, is read in the code, since
    /// what its guide knows is not seen outside a turn.
    pub(crate) fn turn(
        &mut self,
        p: &BusPlan,
        t: &TaskSet,
        bench: &mut SeatBench,
        guesses: &Guesses,
        number: u32,
        all: bool,
    ) -> bool
        requires plan { plan_in bench.old.round.opening ≡ plan_of p.now }
        requires bodies { AsksAsPlanned (plan_of p.now) t.now }
        requires ready { (m : Mapping) × IsReady (plan_of p.now) m t.now self.old }
        requires room { HasRoom self.old }
        requires bench_room { length bench.old.view.made < bench.old.round.opening.room }
        ensures round { bench.new.round ≡ bench.old.round }
        ensures number { bench.new.core ≡ bench.old.core }
        ensures ready { (m : Mapping) → IsReady (plan_of p.now) m t.now self.old → IsReady (plan_of p.now) m t.now self.new }
        ensures room { HasRoom self.new }
        ensures taken { IsTaken (plan_of p.now) t.now self.old self.new bench.old.view.made bench.new.view.made result }
        ensures looked { result ≡ false → IsEmptyTurn (looks_due (plan_of p.now) self.old.slots all) bench.old.view bench.new.view }
    {
        hear(&self.core, &mut self.guide, guesses, number);
        let made = self.look(p, t, bench, guesses, number, all);
        note(&mut self.guide, guesses, made);
        made
    }

    /// The turn itself.
    fn look(
        &mut self,
        p: &BusPlan,
        t: &TaskSet,
        bench: &mut SeatBench,
        guesses: &Guesses,
        number: u32,
        all: bool,
    ) -> bool
        requires plan { plan_in bench.old.round.opening ≡ plan_of p.now }
        requires bodies { AsksAsPlanned (plan_of p.now) t.now }
        requires ready { (m : Mapping) × IsReady (plan_of p.now) m t.now self.old }
        requires room { HasRoom self.old }
        requires bench_room { length bench.old.view.made < bench.old.round.opening.room }
        ensures round { bench.new.round ≡ bench.old.round }
        ensures number { bench.new.core ≡ bench.old.core }
        ensures ready { (m : Mapping) → IsReady (plan_of p.now) m t.now self.old → IsReady (plan_of p.now) m t.now self.new }
        ensures room { HasRoom self.new }
        ensures taken { IsTaken (plan_of p.now) t.now self.old self.new bench.old.view.made bench.new.view.made result }
        ensures looked { result ≡ false → IsEmptyTurn (looks_due (plan_of p.now) self.old.slots all) bench.old.view bench.new.view }
    {
        if turn_by_guide(
            p,
            t,
            &mut self.core,
            &mut self.guide,
            bench,
            guesses,
            number,
        ) {
            return true;
        }
        if !all {
            return false;
        }
        turn_past_guide(p, t, &mut self.core, &mut self.guide, bench)
    }
}
