//! The check of a trace, item by item.

ghost use Rattle.std.specs.Prelude.{◌≡◌, ◌==◌, ◌&&◌, [], ℕ, if◌then◌else◌, suc, min, true, IfOk, IsTrue, ◌↔◌, false};
ghost use Rattle.bus_semantics.specs.declared.entries.Actor.TheVariants.{Machine};
ghost use Rattle.bus_semantics.specs.Common.{is_environment, item_fits, IsSessionOf, Session, idle, made, run_begins, run_closes, unsettled, wanted_of, history_of};
ghost use Rattle.trace_check.specs.Along.{AreSound, plan_in};
ghost use Rattle.trace_objects.specs.Going.{Asks};
ghost use Rattle.trace_check.specs.Taking.{CanGoOn, Goes};
ghost use Rattle.trace_check.specs.Checking.{CanJudge, Judges, JudgesRead, ReadFits, Stands, most_made};

use crate::bus_state::BusState;
use crate::orders::Orders;
use crate::rules::Rules;
use crate::script::{takes_entry, takes_run};
use bus_semantics::{Actor, Entry, Wish};
use rte_text::Memory;
use rte_value::ActKey;
use std::alloc::Global;
use task_machine::Next;
use trace_reading::{LineRead, key_fits, wish_fits};

/// How many entries of a run line are counted at most.
const MOST_MADE: u32 = 100_000;

/// What an item of a trace comes to.
#[derive(Clone, Copy)]
pub(crate) enum Judged {
    /// It may come next.
    Accepted,
    /// It is no item.
    Bad,
    /// It may not come next, and this is the number of the least clause that it breaks.
    Refused(u8),
}

/// What comes of going on by what an actor asks for.
#[derive(Clone, Copy)]
pub(crate) enum Gone<'t> {
    /// To what stands behind the line that came next.
    To(&'t [u8]),
    /// The actor asks for nothing that is known. All is as it was.
    Nowhere,
    /// The line is another one. The check is of no use then.
    Astray,
}

/// What is kept along a trace.
#[derive(Drop)]
pub(crate) struct Check<'p> {
    state: BusState,
    /// What the script has still to ask for.
    orders: Orders<'p>,
    /// Whether a run line is open.
    inside: bool,
    /// How many entries runnables and machines made since its mark, up to `MOST_MADE`.
    made: u32,
}

/// The count after an entry of this actor.
fn counted(made: u32, actor: &Actor) -> u32
    ensures { (n : ℕ) → made ≡ min n most_made → result ≡ min (if is_environment actor.now then n else suc n) most_made }
{
    match actor {
        Actor::Env => made,
        _ => { if made < MOST_MADE { made + 1 } else { made } }
    }
}

impl<'p> Check<'p> {
    /// The check before a trace. An error says that there was no memory.
    pub(crate) fn new(alloc: Global, rules: &Rules<'_, 'p>) -> Result<Check<'p>, Memory>
        requires sound { AreSound rules.now }
        ensures { IfOk result (λ check. Stands rules.now [] check) }
    {
        let state = BusState::new(alloc, rules)?;
        Ok(Check {
            state,
            orders: Orders::new(rules.script),
            inside: false,
            made: 0,
        })
    }

    /// Judges an entry.
    fn judge_entry(
        &mut self,
        alloc: Global,
        rules: &Rules<'_, 'p>,
        entry: &Entry,
    ) -> Result<Judged, Memory>
        requires sound { AreSound rules.now }
        requires can { CanJudge rules.now self.old }
        requires fits { item_fits (plan_in rules.now) (made entry.now) ≡ true }
        ensures { IfOk result (λ judged. (s : Session) → Stands rules.now s self.old → Judges rules.now s (made entry.now) self.new judged) }
    {
        if !takes_entry(&mut self.orders, self.inside, entry) {
            return Ok(Judged::Refused(16));
        }
        match self.state.make(alloc, rules, entry)? {
            Some(clause) => Ok(Judged::Refused(clause)),
            None => {
                self.made = counted(self.made, &entry.actor);
                Ok(Judged::Accepted)
            }
        }
    }

    /// Judges a run mark.
    fn judge_run(&mut self, rules: &Rules<'_, 'p>) -> Judged
        ensures { (s : Session) → Stands rules.now s self.old → Judges rules.now s run_begins self.new result }
    {
        if !takes_run(&mut self.orders, self.inside) {
            return Judged::Refused(16);
        }
        self.inside = true;
        self.made = 0;
        Judged::Accepted
    }

    /// Judges the word `idle`.
    fn judge_idle(&mut self, rules: &Rules<'_, 'p>) -> Judged
        requires sound { AreSound rules.now }
        requires can { CanJudge rules.now self.old }
        ensures { (s : Session) → Stands rules.now s self.old → Judges rules.now s (run_closes idle) self.new result }
    {
        if !self.inside {
            return Judged::Refused(15);
        }
        if !self.state.is_idle(rules) {
            return Judged::Refused(15);
        }
        self.inside = false;
        self.made = 0;
        Judged::Accepted
    }

    /// Whether a run line is open in which the entries that are counted were made.
    fn is_unsettled(&self) -> bool
        ensures { result ≡ (self.now.inside && (self.now.made == most_made)) }
    {
        self.inside && self.made == MOST_MADE
    }

    /// Judges the word `unsettled`.
    fn judge_unsettled(&mut self, rules: &Rules<'_, 'p>) -> Judged
        ensures { (s : Session) → Stands rules.now s self.old → Judges rules.now s (run_closes unsettled) self.new result }
    {
        if !self.is_unsettled() {
            return Judged::Refused(15);
        }
        self.inside = false;
        self.made = 0;
        Judged::Accepted
    }

    /// Judges what a line is read as, after the session for which the check stands. If it is accepted, the check stands for the session and
    /// it; if not, the check is of no use then. An error says that there was no memory.
    pub(crate) fn judge(
        &mut self,
        alloc: Global,
        rules: &Rules<'_, 'p>,
        read: &LineRead,
    ) -> Result<Judged, Memory>
        requires sound { AreSound rules.now }
        requires can { CanJudge rules.now self.old }
        requires fits { ReadFits (plan_in rules.now) read.now }
        ensures { IfOk result (λ judged. (s : Session) → Stands rules.now s self.old → JudgesRead rules.now s read.now self.new judged) }
    {
        match read {
            LineRead::Entry(entry) => self.judge_entry(alloc, rules, entry),
            LineRead::Run => Ok(self.judge_run(rules)),
            LineRead::Idle => Ok(self.judge_idle(rules)),
            LineRead::Unsettled => Ok(self.judge_unsettled(rules)),
            LineRead::BadLine => Ok(Judged::Bad),
        }
    }

    /// Makes what the actor asks for next, if the text begins with the line of its entry: outside a run line the script's next call, inside
    /// the next phase of a machine, what the running activation of a key wants, or its start by this event. Then the check stands for
    /// the session and that entry. An error says that there was no memory.
    pub(crate) fn go_on<'t>(
        &mut self,
        alloc: Global,
        rules: &Rules<'_, 'p>,
        actor: Actor,
        start: Option<u32>,
        text: &'t [u8],
    ) -> Result<Gone<'t>, Memory>
        requires sound { AreSound rules.now }
        requires can { CanJudge rules.now self.old }
        ensures { IfOk result (λ gone. (s : Session) → Stands rules.now s self.old → Goes rules.now s text.now self.new gone) }
    {
        match actor {
            Actor::Env => self.call(alloc, rules, text),
            Actor::Machine(_) => self.move_on(alloc, rules, actor, text),
            Actor::Act(key) => match start {
                Some(event) => self.begin(alloc, rules, key, event, text),
                None => self.want(alloc, rules, key, text),
            },
        }
    }

    /// Makes a tick, if no run line is open, the script asks for a tick next, and the text begins with its line. An error says that there was
    /// no memory.
    pub(crate) fn tick<'t>(
        &mut self,
        alloc: Global,
        rules: &Rules<'_, 'p>,
        text: &'t [u8],
    ) -> Result<Gone<'t>, Memory>
        requires sound { AreSound rules.now }
        requires can { CanJudge rules.now self.old }
        ensures { IfOk result (λ gone. (s : Session) → Stands rules.now s self.old → Goes rules.now s text.now self.new gone) }
    {
        if self.inside {
            return Ok(Gone::Nowhere);
        }
        if !self.orders.take_call(&Wish::Tick) {
            return Ok(Gone::Nowhere);
        }
        match self.state.tick(alloc, rules, text)? {
            Some(more) => Ok(Gone::To(more)),
            None => Ok(Gone::Astray),
        }
    }

    /// Makes the script's next call, if no run line is open, and the text begins with the line of its entry.
    fn call<'t>(
        &mut self,
        alloc: Global,
        rules: &Rules<'_, 'p>,
        text: &'t [u8],
    ) -> Result<Gone<'t>, Memory>
        requires sound { AreSound rules.now }
        requires can { CanJudge rules.now self.old }
        ensures { IfOk result (λ gone. (s : Session) → Stands rules.now s self.old → Goes rules.now s text.now self.new gone) }
    {
        if self.inside {
            return Ok(Gone::Nowhere);
        }
        let Some(wish) = self.orders.take_next() else {
            return Ok(Gone::Nowhere);
        };
        if !wish_fits(rules.plan, Actor::Env, &wish) {
            return Ok(Gone::Astray);
        }
        match self.state.go_on(alloc, rules, Actor::Env, &wish, text)? {
            Some(more) => Ok(Gone::To(more)),
            None => Ok(Gone::Astray),
        }
    }

    /// Makes the next phase of a machine, if a run line is open, and the text begins with the line of its entry.
    fn move_on<'t>(
        &mut self,
        alloc: Global,
        rules: &Rules<'_, 'p>,
        actor: Actor,
        text: &'t [u8],
    ) -> Result<Gone<'t>, Memory>
        requires sound { AreSound rules.now }
        requires can { CanJudge rules.now self.old }
        requires machine { (n : ℕ) × (actor ≡ Machine n) }
        ensures { IfOk result (λ gone. (s : Session) → Stands rules.now s self.old → Goes rules.now s text.now self.new gone) }
    {
        if !self.inside {
            return Ok(Gone::Nowhere);
        }
        if !wish_fits(rules.plan, actor, &Wish::Phase) {
            return Ok(Gone::Nowhere);
        }
        self.make_inside(alloc, rules, actor, &Wish::Phase, text)
    }

    /// Makes the start of the key's activation by this event, if a run line is open, and the text begins with the line of its entry.
    fn begin<'t>(
        &mut self,
        alloc: Global,
        rules: &Rules<'_, 'p>,
        key: ActKey,
        event: u32,
        text: &'t [u8],
    ) -> Result<Gone<'t>, Memory>
        requires sound { AreSound rules.now }
        requires can { CanJudge rules.now self.old }
        ensures { IfOk result (λ gone. (s : Session) → Stands rules.now s self.old → Goes rules.now s text.now self.new gone) }
    {
        if !self.inside {
            return Ok(Gone::Nowhere);
        }
        if !key_fits(rules.plan, key) {
            return Ok(Gone::Nowhere);
        }
        if !self.state.may_begin(rules.plan, key, event) {
            return Ok(Gone::Nowhere);
        }
        let actor = Actor::Act(key);
        let wish = Wish::Start { event };
        if !wish_fits(rules.plan, actor, &wish) {
            return Ok(Gone::Nowhere);
        }
        self.make_inside(alloc, rules, actor, &wish, text)
    }

    /// Makes what the running activation of the key wants next, if a run line is open, and the text begins with the line of its entry.
    fn want<'t>(
        &mut self,
        alloc: Global,
        rules: &Rules<'_, 'p>,
        key: ActKey,
        text: &'t [u8],
    ) -> Result<Gone<'t>, Memory>
        requires sound { AreSound rules.now }
        requires can { CanJudge rules.now self.old }
        ensures { IfOk result (λ gone. (s : Session) → Stands rules.now s self.old → Goes rules.now s text.now self.new gone) }
    {
        if !self.inside {
            return Ok(Gone::Nowhere);
        }
        if !key_fits(rules.plan, key) {
            return Ok(Gone::Nowhere);
        }
        match &self.state.wanted(rules.tasks, key) {
            Next::Call(wish) => self.make_inside(alloc, rules, Actor::Act(key), wish, text),
            Next::Over => Ok(Gone::Nowhere),
        }
    }

    /// Makes what a machine or an activation asks for, inside a run line, if the text begins with the line of its entry.
    fn make_inside<'t>(
        &mut self,
        alloc: Global,
        rules: &Rules<'_, 'p>,
        actor: Actor,
        wish: &Wish,
        text: &'t [u8],
    ) -> Result<Gone<'t>, Memory>
        requires sound { AreSound rules.now }
        requires inside { self.old.inside ≡ true }
        requires other { is_environment actor ≡ false }
        requires asked { CanGoOn rules.now self.old actor (wanted_of wish.now) }
        ensures { IfOk result (λ gone. (s : Session) → Stands rules.now s self.old → Asks (plan_in rules.now) (history_of s) actor (wanted_of wish.now) →
            Goes rules.now s text.now self.new gone) }
    {
        match self.state.go_on(alloc, rules, actor, wish, text)? {
            Some(more) => {
                self.made = counted(self.made, &actor);
                Ok(Gone::To(more))
            }
            None => Ok(Gone::Astray),
        }
    }

    /// Whether the session for which the check stands is a whole one of the script: no run line is open, and nothing is left of the script.
    pub(crate) fn is_whole(&self, rules: &Rules<'_, 'p>) -> bool
        ensures { (s : Session) → Stands rules.now s self.now → IsTrue result ↔ IsSessionOf rules.now.script.now.lines s }
    {
        !self.inside && self.orders.is_over()
    }
}
