//! A bus along a trace.

ghost use Rattle.std.specs.Prelude.{IfOk, IfSome, [], ◌≡◌, true, Some};
ghost use Rattle.bus_semantics.specs.Common.{follows_program, key_fits, Plan, plan_of, Wanted, to_tick, wanted_of, fits, History, IsLegal};
ghost use Rattle.bus_semantics.specs.declared.entries.Actor.TheVariants.{Env};
ghost use Rattle.task_machine.specs.declared.instr.TaskSet.{TaskSet};
ghost use Rattle.task_machine.specs.Frames.{wanted_in};
ghost use Rattle.task_generator.specs.Promise.{AsksAsPlanned};
ghost use Rattle.trace_objects.specs.Going.{Asks};
ghost use Rattle.trace_walks.specs.Walking.{IsWanted, MayBegin};
ghost use Rattle.trace_check.specs.Along.{AreSound, Idles, IsAlong, IsAsked, Makes, StateStands, plan_in};
ghost use Rattle.trace_check.specs.Going.{GoesOnBy, IsAskedAlong, IsMadeOf, NotesLine};

use crate::rules::Rules;
use bus_semantics::{Actor, BusPlan, Deed, Entry, Wish};
use port_objects::{Object, make_objects, sound_plans_have_objects};
use rte_text::{LineBuf, Memory};
use rte_value::ActKey;
use std::alloc::Global;
use task_machine::{Next, TaskSet};
use trace_objects::{Unrest, go_on, make, may_rest, tick};
use trace_reading::{behind, behind_line_of, sound_plans_are_readable};
use trace_text::tick_line;
use trace_walks::{Runners, Walks};

/// What is kept of a bus along a trace: its objects, what may come on them of its own, its activations, and which of them run.
#[derive(Drop)]
pub(crate) struct BusState {
    objects: Vec<Object>,
    unrest: Unrest,
    walks: Walks,
    runners: Runners,
    /// For the text of a line.
    out: LineBuf,
}

impl BusState {
    /// The bus before a trace. An error says that there was no memory.
    pub(crate) fn new(alloc: Global, rules: &Rules<'_, '_>) -> Result<BusState, Memory>
        requires sound { AreSound rules.now }
        ensures { IfOk result (λ state. StateStands rules.now.tasks.now (plan_in rules.now) [] state) }
    {
        sound_plans_have_objects();
        let objects = make_objects(alloc, rules.plan)?;
        let unrest = Unrest::new(alloc, rules.plan)?;
        let walks = Walks::new(alloc, rules.plan)?;
        let runners = Runners::new(alloc, rules.plan)?;
        Ok(BusState {
            objects,
            unrest,
            walks,
            runners,
            out: LineBuf::new(),
        })
    }

    /// Makes the entry, if it may follow the history for which the state stands; if not, the answer is the number of the least clause that
    /// it breaks, and the state is of no use then. The entry fits. An error says that there was no memory.
    pub(crate) fn make(
        &mut self,
        alloc: Global,
        rules: &Rules<'_, '_>,
        entry: &Entry,
    ) -> Result<Option<u8>, Memory>
        requires sound { AreSound rules.now }
        requires along { IsAlong rules.now.tasks.now (plan_in rules.now) self.old }
        requires fits { fits (plan_in rules.now) entry.now ≡ true }
        ensures { IfOk result (λ broken. (h : History) → IsLegal (plan_in rules.now) h → StateStands rules.now.tasks.now (plan_in rules.now) h self.old →
            Makes rules.now.tasks.now (plan_in rules.now) h entry.now self.new broken) }
    {
        if !self.walks.follows(rules.plan, rules.tasks, entry) {
            return Ok(Some(6));
        }
        self.answer(alloc, rules, entry)
    }

    /// Makes an entry for which its actor's program asks.
    fn answer(
        &mut self,
        alloc: Global,
        rules: &Rules<'_, '_>,
        entry: &Entry,
    ) -> Result<Option<u8>, Memory>
        requires sound { AreSound rules.now }
        requires asked { IsAsked rules.now.tasks.now (plan_in rules.now) self.old entry.now }
        requires fits { fits (plan_in rules.now) entry.now ≡ true }
        ensures { IfOk result (λ broken. (h : History) → IsLegal (plan_in rules.now) h → StateStands rules.now.tasks.now (plan_in rules.now) h self.old →
            follows_program (plan_in rules.now) h entry.now.actor entry.now.deed ≡ true →
            Makes rules.now.tasks.now (plan_in rules.now) h entry.now self.new broken) }
    {
        let event = self.walks.event_for(rules.plan, entry);
        match make(
            rules.plan,
            &mut self.objects,
            &mut self.unrest,
            entry,
            event,
        ) {
            Some(clause) => Ok(Some(clause)),
            None => {
                self.walks.note(alloc, rules.tasks, rules.plan, entry)?;
                self.runners.note(entry);
                Ok(None)
            }
        }
    }

    /// The call that the running activation of the key makes next, which is what its program asks for. None while none runs, and while it
    /// waits for the direct activation that it called.
    pub(crate) fn wanted(&self, t: &TaskSet, key: ActKey) -> Next
        ensures { (p : Plan) (h : History) (w : Wanted) → AsksAsPlanned p t.now → key_fits p key ≡ true → StateStands t.now p h self.now →
            wanted_in result ≡ Some w → IsWanted p h key w }
    {
        self.walks.wanted(t, key)
    }

    /// Whether an activation of the key may start by this event.
    pub(crate) fn may_begin(&self, p: &BusPlan, key: ActKey, event: u32) -> bool
        ensures { (t : TaskSet) (h : History) → key_fits (plan_of p.now) key ≡ true → StateStands t (plan_of p.now) h self.now →
            result ≡ true → MayBegin (plan_of p.now) h key event }
    {
        self.walks.may_begin(p, key, event)
    }

    /// Makes what the actor asks for, if the text begins with the line of its entry, and answers what stands behind that line. If it does
    /// not, the state is of no use then. An error says that there was no memory.
    pub(crate) fn go_on<'t>(
        &mut self,
        alloc: Global,
        rules: &Rules<'_, '_>,
        actor: Actor,
        wish: &Wish,
        text: &'t [u8],
    ) -> Result<Option<&'t [u8]>, Memory>
        requires sound { AreSound rules.now }
        requires asked { IsAskedAlong rules.now self.old actor (wanted_of wish.now) }
        ensures { IfOk result (λ behind. IfSome behind (λ more. (h : History) → IsLegal (plan_in rules.now) h → StateStands rules.now.tasks.now (plan_in rules.now) h self.old →
            Asks (plan_in rules.now) h actor (wanted_of wish.now) → GoesOnBy rules.now h actor (wanted_of wish.now) text.now more.now self.new)) }
    {
        let mut entry = Entry {
            actor,
            deed: Deed::Tick,
        };
        if go_on(
            rules.plan,
            &mut self.objects,
            &mut self.unrest,
            actor,
            wish,
            &mut entry,
        ) {
            self.note_line(alloc, rules, &entry, text)
        } else {
            Ok(None)
        }
    }

    /// Makes a tick, for which the environment asks, if the text begins with its line, and answers what stands behind that line: what `go_on`
    /// does, without the entry and its text. If the text begins otherwise, the state is of no use then. An error says that there was no memory.
    pub(crate) fn tick<'t>(
        &mut self,
        alloc: Global,
        rules: &Rules<'_, '_>,
        text: &'t [u8],
    ) -> Result<Option<&'t [u8]>, Memory>
        requires sound { AreSound rules.now }
        requires asked { IsAskedAlong rules.now self.old Env to_tick }
        ensures { IfOk result (λ behind. IfSome behind (λ more. (h : History) → IsLegal (plan_in rules.now) h → StateStands rules.now.tasks.now (plan_in rules.now) h self.old →
            Asks (plan_in rules.now) h Env to_tick → GoesOnBy rules.now h Env to_tick text.now more.now self.new)) }
    {
        let Some(more) = behind(text, tick_line()) else {
            return Ok(None);
        };
        if !tick(rules.plan, &mut self.objects, &mut self.unrest) {
            return Ok(None);
        }
        let ticked = Entry {
            actor: Actor::Env,
            deed: Deed::Tick,
        };
        self.walks.note(alloc, rules.tasks, rules.plan, &ticked)?;
        self.runners.note(&ticked);
        Ok(Some(more))
    }

    /// Notes an entry that its object has made, if the text begins with its line, and answers what stands behind that.
    fn note_line<'t>(
        &mut self,
        alloc: Global,
        rules: &Rules<'_, '_>,
        entry: &Entry,
        text: &'t [u8],
    ) -> Result<Option<&'t [u8]>, Memory>
        requires sound { AreSound rules.now }
        requires made { (h : History) × IsMadeOf rules.now h entry.now self.old }
        ensures { IfOk result (λ behind. IfSome behind (λ more. NotesLine rules.now entry.now text.now more.now self.old self.new)) }
    {
        sound_plans_are_readable();
        match behind_line_of(rules.plan, rules.version, entry, text, &mut self.out) {
            Some(more) => {
                self.walks.note(alloc, rules.tasks, rules.plan, entry)?;
                self.runners.note(entry);
                Ok(Some(more))
            }
            None => Ok(None),
        }
    }

    /// Whether the word `idle` holds after the history for which the state stands: no activation runs, and the bus is at rest. If not, the
    /// state is of no use then.
    pub(crate) fn is_idle(&mut self, rules: &Rules<'_, '_>) -> bool
        requires sound { AreSound rules.now }
        requires along { IsAlong rules.now.tasks.now (plan_in rules.now) self.old }
        ensures { (h : History) → IsLegal (plan_in rules.now) h → StateStands rules.now.tasks.now (plan_in rules.now) h self.old →
            Idles rules.now.tasks.now (plan_in rules.now) rules.now.mapping.now h self.new result }
    {
        if !self.runners.none_runs() {
            return false;
        }
        may_rest(rules.plan, &mut self.objects, &mut self.unrest)
    }
}
