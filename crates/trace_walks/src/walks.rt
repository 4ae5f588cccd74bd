//! The activations of all keys.

ghost use Rattle.std.specs.Prelude.{◌≡◌, OnOk};
ghost use Rattle.bus_semantics.specs.Common.{plan_of, needs_event};
ghost use Rattle.trace_walks.specs.Standing.{FreedAt, NotedAt};

use crate::Memory;
use crate::walk::Walk;
use bus_semantics::{Actor, BusPlan, Deed, Entry};
use rte_value::ActKey;
use std::alloc::Global;
use task_machine::{Next, TaskSet};

/// What is kept of all activations along a trace: a walk for each runnable, and one for each point, for the activation of a server without
/// a queue that serves it.
#[derive(Drop)]
pub struct Walks {
    plain: Vec<Walk>,
    direct: Vec<Walk>,
}

/// Whether an entry with this deed needs the event that started its activation: an admission or an end.
fn needs_event(deed: &Deed) -> bool
    ensures { result ≡ needs_event deed.now }
{
    matches!(deed, Deed::Admit { .. } | Deed::End)
}

/// The walk at this place goes on by the deed of its key. An error says that there was no memory.
fn note_at(
    walks: &mut Vec<Walk>,
    at: u32,
    alloc: Global,
    t: &TaskSet,
    p: &BusPlan,
    key: ActKey,
    deed: &Deed,
) -> Result<(), Memory>
    ensures { OnOk result (NotedAt t.now (plan_of p.now) key deed.now at walks.old.items walks.new.items) }
{
    match walks.get_mut(at as usize) {
        Some(walk) => {
            walk.note(alloc, t, p, key, deed)?;
            Ok(())
        }
        None => Ok(()),
    }
}

/// The walk at this place waits no more.
fn free_at(walks: &mut Vec<Walk>, at: u32)
    ensures { FreedAt at walks.old.items walks.new.items }
{
    if let Some(walk) = walks.get_mut(at as usize) {
        walk.release();
    }
}

impl Walks {
    ghost use Rattle.std.specs.Prelude.{◌≡◌, [], ◌∷◌, Some, true, IfOk, OnOk, option_map};
    ghost use Rattle.bus_semantics.specs.Fitting.{fits};
    ghost use Rattle.bus_semantics.specs.History.{History, needs_event, note, runs};
    ghost use Rattle.rte_value.specs.declared.kinds.ActKey.{ActKey};
    ghost use Rattle.bus_semantics.specs.declared.entries.Actor.TheVariants.{Act};
    ghost use Rattle.bus_semantics.specs.Actor.{follows_program, starts_or_goes_on};
    ghost use Rattle.bus_semantics.specs.Owners.{key_fits};
    ghost use Rattle.bus_semantics.specs.Plan.{Plan, plan_of};
    ghost use Rattle.bus_semantics.specs.Wanted.{Wanted};
    ghost use Rattle.bus_semantics.specs.Legal.{IsLegal};
    ghost use Rattle.bus_semantics.specs.Sound.{IsSound};
    ghost use Rattle.bus_semantics.specs.declared.script.Mapping.{Mapping};
    ghost use Rattle.task_machine.specs.declared.instr.TaskSet.{TaskSet};
    ghost use Rattle.task_machine.specs.Frames.{wanted_in};
    ghost use Rattle.task_generator.specs.Promise.{AsksAsPlanned};
    ghost use Rattle.trace_walks.specs.Walking.{IsWanted, MayBegin};
    ghost use Rattle.trace_walks.specs.Standing.{CallerFreed, Freed, KeyNoted, WalksStand, asked_by, is_called, may_begin, walk_of};

    /// The walks before a trace. They stand for the empty history. An error says that there was no memory.
    pub fn new(alloc: Global, p: &BusPlan) -> Result<Walks, Memory>
        ensures { IfOk result (λ walks. (t : TaskSet) → WalksStand t (plan_of p.now) [] walks) }
    {
        let plain = Walk::fresh(alloc, p.runnables.items().len())?;
        let direct = Walk::fresh(alloc, p.points.items().len())?;
        Ok(Walks { plain, direct })
    }

    /// The walk of a key.
    fn walk(&self, key: ActKey) -> Option<&Walk>
        ensures { option_map (λ walk. walk.now) result ≡ walk_of self.now key }
    {
        match key.point {
            None => self.plain.get(key.runnable as usize),
            Some(point) => self.direct.get(point as usize),
        }
    }

    /// The point of a runnable's last entry, if that is an accepted ask.
    fn asked_by(&self, runnable: u32) -> Option<u32>
        ensures { result ≡ asked_by self.now runnable }
    {
        match self.plain.get(runnable as usize) {
            Some(walk) => walk.asked(),
            None => None,
        }
    }

    /// Whether the caller of the key's point, if it has one, has asked there last.
    fn is_called(&self, p: &BusPlan, key: ActKey) -> bool
        ensures { result ≡ is_called (plan_of p.now) self.now key }
    {
        let Some(point) = key.point else {
            return true;
        };
        match p.points.items().get(point as usize) {
            Some(place) => match place.runnable {
                Some(caller) => match self.asked_by(caller) {
                    Some(asked) => asked == point,
                    None => false,
                },
                None => false,
            },
            None => false,
        }
    }

    /// Whether a key may start by this event.
    fn may_start(&self, p: &BusPlan, key: ActKey, walk: &Walk, event: u32) -> bool
        ensures { result ≡ may_begin (plan_of p.now) self.now key walk.now event }
    {
        match p.events.items().get(event as usize) {
            Some(event) => {
                event.runnable == key.runnable && !walk.runs() && self.is_called(p, key)
            }
            None => false,
        }
    }

    /// Whether a key may start by this event, or goes on with this deed.
    fn may_come(&self, p: &BusPlan, t: &TaskSet, key: ActKey, walk: &Walk, entry: &Entry) -> bool
        ensures { (h : History) → AsksAsPlanned (plan_of p.now) t.now → WalksStand t.now (plan_of p.now) h self.now → key_fits (plan_of p.now) key ≡ true →
            walk_of self.now key ≡ Some walk.now → result ≡ starts_or_goes_on (plan_of p.now) h key entry.now.deed }
    {
        match entry.deed {
            Deed::Start { event, .. } => self.may_start(p, key, walk, event),
            _ => walk.wants(t, entry),
        }
    }

    /// The walk of the key goes on by the deed. An error says that there was no memory.
    fn go_on(
        &mut self,
        alloc: Global,
        t: &TaskSet,
        p: &BusPlan,
        key: ActKey,
        deed: &Deed,
    ) -> Result<(), Memory>
        ensures { OnOk result (KeyNoted t.now (plan_of p.now) key deed.now self.old self.new) }
    {
        match key.point {
            None => note_at(&mut self.plain, key.runnable, alloc, t, p, key, deed)?,
            Some(point) => note_at(&mut self.direct, point, alloc, t, p, key, deed)?,
        }
        Ok(())
    }

    /// The walk of the caller at the point, if it has one, waits no more.
    fn free_caller(&mut self, p: &BusPlan, point: u32)
        ensures { CallerFreed (plan_of p.now) point self.old self.new }
    {
        if let Some(place) = p.points.items().get(point as usize) {
            if let Some(caller) = place.runnable {
                free_at(&mut self.plain, caller);
            }
        }
    }

    /// The call that the running activation of the key makes next, which is what its program asks for after the entries for which the walks
    /// stand. None while none runs, and while it waits for the direct activation that it called. The bodies are the plan's.
    pub fn wanted(&self, t: &TaskSet, key: ActKey) -> Next
        ensures { (p : Plan) (h : History) (w : Wanted) → AsksAsPlanned p t.now → key_fits p key ≡ true → WalksStand t.now p h self.now →
            wanted_in result ≡ Some w → IsWanted p h key w }
    {
        // Each arm returns: what the arms give to a match is copied once more behind it.
        match self.walk(key) {
            Some(walk) => return walk.wanted(t),
            None => return Next::Over,
        }
    }

    /// Whether an activation of the key may start by this event after the entries for which the walks stand: none of the key runs, and who
    /// calls it waits for it (SWS_RTE: runnable activation).
    pub fn may_begin(&self, p: &BusPlan, key: ActKey, event: u32) -> bool
        ensures { (t : TaskSet) (h : History) → key_fits (plan_of p.now) key ≡ true → WalksStand t (plan_of p.now) h self.now →
            result ≡ true → MayBegin (plan_of p.now) h key event }
    {
        match self.walk(key) {
            Some(walk) => !walk.is_held() && self.may_start(p, key, walk, event),
            None => false,
        }
    }

    /// Whether the entry is what the program of its actor asks for after the entries for which the walks stand (SWS_RTE: runnable
    /// activation): an activation starts if none of its key runs, and then does what its program says; a caller of a server without a
    /// queue goes on after its end. The entry fits, and the bodies are the plan's.
    pub fn follows(&self, p: &BusPlan, t: &TaskSet, entry: &Entry) -> bool
        requires fits { fits (plan_of p.now) entry.now ≡ true }
        requires bodies { AsksAsPlanned (plan_of p.now) t.now }
        ensures { (h : History) → WalksStand t.now (plan_of p.now) h self.now → result ≡ follows_program (plan_of p.now) h entry.now.actor entry.now.deed }
    {
        match entry.actor {
            Actor::Act(key) => match self.walk(key) {
                Some(walk) => !walk.is_held() && self.may_come(p, t, key, walk, entry),
                None => false,
            },
            _ => true,
        }
    }

    /// The end of a direct activation frees its caller.
    fn free(&mut self, p: &BusPlan, key: ActKey, deed: &Deed)
        ensures { Freed (plan_of p.now) key deed.now self.old self.new }
    {
        if let (Deed::End, Some(point)) = (deed, key.point) {
            self.free_caller(p, point);
        }
    }

    /// A legal entry has been made, and the walks stand for the history with it: the walk of its key goes on, and the end of a direct
    /// activation frees its caller. An error says that there was no memory; the walks are of no use then.
    pub fn note(
        &mut self,
        alloc: Global,
        t: &TaskSet,
        p: &BusPlan,
        entry: &Entry,
    ) -> Result<(), Memory>
        ensures { OnOk result ((m : Mapping) (h : History) → IsSound (plan_of p.now) m → IsLegal (plan_of p.now) (entry.now ∷ h) →
            WalksStand t.now (plan_of p.now) h self.old → WalksStand t.now (plan_of p.now) (entry.now ∷ h) self.new) }
    {
        match entry.actor {
            Actor::Act(key) => {
                self.go_on(alloc, t, p, key, &entry.deed)?;
                self.free(p, key, &entry.deed);
                Ok(())
            }
            _ => Ok(()),
        }
    }

    /// The event that started the activation of an entry that needs it, an admission or an end of an activation that runs; no other entry
    /// has one.
    pub fn event_for(&self, p: &BusPlan, entry: &Entry) -> Option<u32>
        requires fits { fits (plan_of p.now) entry.now ≡ true }
        ensures { (t : TaskSet) (h : History) → WalksStand t (plan_of p.now) h self.now →
            (needs_event entry.now.deed ≡ true → (k : ActKey) → entry.now.actor ≡ Act k → runs k h ≡ true) → result ≡ (note h entry.now).event }
    {
        if !needs_event(&entry.deed) {
            return None;
        }
        match entry.actor {
            Actor::Act(key) => match self.walk(key) {
                Some(walk) => walk.event(),
                None => None,
            },
            _ => None,
        }
    }
}
