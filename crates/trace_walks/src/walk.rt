//! The activations of one key.

ghost use Rattle.std.specs.Prelude.{◌≡◌, is_some, option_and_then};
ghost use Rattle.bus_semantics.specs.Common.{is_over, accepted_point, direct_key, is_this, plan_of, wanted_by};
ghost use Rattle.task_machine.specs.Frames.{wanted_in};

use crate::Memory;
use bus_semantics::{BusPlan, Deed, Entry};
use rte_value::ActKey;
use same_entries::is_wish_of;
use std::alloc::Global;
use std::marker::Model;
use task_machine::{Frame, Next, TaskSet};

/// Whether an activation is over with this deed: its End, or an admission that was refused.
pub(crate) fn is_over(deed: &Deed) -> bool
    ensures { result ≡ is_over deed.now }
{
    match deed {
        Deed::End => true,
        Deed::Admit { yes } => !*yes,
        _ => false,
    }
}

/// The point of an accepted ask.
fn accepted_point(deed: &Deed) -> Option<u32>
    ensures { result ≡ accepted_point deed.now }
{
    match deed {
        Deed::Ask { point, code, .. } => if *code == 0 { Some(*point) } else { None },
        _ => None,
    }
}

/// Whether a point has a server without a queue.
fn is_direct(p: &BusPlan, point: u32) -> bool
    ensures { result ≡ is_some (direct_key (plan_of p.now) point) }
{
    match p.server_of(point) {
        Some(server) => match p.servers.items().get(server as usize) {
            Some(server) => server.queue.is_none(),
            None => false,
        },
        None => false,
    }
}

/// Whether a deed is an accepted ask at a point of a server without a queue.
fn holds_back(p: &BusPlan, deed: &Deed) -> bool
    ensures { result ≡ is_some (option_and_then (direct_key (plan_of p.now)) (accepted_point deed.now)) }
{
    match accepted_point(deed) {
        Some(point) => is_direct(p, point),
        None => false,
    }
}

/// Whether an entry is what an activation does next, which this event started.
fn is_next(entry: &Entry, event: u32, next: &Next) -> bool
    ensures { result ≡ is_this (wanted_by event entry.now.deed) (wanted_in next.now) }
{
    match next {
        Next::Call(wish) => is_wish_of(entry, Some(event), wish),
        Next::Over => false,
    }
}

/// An activation that runs: the event that started it, and where it stands in its body.
#[derive(Drop)]
struct Running {
    event: u32,
    frame: Frame,
}

/// The activation of a key that runs, if one does. An ended one leaves its frame, in which the next one begins. Clauses see the one that
/// runs.
#[derive(Drop)]
struct Seat {
    last: Option<Running>,
    runs: bool,
}

impl Model for Seat {
    ghost use Rattle.std.specs.Prelude.{Option, None, if◌then◌else◌};
    ghost use Rattle.trace_walks.specs.declared.walk.Running.{Running};

    ghost Value = { Option Running };

    ghost view = { λ s. if s.runs then s.last else None };
}

impl Seat {
    ghost use Rattle.std.specs.Prelude.{◌≡◌, None, OnOk, is_some, option_map};
    ghost use Rattle.trace_walks.specs.Walking.{Begins, Hears};

    /// No activation has begun.
    fn new() -> Seat
        ensures { result ≡ None }
    {
        Seat {
            last: None,
            runs: false,
        }
    }

    /// The activation that runs.
    fn activation(&self) -> Option<&Running>
        ensures { option_map (λ running. running.now) result ≡ self.now }
    {
        if self.runs { self.last.as_ref() } else { None }
    }

    /// An activation of the key begins with this Start, by this event. An error says that there was no memory.
    fn begin(
        &mut self,
        alloc: Global,
        t: &TaskSet,
        key: ActKey,
        event: u32,
        start: &Deed,
    ) -> Result<(), Memory>
        ensures { OnOk result (Begins t.now key event start.now self.new) }
    {
        match &mut self.last {
            Some(last) => {
                last.frame.begin_again(t, key, start)?;
                last.event = event;
                self.runs = true;
                Ok(())
            }
            None => {
                let frame = Frame::for_activation(alloc, t, key, start)?;
                self.last = Some(Running { event, frame });
                self.runs = true;
                Ok(())
            }
        }
    }

    /// The activation that runs, if one does, hears an answer.
    fn hear(&mut self, t: &TaskSet, answer: &Deed)
        ensures { Hears t.now answer.now self.old self.new }
    {
        if self.runs {
            if let Some(last) = &mut self.last {
                last.frame.feed(t, answer);
            }
        }
    }

    /// The activation that runs is over.
    fn end(&mut self)
        ensures { self.new ≡ None }
    {
        self.runs = false;
    }
}

/// What is kept of the activations of a key along a trace: the one that runs, the point of its last entry if that is an accepted ask,
/// and whether the direct activation that it called has not ended since.
#[derive(Drop)]
pub struct Walk {
    running: Seat,
    asked: Option<u32>,
    held: bool,
}

impl Walk {
    ghost use Rattle.std.specs.Prelude.{◌≡◌, [], ◌∷◌, ℕ, true, false, None, Some, Option, OnOk, IfOk, is_some, length};
    ghost use Rattle.rte_value.specs.declared.kinds.ActKey.{ActKey};
    ghost use Rattle.rte_value.specs.declared.value.Value.{Value};
    ghost use Rattle.bus_semantics.specs.declared.entries.Deed.TheVariants.{Start};
    ghost use Rattle.bus_semantics.specs.declared.entries.Entry.{Entry};
    ghost use Rattle.bus_semantics.specs.History.{History, event_started, is_of, runs};
    ghost use Rattle.bus_semantics.specs.Actor.{is_held_back, is_wanted_next, starts_or_goes_on};
    ghost use Rattle.bus_semantics.specs.Owners.{key_fits};
    ghost use Rattle.bus_semantics.specs.Plan.{Plan, plan_of};
    ghost use Rattle.bus_semantics.specs.Wanted.{Wanted};
    ghost use Rattle.task_machine.specs.declared.instr.TaskSet.{TaskSet};
    ghost use Rattle.task_generator.specs.Promise.{AsksAsPlanned};
    ghost use Rattle.trace_walks.specs.Walking.{AreFresh, IsWanted, WalkStands, entry_of, event_of};

    /// A key to which nothing has happened.
    pub fn new() -> Walk
        ensures { (t : TaskSet) (p : Plan) (k : ActKey) → WalkStands t p k [] result }
    {
        Walk {
            running: Seat::new(),
            asked: None,
            held: false,
        }
    }

    /// The walks of so many keys to which nothing has happened. An error says that there was no memory.
    pub(crate) fn fresh(alloc: Global, count: usize) -> Result<Vec<Walk>, Memory>
        ensures whole { IfOk result (λ walks. length walks.items ≡ count) }
        ensures fresh { IfOk result (λ walks. AreFresh walks.items) }
    {
        let mut walks: Vec<Walk> = Vec::new(alloc);
        for _ in 0..count {
            let walk: Walk = Walk::new();
            walks.push(walk)?;
        }
        Ok(walks)
    }

    /// Whether an activation of the key runs.
    pub fn runs(&self) -> bool
        ensures { result ≡ is_some self.now.running }
    {
        self.running.activation().is_some()
    }

    /// The event that started the running activation.
    pub fn event(&self) -> Option<u32>
        ensures { result ≡ event_of self.now }
    {
        match self.running.activation() {
            Some(running) => Some(running.event),
            None => None,
        }
    }

    /// The call that the running activation makes next. None while none runs, and while it waits for the direct activation that it called.
    pub(crate) fn wanted(&self, t: &TaskSet) -> Next
        ensures { (p : Plan) (k : ActKey) (h : History) (w : Wanted) → AsksAsPlanned p t.now → key_fits p k ≡ true → WalkStands t.now p k h self.now →
            wanted_in result ≡ Some w → IsWanted p h k w }
    {
        if self.held {
            return Next::Over;
        }
        // Each arm returns: what the arms give to a match is copied once more behind it.
        match self.running.activation() {
            Some(running) => return running.frame.next_call(t),
            None => return Next::Over,
        }
    }

    /// Whether the running activation wants this next, by the body of its runnable.
    pub fn wants(&self, t: &TaskSet, entry: &Entry) -> bool
        ensures { (p : Plan) (k : ActKey) (h : History) → AsksAsPlanned p t.now → key_fits p k ≡ true → WalkStands t.now p k h self.now →
            result ≡ is_wanted_next p h k entry.now.deed }
    {
        match self.running.activation() {
            Some(running) => is_next(entry, running.event, &running.frame.next_call(t)),
            None => false,
        }
    }

    /// An activation begins with this Start, by this event. An error says that there was no memory.
    pub fn begin(
        &mut self,
        alloc: Global,
        t: &TaskSet,
        key: ActKey,
        event: u32,
        start: &Deed,
    ) -> Result<(), Memory>
        ensures { OnOk result ((p : Plan) (h : History) (point : Option ℕ) (value : Value) → start.now ≡ Start event point value →
            WalkStands t.now p key (entry_of key start.now ∷ h) self.new) }
    {
        self.running.begin(alloc, t, key, event, start)?;
        self.asked = None;
        self.held = false;
        Ok(())
    }

    /// The running activation hears what the bus answers to its wish.
    pub fn hear(&mut self, p: &BusPlan, t: &TaskSet, deed: &Deed)
        ensures { (k : ActKey) (h : History) → event_started deed.now ≡ None → runs k h ≡ true →
            WalkStands t.now (plan_of p.now) k h self.old → WalkStands t.now (plan_of p.now) k (entry_of k deed.now ∷ h) self.new }
    {
        if is_over(deed) {
            self.running.end();
        } else {
            self.running.hear(t, deed);
        }
        self.asked = accepted_point(deed);
        self.held = holds_back(p, deed);
    }

    /// The key's entry: an activation begins, or the running one hears what the bus answers to its wish. An error says that there was no
    /// memory.
    pub fn note(
        &mut self,
        alloc: Global,
        t: &TaskSet,
        p: &BusPlan,
        key: ActKey,
        deed: &Deed,
    ) -> Result<(), Memory>
        ensures { OnOk result ((h : History) → starts_or_goes_on (plan_of p.now) h key deed.now ≡ true →
            WalkStands t.now (plan_of p.now) key h self.old → WalkStands t.now (plan_of p.now) key (entry_of key deed.now ∷ h) self.new) }
    {
        match deed {
            Deed::Start { event, .. } => {
                self.begin(alloc, t, key, *event, deed)?;
                Ok(())
            }
            _ => {
                self.hear(p, t, deed);
                Ok(())
            }
        }
    }

    /// The direct activation that the key called has ended.
    pub fn release(&mut self)
        ensures released { self.new ≡ record { running = self.old.running; asked = self.old.asked; held = false } }
        ensures stands { (t : TaskSet) (p : Plan) (k : ActKey) (h : History) (e : Entry) → is_of k e ≡ false → is_held_back p (e ∷ h) k ≡ false →
            WalkStands t p k h self.old → WalkStands t p k (e ∷ h) self.new }
    {
        self.held = false;
    }

    /// Whether the key waits for the direct activation that it called.
    pub fn is_held(&self) -> bool
        ensures { result ≡ self.now.held }
    {
        self.held
    }

    /// The point of the key's last entry, if that is an accepted ask.
    pub fn asked(&self) -> Option<u32>
        ensures { result ≡ self.now.asked }
    {
        self.asked
    }
}
