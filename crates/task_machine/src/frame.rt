//! Frames, which run bodies.

ghost use Rattle.std.specs.Prelude.{◌≡◌, ◌++◌, ◌∷◌, [], List, length, get_or, pos, Some, None, slice_get, IfOk, OnOk, MatchOption};
ghost use Rattle.bus_semantics.specs.Common.{option_copied, ActKey, declared_code, results, wanted_of, to_write, to_send, to_ask, to_switch, to_publish, to_publish_all, to_return};
ghost use Rattle.bus_semantics.specs.declared.entries.Deed.{Deed};
ghost use Rattle.task_machine.specs.declared.instr.Body.{Body};
ghost use Rattle.task_machine.specs.Instructions.{requested};
ghost use Rattle.task_machine.specs.Spots.{store_of};
ghost use Rattle.task_machine.specs.Store.{written_in, words_or_none};
ghost use Rattle.task_machine.specs.Listed.{marks_of, words_written};
ghost use Rattle.task_machine.specs.Words.{words_given};
ghost use Rattle.task_machine.specs.Frames.{event_in, words_started, first_place, most, asks, Stands, IsMadeFor, wanted_here, wanted_in};

use crate::Memory;
use crate::given::Given;
use crate::instr::{Body, Instr, Request, TaskSet};
use crate::place::Place;
use crate::returned::Returned;
use crate::store::Store;
use bus_semantics::{Deed, Wish};
use rte_value::{ActKey, Value, Word};
use std::alloc::Global;
use std::marker::Model;

/// What an activation does next.
#[derive(Clone, Copy)]
pub enum Next {
    /// It calls the bus.
    Call(Wish),
    /// It is over.
    Over,
}

/// An activation in its body. One frame runs one activation at a time. One that is made for all bodies takes no memory after `new`.
#[derive(Drop)]
pub struct Frame {
    key: ActKey,
    event: u32,
    at: Place,
}

impl Model for Frame {
    ghost use Rattle.std.specs.Vec.{vec_capacity};
    ghost use Rattle.task_machine.specs.Spots.{spot_of, room_of};
    ghost use Rattle.task_machine.specs.Standing.{Standing};

    ghost Value = { Standing };

    ghost view = { λ f. record { key = f.key; event = f.event; at = spot_of f.at; room = room_of f.at.store; counters_room = vec_capacity f.at.counters } };
}

/// The most variables that a body has.
#[tactic(auto, using(crate::proofs::Most::most_turn, crate::proofs::Most::most_end))]
fn most_vars(bodies: &[Body]) -> u32
    ensures { result ≡ most (λ (b : Body). b.vars) bodies.now }
{
    let mut found = 0;
    for body in bodies {
        found = found.max(body.vars);
    }
    found
}

/// The most counters that a body has.
#[tactic(auto, using(crate::proofs::Most::most_turn, crate::proofs::Most::most_end))]
fn most_counters(bodies: &[Body]) -> u32
    ensures { result ≡ most (λ (b : Body). b.counters) bodies.now }
{
    let mut found = 0;
    for body in bodies {
        found = found.max(body.counters);
    }
    found
}

/// The most slots for fetched values that a body has.
#[tactic(auto, using(crate::proofs::Most::most_turn, crate::proofs::Most::most_end))]
fn most_fetched(bodies: &[Body]) -> usize
    ensures { result ≡ most (λ (b : Body). b.fetched) bodies.now }
{
    let mut found = 0;
    for body in bodies {
        found = found.max(body.fetched);
    }
    found
}

/// The most slots for values to publish that a body has.
#[tactic(auto, using(crate::proofs::Most::most_turn, crate::proofs::Most::most_end))]
fn most_written(bodies: &[Body]) -> usize
    ensures { result ≡ most (λ (b : Body). b.written) bodies.now }
{
    let mut found = 0;
    for body in bodies {
        found = found.max(body.written);
    }
    found
}

/// The event of a Start, and 0 for another deed.
fn event_of(start: &Deed) -> u32
    ensures { result ≡ event_in start.now }
{
    match start {
        Deed::Start { event, .. } => *event,
        _ => 0,
    }
}

/// The values that a Start gives, and none for another deed.
fn words_of_start(start: &Deed) -> &[Word]
    ensures { result.now ≡ words_started start.now }
{
    match start {
        Deed::Start { value, .. } => value.words(),
        _ => &[],
    }
}

/// Where an activation that this event starts begins in its body.
fn first_place(t: &TaskSet, event: u32) -> usize
    ensures { result ≡ first_place t.now event }
{
    match t.disabled.items().get(event as usize) {
        Some(true) => 0,
        _ => 1,
    }
}

/// The body of a runnable.
fn body_of(t: &TaskSet, runnable: u32) -> Option<&Body>
    ensures { option_copied result ≡ slice_get t.now.bodies runnable }
{
    t.bodies.items().get(runnable as usize)
}

/// What a write of one word asks. What every call does next is made in a function of its own that is written into `next_call`, if it
/// has a value: the room of a value is cleared where a function begins, so in `next_call` it would be for a call without one too.
#[inline(always)]
fn write_word(elem: u32, word: Word) -> Next
    ensures { wanted_in result ≡ Some (to_write elem (word ∷ [])) }
{
    Next::Call(Wish::Write {
        elem,
        value: Value::of_word(word),
    })
}

/// What a send of one word asks.
#[inline(always)]
fn send_word(elem: u32, word: Word) -> Next
    ensures { wanted_in result ≡ Some (to_send elem (word ∷ [])) }
{
    Next::Call(Wish::Send {
        elem,
        value: Value::of_word(word),
    })
}

/// What a call of an operation with one argument asks.
#[inline(always)]
fn ask_word(point: u32, word: Word) -> Next
    ensures { wanted_in result ≡ Some (to_ask point (word ∷ [])) }
{
    Next::Call(Wish::Ask {
        point,
        value: Value::of_word(word),
    })
}

/// What a write asks.
#[inline(always)]
fn write_of(elem: u32, given: &Given, vars: &[Word]) -> Next
    ensures { wanted_in result ≡ Some (to_write elem (words_given vars.now given.now.words.items)) }
{
    Next::Call(Wish::Write {
        elem,
        value: given.value(vars),
    })
}

/// What a send asks.
#[inline(always)]
fn send_of(elem: u32, given: &Given, vars: &[Word]) -> Next
    ensures { wanted_in result ≡ Some (to_send elem (words_given vars.now given.now.words.items)) }
{
    Next::Call(Wish::Send {
        elem,
        value: given.value(vars),
    })
}

/// What a call of an operation asks.
#[inline(always)]
fn ask_of(point: u32, given: &Given, vars: &[Word]) -> Next
    ensures { wanted_in result ≡ Some (to_ask point (words_given vars.now given.now.words.items)) }
{
    Next::Call(Wish::Ask {
        point,
        value: given.value(vars),
    })
}

/// What a switch asks.
#[inline(always)]
fn switch_of(machine: u32, mode: u32) -> Next
    ensures { wanted_in result ≡ Some (to_switch machine mode) }
{
    Next::Call(Wish::Switch { machine, mode })
}

/// What a publication asks.
#[inline(always)]
fn publish_of(elem: u32, slot: usize, store: &Store) -> Next
    ensures { wanted_in result ≡ Some (to_publish elem (words_or_none (written_in slot (store_of store.now)))) }
{
    Next::Call(Wish::Publish {
        elem,
        value: store.published(slot),
    })
}

/// What a publication of a coherent list asks.
#[inline(always)]
fn publish_all_of(list: u32, slots: &[usize], store: &Store) -> Next
    ensures { wanted_in result ≡ Some (to_publish_all list (marks_of slots.now (store_of store.now)) (words_written slots.now (store_of store.now))) }
{
    Next::Call(Wish::PublishAll {
        list,
        written: store.marks(slots),
        value: store.published_together(slots),
    })
}

/// What a return asks.
#[inline(always)]
fn return_of(returned: &Returned, vars: &[Word]) -> Next
    ensures { wanted_in result ≡ Some (to_return (declared_code returned.now.errors (get_or vars.now (length returned.now.arguments.items) (pos 0)))
        (results returned.now.arguments.items vars.now)) }
{
    Next::Call(Wish::Return {
        code: returned.code(vars),
        value: returned.value(vars),
    })
}

impl Frame {
    /// A frame for these bodies, with the room of the largest. No activation has begun. So beginning, asking and feeding never
    /// answer out of memory.
    pub fn new(alloc: Global, t: &TaskSet) -> Result<Frame, Memory>
        ensures { IfOk result (λ f. IsMadeFor t.now f) }
    {
        let bodies = t.bodies.items();
        let vars = most_vars(bodies);
        let counters = most_counters(bodies);
        let fetched = most_fetched(bodies);
        let written = most_written(bodies);
        let at = Place::with_room(alloc, vars, counters, fetched, written)?;
        Ok(Frame {
            key: ActKey {
                runnable: 0,
                point: None,
            },
            event: 0,
            at,
        })
    }

    /// A frame in which an activation of the key begins with this Start. It has the room of that body alone: a later activation
    /// begins in it by `begin_again`. An error says that there was no memory.
    pub fn for_activation(
        alloc: Global,
        t: &TaskSet,
        key: ActKey,
        start: &Deed,
    ) -> Result<Frame, Memory>
        ensures { IfOk result (λ f. Stands t.now key start.now [] f) }
    {
        let event = event_of(start);
        match t.bodies.items().get(key.runnable as usize) {
            Some(body) => {
                let (vars, counters) = (body.vars, body.counters);
                let mut at = Place::with_room(alloc, vars, counters, body.fetched, body.written)?;
                at.begin(body, first_place(t, event), words_of_start(start));
                Ok(Frame { key, event, at })
            }
            None => {
                let mut at = Place::with_room(alloc, 0, 0, 0, 0)?;
                at.begin_nowhere();
                Ok(Frame { key, event, at })
            }
        }
    }

    /// An activation of the key begins with this Start (SWS_RTE: runnable activation). The frame was made for these bodies. The
    /// frame then stands for the key, this Start and no answers.
    pub fn begin(&mut self, t: &TaskSet, key: ActKey, start: &Deed)
        requires made_for { IsMadeFor t.now self.old }
        ensures stands { Stands t.now key start.now [] self.new }
        ensures room { self.new.room ≡ self.old.room }
        ensures counters_room { self.new.counters_room ≡ self.old.counters_room }
    {
        self.key = key;
        self.event = event_of(start);
        match t.bodies.items().get(key.runnable as usize) {
            Some(body) => {
                let place = first_place(t, self.event);
                self.at.begin(body, place, words_of_start(start));
            }
            None => self.at.begin_nowhere(),
        }
    }

    /// An activation of the key begins with this Start in this frame, which gets the room of that body where it has less. An error says that there
    /// was no memory; what the frame stands for is open then.
    pub fn begin_again(&mut self, t: &TaskSet, key: ActKey, start: &Deed) -> Result<(), Memory>
        ensures { OnOk result (Stands t.now key start.now [] self.new) }
    {
        self.key = key;
        self.event = event_of(start);
        match t.bodies.items().get(key.runnable as usize) {
            Some(body) => {
                let place = first_place(t, self.event);
                self.at.make_room(body)?;
                self.at.begin(body, place, words_of_start(start));
                Ok(())
            }
            None => {
                self.at.begin_nowhere();
                Ok(())
            }
        }
    }

    /// The request of the call where the activation stands, and what the call names. None if it is over.
    #[inline(always)]
    fn call_here<'a>(&self, t: &'a TaskSet) -> Option<(&'a Request, u32)>
        ensures { MatchOption result (wanted_here t.now self.now ≡ None)
            (λ call. wanted_here t.now self.now ≡ Some (requested call.0.now call.1 self.now.event self.now.at.store)) }
    {
        if self.at.left == 0 {
            return None;
        }
        let body = body_of(t, self.key.runnable)?;
        match body.at(self.at.place)? {
            Instr::Call {
                request,
                access,
                ..
            } => Some((request, body.targets.number(*access))),
            _ => None,
        }
    }

    /// What the activation does next: the call that it makes, or that it is over. It may be asked again and again.
    pub fn next_call(&self, t: &TaskSet) -> Next
        ensures { (k : ActKey) (start : Deed) (answers : List Deed) → Stands t.now k start answers self.now → wanted_in result ≡ asks t.now k start answers }
    {
        let Some((request, named)) = self.call_here(t) else {
            return Next::Over;
        };
        let (event, store) = (self.event, &self.at.store);
        // Each arm returns: what the arms give to a match is copied once more behind it.
        match request {
            Request::Admit => return Next::Call(Wish::Admit { event }),
            Request::Fetch { elem } => return Next::Call(Wish::Fetch { elem: *elem }),
            Request::Write { given } => match given.only(&store.vars) {
                Some(word) => return write_word(named, word),
                None => return write_of(named, given, &store.vars),
            },
            Request::Read => return Next::Call(Wish::Read { elem: named }),
            Request::Invalidate => return Next::Call(Wish::Invalidate { elem: named }),
            Request::IsUpdated => return Next::Call(Wish::IsUpdated { elem: named }),
            Request::Send { given } => match given.only(&store.vars) {
                Some(word) => return send_word(named, word),
                None => return send_of(named, given, &store.vars),
            },
            Request::Receive => return Next::Call(Wish::Receive { elem: named }),
            Request::Ask { given } => match given.only(&store.vars) {
                Some(word) => return ask_word(named, word),
                None => return ask_of(named, given, &store.vars),
            },
            Request::Answer => return Next::Call(Wish::Answer { point: named }),
            Request::TakeResult => return Next::Call(Wish::TakeResult { point: named }),
            Request::Enter => return Next::Call(Wish::Enter { area: named }),
            Request::Leave => return Next::Call(Wish::Leave { area: named }),
            Request::Switch { mode } => return switch_of(named, *mode),
            Request::Mode => return Next::Call(Wish::Mode { port: named }),
            Request::Publish { elem, slot } => return publish_of(*elem, *slot, store),
            Request::FetchAll { list } => return Next::Call(Wish::FetchAll { list: *list }),
            Request::PublishAll { list, slots } => return publish_all_of(
                *list,
                slots.items(),
                store,
            ),
            Request::Return(returned) => return return_of(returned, &store.vars),
            Request::End => return Next::Call(Wish::End { event }),
        }
    }

    /// The bus has answered the call that `next_call` gave. If the activation is over nothing changes. The frame then stands
    /// for one answer more.
    pub fn feed(&mut self, t: &TaskSet, answer: &Deed)
        ensures stands { (k : ActKey) (start : Deed) (answers : List Deed) → Stands t.now k start answers self.old → Stands t.now k start (answers ++ answer.now ∷ []) self.new }
        ensures room { self.new.room ≡ self.old.room }
        ensures counters_room { self.new.counters_room ≡ self.old.counters_room }
    {
        match body_of(t, self.key.runnable) {
            Some(body) => self.at.feed(body, answer),
            None => self.at.feed_nowhere(answer),
        }
    }
}
