//! Where an activation stands in its body.

ghost use Rattle.std.specs.Prelude.{◌≡◌, ◌≤◌, ◌<◌, ◌+◌, ◌^◌, ℕ, [], set, false, if◌then◌else◌, Some, IfOk, OnOk};
ghost use Rattle.std.specs.Vec.{vec_capacity};
ghost use Rattle.task_machine.specs.Instructions.{instruction_of};
ghost use Rattle.task_machine.specs.Machine.{Spot, Rest, silently, settled, answered};
ghost use Rattle.task_machine.specs.Spots.{store_of, room_of, spot_of, code_in, first_spot, no_spot};

use crate::Memory;
use crate::finding::instr_at;
use crate::instr::{Body, Instr, Targets};
use crate::store::{Store, make_room, refill};
use crate::taking::is_over;
use bus_semantics::Deed;
use rte_value::Word;
use std::alloc::Global;

/// Where an activation stands in its body. Clauses see it by `spot_of`.
#[derive(Drop)]
pub struct Place {
    /// How many instructions it may still execute.
    pub left: u64,
    /// The place of the next instruction.
    pub place: usize,
    /// What it works on.
    pub store: Store,
    /// The counters of its loops.
    pub counters: Vec<u32>,
}

/// The counter takes the number. One that there is not takes nothing.
fn count(counters: &mut Vec<u32>, counter: u32, number: u32)
    ensures counters { counters.new.items ≡ set counters.old.items counter number }
    ensures room { vec_capacity counters.new ≡ vec_capacity counters.old }
{
    if let Some(place) = counters.get_mut(counter as usize) {
        *place = number;
    }
}

impl Place {
    /// A place with the room for so many variables, counters, slots for fetched values and slots for values to publish. No activation has
    /// begun.
    pub fn with_room(
        alloc: Global,
        vars: u32,
        counters: u32,
        fetched: usize,
        written: usize,
    ) -> Result<Place, Memory>
        ensures vars { IfOk result (λ at. vars ≤ vec_capacity at.store.vars) }
        ensures counters { IfOk result (λ at. counters ≤ vec_capacity at.counters) }
        ensures fetched { IfOk result (λ at. fetched ≤ vec_capacity at.store.fetched) }
        ensures written { IfOk result (λ at. written ≤ vec_capacity at.store.written) }
    {
        let vars = Vec::with_capacity(alloc, vars as usize)?;
        let counters = Vec::with_capacity(alloc, counters as usize)?;
        let fetched = Vec::with_capacity(alloc, fetched)?;
        let written = Vec::with_capacity(alloc, written)?;
        Ok(Place {
            left: 0,
            place: 0,
            store: Store {
                vars,
                fetched,
                written,
            },
            counters,
        })
    }

    /// Makes the room that this body takes, where there is less. An error says that there was no memory.
    pub fn make_room(&mut self, body: &Body) -> Result<(), Memory>
        ensures vars { OnOk result (body.now.vars ≤ vec_capacity self.new.store.vars) }
        ensures counters { OnOk result (body.now.counters ≤ vec_capacity self.new.counters) }
        ensures fetched { OnOk result (body.now.fetched ≤ vec_capacity self.new.store.fetched) }
        ensures written { OnOk result (body.now.written ≤ vec_capacity self.new.store.written) }
    {
        make_room(&mut self.store.vars, body.vars as usize)?;
        make_room(&mut self.counters, body.counters as usize)?;
        make_room(&mut self.store.fetched, body.fetched)?;
        make_room(&mut self.store.written, body.written)?;
        Ok(())
    }

    /// Executes an instruction that asks nothing of the bus. Answers whether it is one; a call changes nothing.
    #[inline(always)]
    fn step(&mut self, instr: &Instr, targets: &Targets) -> bool
        requires within { self.old.place < 2 ^ 63 + 2 ^ 32 }
        ensures stepped { (rest : Rest) (here : Spot) → silently (Some (instruction_of instr.now targets.now)) rest self.old.place (store_of self.old.store) self.old.counters.items here
            ≡ (if result then rest self.new.place (store_of self.new.store) self.new.counters.items else here) }
        ensures budget { self.new.left ≡ self.old.left }
        ensures call { result ≡ false → spot_of self.new ≡ spot_of self.old }
        ensures room { room_of self.new.store ≡ room_of self.old.store }
        ensures counters_room { vec_capacity self.new.counters ≡ vec_capacity self.old.counters }
    {
        match instr {
            Instr::Set { var, value } => {
                let word = value.value(&self.store.vars);
                self.store.put(*var, word);
                self.place += 1;
            }
            Instr::Load { vars, access } => {
                self.store.load(vars.items(), targets.fetched_slot(*access));
                self.place += 1;
            }
            Instr::Keep { access, given } => {
                let value = given.value(&self.store.vars);
                self.store.keep(targets.written_slot(*access), value);
                self.place += 1;
            }
            Instr::Unless { cond, past } => {
                if cond.value(&self.store.vars) == 0 {
                    self.place += 1 + *past as usize;
                } else {
                    self.place += 1;
                }
            }
            Instr::Unwritten { slot, past } => {
                if self.store.is_unwritten(*slot) {
                    self.place += 1 + *past as usize;
                } else {
                    self.place += 1;
                }
            }
            Instr::NoneWritten { slots, past } => {
                if self.store.any_written(slots.items()) {
                    self.place += 1;
                } else {
                    self.place += 1 + *past as usize;
                }
            }
            Instr::Skip { past } => self.place += 1 + *past as usize,
            Instr::Repeat {
                counter,
                times,
                past,
            } => {
                if *times == 0 {
                    self.place += 1 + *past as usize;
                } else {
                    count(&mut self.counters, *counter, *times);
                    self.place += 1;
                }
            }
            Instr::Again { counter, back } => {
                let counted = self.counters.get(*counter as usize).copied().unwrap_or(0);
                if counted > 1 {
                    count(&mut self.counters, *counter, counted - 1);
                    self.place = self.place.saturating_sub(*back as usize);
                } else {
                    self.place += 1;
                }
            }
            Instr::Call { .. } => return false,
        }
        true
    }

    /// Executes the instructions that ask nothing of the bus, one after the other, while the budget lasts. It is written into `feed`:
    /// few of them stand between two calls, so that a function of its own would cost more than what it does.
    #[inline(always)]
    fn settle(&mut self, body: &Body)
        ensures settled { spot_of self.new ≡ settled (code_in body.now) self.old.left self.old.place (store_of self.old.store) self.old.counters.items }
        ensures room { room_of self.new.store ≡ room_of self.old.store }
        ensures counters_room { vec_capacity self.new.counters ≡ vec_capacity self.old.counters }
    {
        let before = body.before;
        let program = body.code.instrs.items();
        while self.left > 0 {
            let around = body.around.items();
            match instr_at(around, before, program, self.place) {
                Some(instr) => {
                    if !self.step(instr, &body.targets) {
                        return;
                    }
                }
                None => return,
            }
            self.left -= 1;
        }
    }

    /// An activation begins at a place in this body, with these values of the `in` arguments.
    pub fn begin(&mut self, body: &Body, place: usize, words: &[Word])
        requires vars { body.now.vars ≤ vec_capacity self.old.store.vars }
        requires counters { body.now.counters ≤ vec_capacity self.old.counters }
        requires fetched { body.now.fetched ≤ vec_capacity self.old.store.fetched }
        requires written { body.now.written ≤ vec_capacity self.old.store.written }
        ensures first { spot_of self.new ≡ first_spot body.now place words.now }
        ensures room { room_of self.new.store ≡ room_of self.old.store }
        ensures counters_room { vec_capacity self.new.counters ≡ vec_capacity self.old.counters }
    {
        self.left = body.budget;
        self.place = place;
        self.store.begin(body, words);
        refill(&mut self.counters, body.counters as usize, 0);
        self.settle(body);
    }

    /// An activation begins if there is no body, and is over.
    pub fn begin_nowhere(&mut self)
        ensures first { spot_of self.new ≡ no_spot }
        ensures room { room_of self.new.store ≡ room_of self.old.store }
        ensures counters_room { vec_capacity self.new.counters ≡ vec_capacity self.old.counters }
    {
        self.left = 0;
        self.place = 0;
        self.store.vars.clear();
        self.store.fetched.clear();
        self.store.written.clear();
        self.counters.clear();
    }

    /// Takes the answer to the call where it stands in a body, and goes on to the next one, or is over with this answer.
    pub fn feed(&mut self, body: &Body, answer: &Deed)
        ensures answered { spot_of self.new ≡ answered (code_in body.now) answer.now (spot_of self.old) }
        ensures room { room_of self.new.store ≡ room_of self.old.store }
        ensures counters_room { vec_capacity self.new.counters ≡ vec_capacity self.old.counters }
    {
        if is_over(answer) {
            self.left = 0;
            return;
        }
        if self.left == 0 {
            return;
        }
        if let Some(Instr::Call { taken, .. }) = body.at(self.place) {
            taken.take(answer, &mut self.store);
            self.place += 1 + taken.passes(answer);
            self.left -= 1;
            self.settle(body);
        }
    }

    /// An answer if there is no body changes nothing, but the last one ends the activation.
    pub fn feed_nowhere(&mut self, answer: &Deed)
        ensures answered { spot_of self.new ≡ answered [] answer.now (spot_of self.old) }
        ensures room { room_of self.new.store ≡ room_of self.old.store }
        ensures counters_room { vec_capacity self.new.counters ≡ vec_capacity self.old.counters }
    {
        if is_over(answer) {
            self.left = 0;
        }
    }
}
