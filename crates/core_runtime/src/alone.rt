//! Rounds of one core.

ghost use Rattle.std.specs.Prelude.{◌≡◌, ◌≤◌, ◌⊎◌, [], length, true};
ghost use Rattle.bus_semantics.specs.Common.{History, stamps_count, plan_of, IsIdle};
ghost use Rattle.core_runtime.specs.After.{after, are_within};
ghost use Rattle.core_runtime.specs.Nodes.{IsLawfulNode};
ghost use Rattle.core_runtime.specs.Rounds.{IsLater};
ghost use Rattle.core_runtime.specs.Turns.{NothingMayCome};

use crate::live::Live;
use crate::node::Node;
use crate::round_state::Round;
use core_turn::{nothing_now_is_rest_of_the_core, resting_cores_are_at_rest};
use no_stall::no_history_stalls;
use rte_text::Gate;
use std::mem;

impl<'a> Round<'a> {
    /// A core that has the objects to itself makes turns until it has made 1,024 entries, or one turn makes none: nothing may
    /// come then, and any further turn would be the same.
    fn go_alone<G: Gate>(&mut self, gate: &G)
        requires alone { length self.old.cores ≡ 1 }
        requires room { 1024 ≤ self.old.room }
        requires empty { self.old.entries ≡ [] }
        ensures later { IsLater self.old self.new }
        ensures end { (length self.new.entries ≡ 1024)
            ⊎ NothingMayCome (plan_of self.new.plan) self.new.bodies self.new.cores self.new.objects }
    {
        for turns in 0..1024u32 {
            gate.pass(0);
            let made = self.step(0);
            if !made {
                return;
            }
        }
    }
}

impl Node {
    /// A node of one core makes a round of turns on the caller's thread. It takes no memory: there has to be room for 1,024 entries.
    pub(crate) fn run_alone<G: Gate>(&mut self, gate: &G)
        requires one { self.old.mapping.cores ≡ 1 }
        requires spare { 1024 ≤ self.old.spare }
        ensures plan { self.new.plan ≡ self.old.plan }
        ensures mapping { self.new.mapping ≡ self.old.mapping }
        ensures bodies { self.new.bodies ≡ self.old.bodies }
        ensures spare { self.new.spare ≡ self.old.spare }
        ensures few { length self.new.entries ≤ 1024 }
        ensures within { are_within self.new.entries ≡ true }
        ensures stamps { stamps_count self.new.entries ≡ true }
        ensures lawful { (h : History) → IsLawfulNode self.old h → IsLawfulNode self.new (after self.new.entries h) }
        ensures end { (length self.new.entries ≡ 1024)
            ⊎ ((h : History) → IsLawfulNode self.old h → IsIdle (plan_of self.old.plan) self.old.mapping (after self.new.entries h)) }
    {
        nothing_now_is_rest_of_the_core();
        no_history_stalls();
        resting_cores_are_at_rest();
        let none = Live::none(*self.live.objects.allocator());
        let live = mem::replace(&mut self.live, none);
        let mut round = Round::new(&self.plan, &self.bodies, live, 1024);
        round.go_alone(gate);
        self.live = round.into_live();
    }
}
