//! Serial passes.

ghost use Rattle.std.specs.Prelude.{◌≡◌, ◌≤◌, [], length, true};
ghost use Rattle.bus_semantics.specs.Common.{History, stamps_count, plan_of, IsQuiet, IsIdle};
ghost use Rattle.core_runtime.specs.After.{after, are_within};
ghost use Rattle.core_runtime.specs.Nodes.{IsLawfulNode};
ghost use Rattle.core_runtime.specs.Rounds.{IsLater};
ghost use Rattle.core_runtime.specs.Turns.{NothingMayCome, EachTakesOne};

use crate::live::Live;
use crate::node::Node;
use crate::round_state::Round;
use bus_semantics::Stamped;
use core_lanes::Guesses;
use core_turn::{nothing_now_is_rest_of_the_core, resting_cores_are_at_rest};
use no_stall::no_history_stalls;
use std::mem;

impl<'a> Round<'a> {
    /// Each core makes one turn, in the order of their numbers.
    fn give_turns(&mut self)
        requires room { length self.old.cores ≤ self.old.room }
        requires empty { self.old.entries ≡ [] }
        ensures later { IsLater self.old self.new }
        ensures few { length self.new.entries ≤ length self.old.cores }
        ensures order { EachTakesOne (plan_of self.old.plan) self.old.bodies self.old.cores self.new.cores
            self.old.objects self.new.objects self.new.entries }
        ensures rest { self.new.entries ≡ [] → NothingMayCome (plan_of self.old.plan) self.old.bodies self.old.cores self.old.objects }
    {
        for number in 0..self.cores.len() {
            self.step(number);
        }
    }
}

/// Cores of later rounds hear of these entries as far as they have to.
fn tell_all(guesses: &Guesses, entries: &[Stamped]) {
    for made in entries {
        guesses.note(made);
    }
}

/// Each core makes one turn, in the order of their numbers: the first entry that may come in the order of its slots, or none if none may
/// come. What they make takes the place of earlier entries. It takes no memory: there has to be room for an entry of each core, as each
/// round makes it.
///
/// A pass without an entry is rest, and then all is quiet: no activation runs, no event is due, and each mode machine is stable and has
/// begun every accepted switch. For every history for which the node is lawful, these entries keep it legal, and the node is
/// lawful for it and them. None is the environment's, and stamps count from 0. Over the objects as the core before left them each
/// makes its entry.
pub fn serial_pass(n: &mut Node)
    requires spare { n.old.mapping.cores ≤ n.old.spare }
    ensures plan { n.new.plan ≡ n.old.plan }
    ensures mapping { n.new.mapping ≡ n.old.mapping }
    ensures bodies { n.new.bodies ≡ n.old.bodies }
    ensures spare { n.new.spare ≡ n.old.spare }
    ensures few { length n.new.entries ≤ n.old.mapping.cores }
    ensures order { EachTakesOne (plan_of n.old.plan) n.old.bodies n.old.cores n.new.cores n.old.objects n.new.objects n.new.entries }
    ensures within { are_within n.new.entries ≡ true }
    ensures stamps { stamps_count n.new.entries ≡ true }
    ensures lawful { (h : History) → IsLawfulNode n.old h → IsLawfulNode n.new (after n.new.entries h) }
    ensures rest { n.new.entries ≡ [] → (h : History) → IsLawfulNode n.old h → IsIdle (plan_of n.old.plan) n.old.mapping h }
    ensures quiet { n.new.entries ≡ [] → (h : History) → IsLawfulNode n.old h → IsQuiet (plan_of n.old.plan) h }
{
    nothing_now_is_rest_of_the_core();
    no_history_stalls();
    resting_cores_are_at_rest();
    let none = Live::none(*n.live.objects.allocator());
    let live = mem::replace(&mut n.live, none);
    let room = live.cores.len() as u32;
    let mut round = Round::new(&n.plan, &n.bodies, live, room);
    round.give_turns();
    n.live = round.into_live();
    tell_all(&n.guesses, n.live.entries.as_slice());
}
