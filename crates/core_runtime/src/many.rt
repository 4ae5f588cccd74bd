//! Rounds of several cores, at the same time.

ghost use Rattle.std.specs.Prelude.{◌≡◌, ◌≤◌, ◌*◌, OnErr, OnOk, None, length, true};
ghost use Rattle.bus_semantics.specs.Common.{vec_capacity, plan_of, History, stamps_count};
ghost use Rattle.bus_semantics.specs.declared.script.Mapping.{Mapping};
ghost use Rattle.core_runtime.specs.After.{after, are_within};
ghost use Rattle.core_runtime.specs.Lives.{HaveTurned, IsSameLive};
ghost use Rattle.core_runtime.specs.Nodes.{IsLawfulNode, IsNode, IsSameNode};
ghost use Rattle.core_runtime.specs.Watching.{IsWatch};

use crate::Memory;
use crate::live::Live;
use crate::node::Node;
use crate::watch::{Watch, rouse_all};
use bus_semantics::{BusPlan, Stamped};
use core_lanes::{Changing, Guesses, Together, run_together};
use rte_text::Gate;
use std::alloc::{AllocError, Global};
use std::mem;
use std::thread::Threads;
use task_machine::TaskSet;

/// Puts these entries in the place of earlier ones. There has to be room for them.
fn refilled(entries: Vec<Stamped>, made: &[Stamped]) -> Vec<Stamped>
    requires { length made.now ≤ vec_capacity entries }
    ensures items { result.items ≡ made.now }
    ensures capacity { vec_capacity result ≡ vec_capacity entries }
{
    let mut entries = entries;
    entries.clear();
    for stamped in made {
        entries.push_reserved(*stamped);
    }
    entries
}

/// Empties a list, and takes room in it for so many entries. The only error is that there is no memory. The list has its own allocator; one
/// is passed so that the signature says what takes memory.
fn make_room(_alloc: Global, list: &mut Vec<Stamped>, room: usize) -> Result<(), AllocError> {
    list.clear();
    list.reserve(room)
}

/// The entries of a round, in a list with as much room as the list of earlier ones has, and a list whose room is spare. If both lists
/// have the same room, they change places and nothing is copied.
fn exchanged(earlier: Vec<Stamped>, made: Vec<Stamped>) -> (Vec<Stamped>, Vec<Stamped>)
    requires { length made.items ≤ vec_capacity earlier }
    ensures items { result.0.items ≡ made.items }
    ensures capacity { vec_capacity result.0 ≡ vec_capacity earlier }
{
    if made.capacity() == earlier.capacity() {
        return (made, earlier);
    }
    let entries = refilled(earlier, made.as_slice());
    (entries, made)
}

/// Cores make turns at the same time, and their entries take the place of earlier ones, for which there has to be room. The only error is that
/// there is no memory, and then no core made a turn.
fn turn_many<R: Threads + Sync, G: Gate>(
    rt: &R,
    alloc: Global,
    p: &BusPlan,
    t: &TaskSet,
    live: Live,
    guesses: &Guesses,
    gate: &G,
) -> (Live, Result<(), Memory>)
    requires node { (m : Mapping) × IsNode (plan_of p.now) m t.now live.cores.items live.objects.items }
    requires watched { IsWatch (plan_of p.now) t.now live.objects.items None live.cores.items live.watch }
    requires count { (1 ≤ length live.cores.items) × (length live.cores.items ≤ 8) }
    requires room { 1024 * length live.cores.items ≤ vec_capacity live.entries }
    ensures ran { OnOk result.1 (HaveTurned (plan_of p.now) t.now live result.0) }
    ensures same { OnErr result.1 (IsSameLive live result.0) }
{
    let Live {
        cores,
        objects,
        watch,
        entries,
        spare,
    } = live;
    let Watch {
        awake,
        seats,
        starters,
    } = watch;
    let changing = Changing {
        cores,
        objects,
        awake,
        spare,
    };
    match run_together(rt, alloc, p, t, changing, guesses, gate) {
        Together::Ran(changing, made) => {
            let Changing {
                cores,
                objects,
                mut awake,
                mut spare,
            } = changing;
            // What of them sleeps is a guess now.
            rouse_all(&mut awake, cores.as_slice());
            let watch = Watch {
                awake,
                seats,
                starters,
            };
            let (entries, free) = exchanged(entries, made);
            spare.entries = free;
            let live = Live {
                cores,
                objects,
                watch,
                entries,
                spare,
            };
            (live, Ok(()))
        }
        Together::Memory(changing) => {
            let Changing {
                cores,
                objects,
                awake,
                spare,
            } = changing;
            let watch = Watch {
                awake,
                seats,
                starters,
            };
            let live = Live {
                cores,
                objects,
                watch,
                entries,
                spare,
            };
            (live, Err(AllocError))
        }
    }
}

impl Node {
    /// The cores of a node make a round of turns at the same time, each in a thread of its own. There has to be room for 1,024
    /// entries of each core. The only error is that there is no memory, and then no core made a turn.
    pub(crate) fn run_many<R: Threads + Sync, G: Gate>(
        &mut self,
        rt: &R,
        alloc: Global,
        gate: &G,
    ) -> Result<(), Memory>
        requires spare { 1024 * self.old.mapping.cores ≤ self.old.spare }
        ensures plan { self.new.plan ≡ self.old.plan }
        ensures mapping { self.new.mapping ≡ self.old.mapping }
        ensures bodies { self.new.bodies ≡ self.old.bodies }
        ensures spare { self.new.spare ≡ self.old.spare }
        ensures unchanged { OnErr result (IsSameNode self.old self.new) }
        ensures few { OnOk result (length self.new.entries ≤ 1024 * self.old.mapping.cores) }
        ensures within { OnOk result (are_within self.new.entries ≡ true) }
        ensures stamps { OnOk result (stamps_count self.new.entries ≡ true) }
        ensures lawful { OnOk result ((h : History) → IsLawfulNode self.old h → IsLawfulNode self.new (after self.new.entries h)) }
    {
        let room = self.live.entries.capacity();
        make_room(alloc, &mut self.live.spare.entries, room)?;
        let live = mem::replace(&mut self.live, Live::none(alloc));
        let (live, ran) = turn_many(
            rt,
            alloc,
            &self.plan,
            &self.bodies,
            live,
            &self.guesses,
            gate,
        );
        self.live = live;
        ran
    }
}
