//! Rounds: turns of all cores, until each has left.

ghost use Rattle.std.specs.Prelude.{◌≡◌, ◌≤◌, ◌⊎◌, ◌*◌, OnOk, length, true};
ghost use Rattle.bus_semantics.specs.Common.{History, stamps_count, plan_of, IsIdle};
ghost use Rattle.core_runtime.specs.declared.round.RoundRun.TheVariants.{Memory, Ran};
ghost use Rattle.core_runtime.specs.After.{after, are_within};
ghost use Rattle.core_runtime.specs.Nodes.{IsLawfulNode, IsSameNode};

use crate::node::Node;
use rte_text::Gate;
use std::alloc::{AllocError, Global};
use std::thread::Threads;

/// What came of a round.
#[derive(Clone, Copy, Debug, PartialEq, Eq)]
pub enum RoundRun {
    /// The cores made their turns.
    Ran,
    /// There was no memory for the round, and no core made a turn.
    Memory,
}

/// Takes room for the entries of a round. The only error is that there is no memory. The list has its own allocator; one is passed so that
/// the signature says what takes memory.
fn make_ready(_alloc: Global, n: &mut Node) -> Result<(), AllocError>
    ensures room { OnOk result (1024 * n.old.mapping.cores ≤ n.new.spare) }
    ensures kept { n.old.spare ≤ n.new.spare }
    ensures same { IsSameNode n.old n.new }
{
    n.live.entries.reserve(1024 * n.live.cores.len())
}

/// The cores make a round of turns: two and more at the same time, each in a thread of its own over a table that they share, and a single
/// one on the caller's thread. A core makes turns until it leaves, after 1,024 entries of its own or 64 turns in a row without one, and
/// passes the gate before each turn. What they make, at most 1,024 entries for each core, takes the place of earlier entries. All memory
/// is taken before the first turn; if there is none, the node is as it was, and has room for no fewer entries.
///
/// A single core leaves after the first turn without an entry, since nothing may come then. For every history for which the node
/// is lawful, these entries, in order of stamps, keep it legal, and the node is lawful for it and them. After a round of one core
/// with fewer than 1,024 entries `idle` holds.
pub fn run_round<R: Threads + Sync, G: Gate>(
    rt: &R,
    alloc: Global,
    n: &mut Node,
    gate: &G,
) -> RoundRun
    ensures plan { n.new.plan ≡ n.old.plan }
    ensures mapping { n.new.mapping ≡ n.old.mapping }
    ensures bodies { n.new.bodies ≡ n.old.bodies }
    ensures unchanged { result ≡ Memory → IsSameNode n.old n.new }
    ensures kept { n.old.spare ≤ n.new.spare }
    ensures room { result ≡ Ran → 1024 * n.old.mapping.cores ≤ n.new.spare }
    ensures few { result ≡ Ran → length n.new.entries ≤ 1024 * n.old.mapping.cores }
    ensures within { result ≡ Ran → are_within n.new.entries ≡ true }
    ensures stamps { result ≡ Ran → stamps_count n.new.entries ≡ true }
    ensures lawful { result ≡ Ran → (h : History) → IsLawfulNode n.old h → IsLawfulNode n.new (after n.new.entries h) }
    ensures one_core { result ≡ Ran → n.old.mapping.cores ≡ 1 → (length n.new.entries ≡ 1024)
        ⊎ ((h : History) → IsLawfulNode n.old h → IsIdle (plan_of n.old.plan) n.old.mapping (after n.new.entries h)) }
{
    if make_ready(alloc, n).is_err() {
        return RoundRun::Memory;
    }
    if n.mapping.cores == 1 {
        n.run_alone(gate);
        return RoundRun::Ran;
    }
    match n.run_many(rt, alloc, gate) {
        Ok(()) => RoundRun::Ran,
        Err(_) => RoundRun::Memory,
    }
}
