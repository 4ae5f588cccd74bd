//! A node that is served by feeds.

ghost use Rattle.std.specs.Prelude.{◌≡◌, ◌≤◌};
ghost use Rattle.bus_semantics.specs.Common.{plan_of, Letters};
ghost use Rattle.feed_queue.specs.Reading.{AreFeeds};
ghost use Rattle.core_runtime.specs.Nodes.{IsSameNode};
ghost use Rattle.live_node.specs.Serving.{IfStopped, IfMemory, IsSameBus, KeepsTheLaw, MakesTheCalls};

use core_runtime::Node;
use feed_queue::{Feeds, Pump, feeds_are_few, feeds_give_what_may_be_called};
use live_lanes::{Beside, Made, Work, run_beside};
use rte_text::Gate;
use std::alloc::Global;
use std::mem;
use std::sync::Wait;
use std::thread::Threads;

/// What is left when all stimuli have come.
#[derive(Drop)]
pub struct Report {
    /// The node, with the entries that were made, in the order of stamps, which count from 0.
    pub node: Node,
    /// It names the feeds in the order in which their wishes came: `Pump::order`.
    pub pump: Pump,
}

/// What came of serving a node.
#[derive(Drop)]
pub enum Served {
    /// All stimuli have come, and the cores have left.
    Stopped(Report),
    /// There was no memory, and nothing was made. This is the node, unchanged.
    Memory(Node),
}

/// Runs the cores of a node, at most 7, while the wishes of feeds arrive: each core and each feed in a thread of its own, and a pump that
/// makes the environment's calls in the order in which their feeds came. It ends when all calls were made. The feeds are those of stimuli
/// that `read_feeds` accepts for the node's plan. Each core makes 65,536 entries at most. All memory is taken before the first entry.
///
/// Core `n` passes the gate `n` before each turn, the pump the next one before each pop, and each feeder one of those behind that before
/// each push. Nothing is said of when: a core may make no entry before the pump ends, and feeds may come one after the other.
pub fn serve<R: Threads + Wait + Sync, G: Gate>(
    rt: &R,
    alloc: Global,
    n: Node,
    feeds: &Feeds,
    gate: &G,
) -> Served
    requires cores { n.mapping.cores ≤ 7 }
    requires feeds { (bytes : Letters) × AreFeeds (plan_of n.plan) bytes feeds.now }
    ensures bus { IfStopped result (λ report. IsSameBus n report.node) }
    ensures lawful { IfStopped result (λ report. KeepsTheLaw n report.node) }
    ensures calls { IfStopped result (λ report. MakesTheCalls feeds.now report) }
    ensures same { IfMemory result (λ back. IsSameNode n back) }
{
    feeds_are_few();
    feeds_give_what_may_be_called();
    let mut parts = n.take_apart();
    let work = Work {
        cores: mem::replace(&mut parts.cores, Vec::new(alloc)),
        objects: mem::replace(&mut parts.objects, Vec::new(alloc)),
    };
    match run_beside(rt, alloc, &parts.plan, &parts.tasks, work, feeds, gate) {
        Beside::Ran(made) => {
            let Made {
                work,
                entries,
                pump,
            } = made;
            let Work { cores, objects } = work;
            parts.cores = cores;
            parts.objects = objects;
            Served::Stopped(Report {
                node: Node::from_parts(parts, entries),
                pump,
            })
        }
        Beside::Memory(work) => {
            let Work { cores, objects } = work;
            parts.cores = cores;
            parts.objects = objects;
            let entries = mem::replace(&mut parts.entries, Vec::new(alloc));
            Served::Memory(Node::from_parts(parts, entries))
        }
    }
}
