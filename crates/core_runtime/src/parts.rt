//! A node taken apart, and put together again.

ghost use Rattle.std.specs.Prelude.{◌≡◌};
ghost use Rattle.bus_semantics.specs.Common.{vec_capacity, History, plan_of};
ghost use Rattle.core_turn.specs.Lawful.{IsLawful};
ghost use Rattle.core_runtime.specs.Nodes.{IsLawfulNode};
ghost use Rattle.core_runtime.specs.Parting.{AreParts};

use crate::live::Live;
use crate::node::Node;
use crate::watch::Watch;
use bus_semantics::{BusPlan, Mapping, Stamped};
use core_lanes::Guesses;
use core_turn::Core;
use cross_core_table::Spare;
use port_objects::Object;
use task_machine::TaskSet;

/// What a node keeps beside its parts: what of the cores may step, where they look first, and room for the next round.
#[derive(Drop)]
pub(crate) struct Upkeep {
    pub watch: Watch,
    pub guesses: Guesses,
    pub spare: Spare,
}

/// A node taken apart: its plan, mapping and bodies, its cores and its objects, each by number, and the entries of its last round or
/// serial pass. Others may make turns of the cores over the objects.
#[derive(Drop)]
pub struct Parts {
    pub plan: BusPlan,
    pub mapping: Mapping,
    pub tasks: TaskSet,
    pub cores: Vec<Core>,
    pub objects: Vec<Object>,
    pub entries: Vec<Stamped>,
    pub(crate) kept: Upkeep,
}

impl Node {
    /// Takes the node apart. It takes no memory.
    pub fn take_apart(self) -> Parts
        ensures plan { result.plan ≡ self.plan }
        ensures mapping { result.mapping ≡ self.mapping }
        ensures tasks { result.tasks ≡ self.bodies }
        ensures cores { result.cores.items ≡ self.cores }
        ensures objects { result.objects.items ≡ self.objects }
        ensures entries { result.entries.items ≡ self.entries }
        ensures parts { AreParts result }
    {
        let Node {
            plan,
            mapping,
            bodies,
            live,
            guesses,
        } = self;
        let Live {
            cores,
            objects,
            watch,
            entries,
            spare,
        } = live;
        Parts {
            plan,
            mapping,
            tasks: bodies,
            cores,
            objects,
            entries,
            kept: Upkeep {
                watch,
                guesses,
                spare,
            },
        }
    }

    /// Puts a node together of these parts, whose cores and objects may have gone on, with the entries that came of that; the earlier
    /// ones are dropped. The room of the entries is the node's for rounds and serial passes. It takes no memory.
    pub fn from_parts(p: Parts, e: Vec<Stamped>) -> Node
        requires parts { AreParts p }
        ensures plan { result.plan ≡ p.plan }
        ensures mapping { result.mapping ≡ p.mapping }
        ensures bodies { result.bodies ≡ p.tasks }
        ensures cores { result.cores ≡ p.cores.items }
        ensures objects { result.objects ≡ p.objects.items }
        ensures entries { result.entries ≡ e.items }
        ensures spare { result.spare ≡ vec_capacity e }
        ensures lawful { (h : History) → IsLawful (plan_of p.plan) p.mapping p.tasks p.cores.items p.objects.items h → IsLawfulNode result h }
    {
        let Parts {
            plan,
            mapping,
            tasks,
            cores,
            objects,
            entries: _,
            kept,
        } = p;
        let Upkeep {
            mut watch,
            guesses,
            spare,
        } = kept;
        watch.wake_all(cores.as_slice());
        Node {
            plan,
            mapping,
            bodies: tasks,
            live: Live {
                cores,
                objects,
                watch,
                entries: e,
                spare,
            },
            guesses,
        }
    }
}
