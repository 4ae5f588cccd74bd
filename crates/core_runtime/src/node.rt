//! The node.

ghost use Rattle.std.specs.Prelude.{◌≡◌, [], IfOk, min};
ghost use Rattle.bus_semantics.specs.Common.{plan_of, IsSound};
ghost use Rattle.task_generator.specs.Promise.{AsksAsPlanned};
ghost use Rattle.core_runtime.specs.Nodes.{IsLawfulNode};

use crate::Memory;
use crate::beginning::{Beginning, begin};
use crate::live::Live;
use crate::parts::Upkeep;
use bus_semantics::{BusPlan, Mapping, Stamped};
use core_lanes::Guesses;
use port_objects::sound_plans_have_objects;
use std::alloc::Global;
use std::marker::Model;
use task_machine::TaskSet;

/// A plan with its mapping and its bodies, run on the mapping's cores: each core has the tasks that are mapped to it
/// (SWS_RTE: mapping of RTEEvents to tasks), and the objects are what ports and the clock keep between calls.
#[derive(Drop)]
pub struct Node {
    pub(crate) plan: BusPlan,
    pub(crate) mapping: Mapping,
    pub(crate) bodies: TaskSet,
    pub(crate) live: Live,
    /// Where its cores look first, if they run at the same time. Nothing that is promised rests on it.
    pub(crate) guesses: Guesses,
}

impl Model for Node {
    ghost use Rattle.std.specs.Prelude.{◌≡◌, None};
    ghost use Rattle.std.specs.Vec.{vec_capacity};
    ghost use Rattle.bus_semantics.specs.Plan.{plan_of};
    ghost use Rattle.core_runtime.specs.Nodes.{NodeState, IsNode};
    ghost use Rattle.core_runtime.specs.Watching.{IsWatch};
    ghost use Rattle.runnable_lang.specs.contracts.stmt.Stmt as statements;
    ghost use Rattle.runnable_lang.specs.contracts.stmt.Expr as expressions;
    ghost use Rattle.std.specs.Coded.{codes};

    ghost Value = { NodeState };

    ghost coded = { Prim.hlevel (codes, statements.the_row.coded, expressions.the_row.coded) };

    ghost view = { λ n. record { plan = n.plan; mapping = n.mapping; bodies = n.bodies; cores = n.live.cores.items; objects = n.live.objects.items; entries = n.live.entries.items; spare = vec_capacity n.live.entries } };

    ghost invariant = { λ n. IsNode (plan_of n.plan) n.mapping n.bodies n.live.cores.items n.live.objects.items × IsWatch (plan_of n.plan) n.bodies n.live.objects.items None n.live.cores.items n.live.watch };
}

impl Node {
    /// A node to which nothing has happened. The plan is sound with the mapping, and the bodies are those that `generate` makes
    /// of it. The only error is that there is no memory. It is lawful for the empty history: that is legal, the objects stand for
    /// it, and so do the tasks of the cores.
    pub fn new(alloc: Global, p: BusPlan, m: Mapping, t: TaskSet) -> Result<Node, Memory>
        requires sound { IsSound (plan_of p) m }
        requires bodies { AsksAsPlanned (plan_of p) t }
        ensures plan { IfOk result (λ n. n.plan ≡ p) }
        ensures mapping { IfOk result (λ n. n.mapping ≡ m) }
        ensures entries { IfOk result (λ n. n.entries ≡ []) }
        ensures lawful { IfOk result (λ n. IsLawfulNode n []) }
    {
        sound_plans_have_objects();
        match begin(alloc, &p, &m, &t) {
            Ok(
                Beginning {
                    cores,
                    objects,
                    kept,
                },
            ) => {
                let Upkeep {
                    watch,
                    guesses,
                    spare,
                } = kept;
                Ok(Node {
                    plan: p,
                    mapping: m,
                    bodies: t,
                    live: Live {
                        cores,
                        objects,
                        watch,
                        entries: Vec::new(alloc),
                        spare,
                    },
                    guesses,
                })
            }
            Err(memory) => {
                drop(p);
                drop(m);
                drop(t);
                Err(memory)
            }
        }
    }

    /// What it was made with: a plan that is sound with the node's mapping.
    pub fn plan(&self) -> &BusPlan
        ensures plan { result.now ≡ self.now.plan }
        ensures sound { IsSound (plan_of result.now) self.now.mapping }
    {
        &self.plan
    }

    /// What it was made with.
    pub fn mapping(&self) -> &Mapping
        ensures { result.now ≡ self.now.mapping }
    {
        &self.mapping
    }

    /// What the last round or serial pass made, in the order of stamps, which count from 0.
    pub fn entries(&self) -> &[Stamped]
        ensures { result.now ≡ self.now.entries }
    {
        self.live.entries.as_slice()
    }

    /// For how many entries of a round or serial pass there is room. More than 32 bits count are told as the most that they
    /// count.
    pub fn spare(&self) -> u32
        ensures { result ≡ min self.now.spare u32.MAX }
    {
        self.live.entries.capacity().min(u32::MAX as usize) as u32
    }
}
