//! What turns work on.

ghost use Rattle.std.specs.Prelude.{◌≡◌, ◌≤◌, [], None};
ghost use Rattle.bus_semantics.specs.Common.{vec_capacity, plan_of};
ghost use Rattle.bus_semantics.specs.declared.script.Mapping.{Mapping};
ghost use Rattle.port_objects.specs.Objects.{ArePlans};
ghost use Rattle.core_runtime.specs.Nodes.{IsNode};
ghost use Rattle.core_runtime.specs.Watching.{IsWatch};

use crate::live::Live;
use crate::watch::Watch;
use bus_semantics::{BusPlan, Stamped};
use core_turn::Core;
use cross_core_table::Spare;
use port_objects::PlainBench;
use std::marker::Model;
use task_machine::TaskSet;

/// What the turns of a round or serial pass work on: a node's plan and bodies, its cores with what of them may step, its objects on a
/// bench with room for so many further entries, and the entries so far. It keeps the room that the last round of several cores left.
#[derive(Drop)]
pub(crate) struct Round<'a> {
    pub plan: &'a BusPlan,
    pub bodies: &'a TaskSet,
    pub cores: Vec<Core>,
    pub watch: Watch,
    pub bench: PlainBench<'a>,
    pub entries: Vec<Stamped>,
    pub spare: Spare,
}

impl<'a> Model for Round<'a> {
    ghost use Rattle.std.specs.Prelude.{◌≡◌, None};
    ghost use Rattle.std.specs.Vec.{vec_capacity};
    ghost use Rattle.bus_semantics.specs.Plan.{plan_of};
    ghost use Rattle.core_runtime.specs.Rounds.{RoundState, IsRound};
    ghost use Rattle.core_runtime.specs.Watching.{IsWatch};
    ghost use Rattle.runnable_lang.specs.contracts.stmt.Stmt as statements;
    ghost use Rattle.runnable_lang.specs.contracts.stmt.Expr as expressions;
    ghost use Rattle.std.specs.Coded.{codes};

    ghost Value = { RoundState };

    ghost coded = { Prim.hlevel (codes, statements.the_row.coded, expressions.the_row.coded) };

    ghost view = { λ r. record { plan = r.plan.now; bodies = r.bodies.now; cores = r.cores.items; objects = r.bench.objects; entries = r.entries.items; room = r.bench.room; spare = vec_capacity r.entries } };

    ghost invariant = { λ r. IsRound (plan_of r.plan.now) r.bodies.now r.cores.items r.bench r.entries.items (vec_capacity r.entries) × IsWatch (plan_of r.plan.now) r.bodies.now r.bench.objects None r.cores.items r.watch };
}

impl<'a> Round<'a> {
    /// Over what a node keeps, with room for so many entries, of which none is made yet. It takes no memory.
    pub fn new(plan: &'a BusPlan, bodies: &'a TaskSet, live: Live, room: u32) -> Round<'a>
        requires node { (m : Mapping) × IsNode (plan_of plan.now) m bodies.now live.cores.items live.objects.items }
        requires watched { IsWatch (plan_of plan.now) bodies.now live.objects.items None live.cores.items live.watch }
        requires room { room ≤ vec_capacity live.entries }
        ensures { result ≡ record { plan = plan.now; bodies = bodies.now; cores = live.cores.items; objects = live.objects.items; entries = []; room = room; spare = vec_capacity live.entries } }
    {
        let mut entries = live.entries;
        entries.clear();
        Round {
            plan,
            bodies,
            cores: live.cores,
            watch: live.watch,
            bench: PlainBench::new(plan, live.objects, room),
            entries,
            spare: live.spare,
        }
    }

    /// What turns changed, given back to the node. It takes no memory.
    pub fn into_live(self) -> Live
        ensures cores { result.cores.items ≡ self.entry.cores }
        ensures objects { result.objects.items ≡ self.entry.objects }
        ensures entries { result.entries.items ≡ self.entry.entries }
        ensures spare { vec_capacity result.entries ≡ self.entry.spare }
        ensures planned { ArePlans (plan_of self.entry.plan) result.objects.items }
        ensures watched { IsWatch (plan_of self.entry.plan) self.entry.bodies result.objects.items None result.cores.items result.watch }
    {
        Live {
            cores: self.cores,
            objects: self.bench.into_objects(),
            watch: self.watch,
            entries: self.entries,
            spare: self.spare,
        }
    }
}
