//! The law of rounds on threads.

ghost use Rattle.std.specs.Prelude.{◌≡◌, ◌≤◌, ◌*◌, ℕ, List, length, true, Some, slice_get};
ghost use Rattle.bus_laws.specs.Common.{Stamped, Mapping};
ghost use Rattle.bus_semantics.specs.Common.{History, IsSound};
ghost use Rattle.port_objects.specs.declared.object.Object.{Object};
ghost use Rattle.port_objects.specs.Objects.{ArePlans};
ghost use Rattle.task_machine.specs.declared.instr.TaskSet.{TaskSet};
ghost use Rattle.core_turn.specs.Cores.{CoreState};
ghost use Rattle.core_turn.specs.Lawful.{IsLawful};
ghost use Rattle.cross_core_table.specs.declared.views.Opening.{Opening};
ghost use Rattle.cross_core_table.specs.Logs.{plan_in};
ghost use Rattle.cross_core_table.specs.Closing.{IsClosed};
ghost use Rattle.core_lanes.specs.After.{after, are_within, calls_in};
ghost use Rattle.core_lanes.specs.Calling.{TakeParts};
ghost use Rattle.core_lanes.specs.Taking.{TakeTurns};

use bus_laws::answers_look_at_one_object;
use core_turn::{cores_stand_beside_one_another, cores_stand_beside_the_environment};
use port_objects::sound_plans_have_objects;

/// Cores make turns at the same time, each over its seat of a round, and the round is closed. Then, for every history for which the
/// cores and the objects of the opening were lawful, the entries in order of stamps keep it legal, and the cores as they are now
/// and the objects of the close are lawful for it and these entries. So a round on threads is one of the orders in which one
/// thread could have given the turns: each activation lives on one core, which follows its program, and what the bus answers
/// looks at one object, whose entries stand in order of stamps. None of the entries is the environment's. If no core made more
/// than so many of them, there are at most so many for each core.
///
/// So it is too if the environment makes calls by a seat of its own meanwhile. The environment's entries are then these calls, in
/// their order.
pub fn rounds_on_threads_keep_the_law()
    ensures lawful { (k : Opening) (m : Mapping) (t : TaskSet) (cores now : List CoreState) (parts : List (List Stamped)) (objects : List Object) (entries : List Stamped) (h : History) →
        IsSound (plan_in k) m → ArePlans (plan_in k) k.objects.value.items → IsLawful (plan_in k) m t cores k.objects.value.items h →
        TakeTurns (plan_in k) t cores now parts → IsClosed k parts objects entries →
        IsLawful (plan_in k) m t now objects (after entries h) }
    ensures within { (k : Opening) (t : TaskSet) (cores now : List CoreState) (parts : List (List Stamped)) (objects : List Object) (entries : List Stamped) →
        TakeTurns (plan_in k) t cores now parts → IsClosed k parts objects entries → are_within entries ≡ true }
    ensures few { (k : Opening) (parts : List (List Stamped)) (objects : List Object) (entries : List Stamped) (room : ℕ) →
        ((i : ℕ) (part : List Stamped) → slice_get parts i ≡ Some part → length part ≤ room) → IsClosed k parts objects entries → length entries ≤ length parts * room }
    ensures beside { (k : Opening) (m : Mapping) (t : TaskSet) (cores now : List CoreState) (calls : List Stamped) (parts : List (List Stamped)) (objects : List Object) (entries : List Stamped) (h : History) →
        IsSound (plan_in k) m → ArePlans (plan_in k) k.objects.value.items → IsLawful (plan_in k) m t cores k.objects.value.items h →
        TakeParts (plan_in k) t cores now calls parts → IsClosed k parts objects entries →
        IsLawful (plan_in k) m t now objects (after entries h) }
    ensures calls { (k : Opening) (t : TaskSet) (cores now : List CoreState) (calls : List Stamped) (parts : List (List Stamped)) (objects : List Object) (entries : List Stamped) →
        TakeParts (plan_in k) t cores now calls parts → IsClosed k parts objects entries → calls_in entries ≡ calls }
{
    answers_look_at_one_object();
    cores_stand_beside_one_another();
    cores_stand_beside_the_environment();
    sound_plans_have_objects();
}
