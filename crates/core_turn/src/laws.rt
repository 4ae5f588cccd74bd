//! Laws of turns.

ghost use Rattle.std.specs.Prelude.{◌≡◌, ◌≢◌, ◌<◌, ℕ, List, ◌∷◌, set, true, false, Option, Some, None, slice_get};
ghost use Rattle.bus_laws.specs.Common.{Mapping, Entry, Stamped};
ghost use Rattle.bus_semantics.specs.Common.{Plan, History, Noted, is_environment, IsLegal, IsAtRest, IsSound};
ghost use Rattle.port_objects.specs.declared.object.Object.{Object};
ghost use Rattle.port_objects.specs.Common.{lead, kept_of, is_leave, Told};
ghost use Rattle.task_machine.specs.declared.instr.TaskSet.{TaskSet};
ghost use Rattle.task_slots.specs.declared.slot.Slot.{Slot};
ghost use Rattle.task_slots.specs.Stepping.{IsOwn};
ghost use Rattle.core_turn.specs.Awake.{AwakeState, WaitersHeld};
ghost use Rattle.task_generator.specs.Promise.{AsksAsPlanned};
ghost use Rattle.core_turn.specs.Cores.{CoreState};
ghost use Rattle.core_turn.specs.Ready.{IsReady};
ghost use Rattle.core_turn.specs.Standing.{CoreStands};
ghost use Rattle.core_turn.specs.Turning.{StepsApart, NothingComes};
ghost use Rattle.core_turn.specs.Lawful.{IsLawful};
ghost use Rattle.core_turn.specs.Resting.{CoreRests};

use history_laws::{
    direct_callers_wait, legal_histories_part_into_objects, running_activations_go_on,
    unjoined_points_return_nothing, what_comes_may_follow,
};
use port_objects::{answers_are_what_may_come, leads_miss_nothing, only_a_leave_opens};

/// For every history for which cores and objects are lawful, the entry of a turn over a bench that tells these objects,
/// wherever it is written down, keeps it legal, and the cores, with this one as it is after the turn, and the objects are
/// lawful for the longer history. After a turn without an entry they are lawful for the same one. So it is for each core
/// in each such state, hence for every order of the cores' turns.
pub fn turns_keep_the_law()
    ensures stepped { (p : Plan) (m : Mapping) (t : TaskSet) (cores : List CoreState) (i : ℕ) (old new : CoreState) (objects after : List Object) (before now : Told) (s : Stamped) (h : History) →
        IsLawful p m t cores objects h → slice_get cores i ≡ Some old → IsReady p m t new →
        before.objects ≡ Some objects → now.objects ≡ Some after → StepsApart p t old new before now s →
        IsLawful p m t (set cores i new) after (s.entry ∷ h) }
    ensures still { (p : Plan) (m : Mapping) (t : TaskSet) (cores : List CoreState) (i : ℕ) (old new : CoreState) (objects after : List Object) (before now : Told) (h : History) →
        IsLawful p m t cores objects h → slice_get cores i ≡ Some old →
        before.objects ≡ Some objects → now.objects ≡ Some after → NothingComes p t old new before now →
        IsLawful p m t (set cores i new) after h }
{
    running_activations_go_on();
    answers_are_what_may_come();
    what_comes_may_follow();
}

/// What the environment does changes nothing of what a core stands for.
pub fn cores_stand_beside_the_environment()
    ensures { (p : Plan) (t : TaskSet) (g : History) (c : CoreState) (e : Entry) → is_environment e.actor ≡ true → CoreStands p t g c → CoreStands p t (e ∷ g) c }
{}

/// What a core does changes nothing of what another core stands for, since each activation is of one core's tasks (SWS_RTE: mapping
/// of RTEEvents to tasks): so it is of an entry by an actor of one of its slots.
pub fn cores_stand_beside_one_another()
    ensures { (p : Plan) (m : Mapping) (t : TaskSet) (g : History) (one other : CoreState) (at : ℕ) (slot : Slot) (e : Entry) → IsReady p m t one → IsReady p m t other →
        one.number ≢ other.number → slice_get one.slots at ≡ Some slot → IsOwn p slot e.actor → CoreStands p t g other → CoreStands p t (e ∷ g) other }
{}

/// If cores and objects are lawful for a history, and a turn of a core over a bench that tells these objects makes
/// nothing, the core rests: no next wish of a running activation of its tasks may follow the history, no start of a direct one
/// that is called, no start by an event of a free task, and no phase of its mode machines.
pub fn nothing_now_is_rest_of_the_core()
    ensures { (p : Plan) (m : Mapping) (t : TaskSet) (cores : List CoreState) (i : ℕ) (old new : CoreState) (objects : List Object) (before now : Told) (h : History) →
        AsksAsPlanned p t → IsLawful p m t cores objects h → slice_get cores i ≡ Some old →
        before.objects ≡ Some objects → NothingComes p t old new before now → CoreRests p m h i }
{
    legal_histories_part_into_objects();
    leads_miss_nothing();
    unjoined_points_return_nothing();
    running_activations_go_on();
    direct_callers_wait();
}

/// If each core of the mapping rests after a legal history, this is at rest.
pub fn resting_cores_are_at_rest()
    ensures rest { (p : Plan) (m : Mapping) (h : History) → IsSound p m → IsLegal p h →
        ((n : ℕ) → n < m.cores → CoreRests p m h n) → IsAtRest p m h }
{
    direct_callers_wait();
    running_activations_go_on();
}

/// After an entry that is no Leave no activation need be woken that waits at the area which it touched: nobody may enter that
/// now (SWS_RTE: Rte_Enter). And if none is left to be told of an entry, it is so whatever the next one touches.
pub fn waiters_sleep_on()
    ensures touched { (p : Plan) (t : TaskSet) (objects : List Object) (object : ℕ) (before after : Object) (n : Noted) (of : List Slot) (first : ℕ) (a : AwakeState) →
        slice_get objects object ≡ Some before → lead p object (kept_of before) n ≡ Some (kept_of after) → is_leave n.entry.deed ≡ false →
        WaitersHeld p t objects (Some object) of first a → WaitersHeld p t (set objects object after) None of first a }
    ensures still { (p : Plan) (t : TaskSet) (objects : List Object) (touched : Option ℕ) (of : List Slot) (first : ℕ) (a : AwakeState) →
        WaitersHeld p t objects None of first a → WaitersHeld p t objects touched of first a }
{
    only_a_leave_opens();
}
