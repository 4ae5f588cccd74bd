//! What activations ask.

ghost use Rattle.std.specs.Prelude.{◌≡◌, ℕ, ℤ, List, [], ◌∷◌, ◌++◌, true, false, Some, slice_get};
ghost use Rattle.bus_semantics.specs.Common.{ActKey, Plan, Runnable, runnable_of_event, Wanted, to_end, wanted_by, is_over, key_fits, serves_directly, is_start, event_of, IsSound};
ghost use Rattle.bus_laws.specs.Common.{Act, Deed, Mapping};
ghost use Rattle.history_laws.specs.Wishes.{is_of_a_call};
ghost use Rattle.task_slots.specs.Ready.{is_answered, IsAsking};
ghost use Rattle.task_slots.specs.Looking.{IsTried};

use history_laws::{
    activations_ask_what_fits, activations_go_on, admission_comes_first,
    direct_activations_make_no_calls, hearing_follows_an_accepted_ask, what_touches_nothing,
};
use port_objects::sound_plans_have_objects;

/// What an activation asks may be tried, and is no start; an event that it names is its own; a direct one makes no call, and of
/// what names its event asks the end alone. It asks
/// after its start, and again after each answer with which it is not over.
pub(crate) fn what_is_asked_may_be_tried()
    ensures tried { (p : Plan) (m : Mapping) (k : ActKey) (r : Runnable) (event : ℕ) (start : List ℤ) (answers : List Deed) (w : Wanted) →
        IsSound p m → key_fits p k ≡ true → IsAsking p k r event start answers w → IsTried p (Act k) w }
    ensures begun { (p : Plan) (m : Mapping) (k : ActKey) (r : Runnable) (event : ℕ) (start : List ℤ) (answers : List Deed) (w : Wanted) →
        IsSound p m → key_fits p k ≡ true → IsAsking p k r event start answers w → is_start w ≡ false }
    ensures own { (p : Plan) (m : Mapping) (k : ActKey) (r : Runnable) (event other : ℕ) (start : List ℤ) (answers : List Deed) (w : Wanted) →
        IsSound p m → key_fits p k ≡ true → IsAsking p k r event start answers w → event_of w ≡ Some other → other ≡ event }
    ensures alone { (p : Plan) (m : Mapping) (k : ActKey) (r : Runnable) (event : ℕ) (start : List ℤ) (answers : List Deed) (w : Wanted) →
        IsSound p m → key_fits p k ≡ true → IsAsking p k r event start answers w → serves_directly p k ≡ true → is_of_a_call w ≡ false }
    ensures ends { (p : Plan) (m : Mapping) (k : ActKey) (r : Runnable) (event other : ℕ) (start : List ℤ) (answers : List Deed) (w : Wanted) →
        IsSound p m → key_fits p k ≡ true → IsAsking p k r event start answers w → serves_directly p k ≡ true → event_of w ≡ Some other → w ≡ to_end other }
    ensures first { (p : Plan) (m : Mapping) (k : ActKey) (r : Runnable) (event : ℕ) (start : List ℤ) →
        IsSound p m → key_fits p k ≡ true → slice_get p.runnables k.runnable ≡ Some r → runnable_of_event p event ≡ Some k.runnable →
        ((w : Wanted) × IsAsking p k r event start [] w) }
    ensures further { (p : Plan) (m : Mapping) (k : ActKey) (r : Runnable) (event : ℕ) (start : List ℤ) (answers : List Deed) (d : Deed) →
        IsSound p m → key_fits p k ≡ true → IsAsking p k r event start answers (wanted_by event d) → is_over d ≡ false → is_answered p d ≡ true →
        ((w : Wanted) × IsAsking p k r event start (answers ++ d ∷ []) w) }
{
    sound_plans_have_objects();
    activations_ask_what_fits();
    activations_go_on();
    admission_comes_first();
    direct_activations_make_no_calls();
    hearing_follows_an_accepted_ask();
    what_touches_nothing();
}
