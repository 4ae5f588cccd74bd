//! Laws of what an activation asks of the bus.

ghost use Rattle.std.specs.Prelude.{◌≡◌, ℕ, ℤ, List, [], length, nat_lt, nat_le, not, if◌then◌else◌, true, false, Some, None, is_some, ◌||◌};
ghost use Rattle.bus_semantics.specs.Common.{list_all, ActKey, Value, words_of, Plan, Runnable, disabling_of, Wanted, to_admit, to_hear, to_return, to_enter, to_leave, to_end, count};
ghost use Rattle.bus_semantics.specs.Common.{is_over, object_of, serves_directly, wish_fits, is_start, asks_its_own, next_of_activity};
ghost use Rattle.bus_laws.specs.Common.{Act, Deed, Disabling, Mapping};
ghost use Rattle.history_laws.specs.Followed.{IsActivation, Followed, AsksNext, HasJustAsked};
ghost use Rattle.history_laws.specs.OpenAreas.{open_areas, innermost, are_nested, comes_outside};
ghost use Rattle.history_laws.specs.Given.{gives_what_fits, words_given};
ghost use Rattle.history_laws.specs.Wishes.{is_of_a_call, is_the_end, is_return, is_awaited};

/// Whatever the bus answered, what an activation asks fits: it names its own elements, points, areas, machines and events,
/// and gives as many words as these take, at most 16, each within its limits, so that they are a value. It is no start;
/// an admission is by an event of its runnable, and an end by its own event.
pub fn activations_ask_what_fits()
    ensures fits { (p : Plan) (m : Mapping) (k : ActKey) (r : Runnable) (event : ℕ) (start : List ℤ) (answers : List Deed) (w : Wanted) →
        IsActivation p m k r event → next_of_activity p r event start answers ≡ Some w → wish_fits p (Act k) w ≡ true }
    ensures own { (p : Plan) (m : Mapping) (k : ActKey) (r : Runnable) (event : ℕ) (start : List ℤ) (answers : List Deed) (w : Wanted) →
        IsActivation p m k r event → next_of_activity p r event start answers ≡ Some w → asks_its_own p (Act k) w ≡ true }
    ensures begun { (p : Plan) (m : Mapping) (k : ActKey) (r : Runnable) (event : ℕ) (start : List ℤ) (answers : List Deed) (w : Wanted) →
        IsActivation p m k r event → next_of_activity p r event start answers ≡ Some w → is_start w ≡ false }
    ensures end { (p : Plan) (m : Mapping) (k : ActKey) (r : Runnable) (event : ℕ) (start : List ℤ) (answers : List Deed) (other : ℕ) →
        IsActivation p m k r event → next_of_activity p r event start answers ≡ Some (to_end other) → other ≡ event }
    ensures given { (p : Plan) (m : Mapping) (k : ActKey) (r : Runnable) (event : ℕ) (start : List ℤ) (answers : List Deed) (w : Wanted) →
        IsActivation p m k r event → next_of_activity p r event start answers ≡ Some w → gives_what_fits p r w ≡ true }
    ensures value { (p : Plan) (m : Mapping) (k : ActKey) (r : Runnable) (event : ℕ) (start : List ℤ) (answers : List Deed) (w : Wanted) →
        IsActivation p m k r event → next_of_activity p r event start answers ≡ Some w → ((v : Value) × (words_of v ≡ words_given w)) }
    ensures short { (p : Plan) (m : Mapping) (k : ActKey) (r : Runnable) (event : ℕ) (start : List ℤ) (answers : List Deed) (w : Wanted) →
        IsActivation p m k r event → next_of_activity p r event start answers ≡ Some w → nat_le (length (words_given w)) 16 ≡ true }
{}

/// An activation asks something after its start, and again after each answer to what it asked, up to its End or an Admit
/// that answers no. The answers are followed: each one answers what was asked before it.
pub fn activations_go_on()
    ensures { (p : Plan) (m : Mapping) (k : ActKey) (r : Runnable) (event : ℕ) (start : List ℤ) (answers : List Deed) →
        IsActivation p m k r event → Followed p r event start answers → list_all (λ d. not (is_over d)) answers ≡ true →
        ((w : Wanted) × (next_of_activity p r event start answers ≡ Some w)) }
{}

/// An activation asks for its admission exactly if its event has disabled modes, and before all else (SWS_RTE:
/// ModeDisablingDependency). It asks so by its own event, and after followed answers at the beginning alone. Answers are followed
/// if each one answers what was asked before it.
pub fn admission_comes_first()
    ensures first { (p : Plan) (r : Runnable) (event : ℕ) (start : List ℤ) (d : Disabling) →
        disabling_of p event ≡ Some d → next_of_activity p r event start [] ≡ Some (to_admit event) }
    ensures once { (p : Plan) (m : Mapping) (k : ActKey) (r : Runnable) (event other : ℕ) (start : List ℤ) (answers : List Deed) →
        IsActivation p m k r event → AsksNext p r event start answers (to_admit other) → answers ≡ [] }
    ensures own { (p : Plan) (m : Mapping) (k : ActKey) (r : Runnable) (event other : ℕ) (start : List ℤ) (answers : List Deed) →
        IsActivation p m k r event → next_of_activity p r event start answers ≡ Some (to_admit other) → other ≡ event }
    ensures disabled { (p : Plan) (m : Mapping) (k : ActKey) (r : Runnable) (event other : ℕ) (start : List ℤ) (answers : List Deed) →
        IsActivation p m k r event → next_of_activity p r event start answers ≡ Some (to_admit other) → is_some (disabling_of p event) ≡ true }
{}

/// What an activation asks touches an object, except for an end, and for a call, its answer and its result (at a point
/// without a server).
pub fn what_touches_nothing()
    ensures { (p : Plan) (m : Mapping) (k : ActKey) (r : Runnable) (event : ℕ) (start : List ℤ) (answers : List Deed) (w : Wanted) →
        IsActivation p m k r event → next_of_activity p r event start answers ≡ Some w → object_of p (Act k) w ≡ None →
        (is_of_a_call w || is_the_end w) ≡ true }
{}

/// An activation hears an answer only right after its ask at that point was accepted, and only if it waits for the
/// answer (SWS_RTE: Rte_Call, synchronous). The first is so after followed answers, of which each one answers what was asked
/// before it.
pub fn hearing_follows_an_accepted_ask()
    ensures accepted { (p : Plan) (m : Mapping) (k : ActKey) (r : Runnable) (event point : ℕ) (start : List ℤ) (answers : List Deed) →
        IsActivation p m k r event → AsksNext p r event start answers (to_hear point) → HasJustAsked point answers }
    ensures waits { (p : Plan) (m : Mapping) (k : ActKey) (r : Runnable) (event point : ℕ) (start : List ℤ) (answers : List Deed) →
        IsActivation p m k r event → next_of_activity p r event start answers ≡ Some (to_hear point) → is_awaited p point ≡ true }
{}

/// An activation of a direct server, one without a queue, makes no calls. Nor does it take results.
pub fn direct_activations_make_no_calls()
    ensures { (p : Plan) (m : Mapping) (k : ActKey) (r : Runnable) (event : ℕ) (start : List ℤ) (answers : List Deed) (w : Wanted) →
        IsActivation p m k r event → serves_directly p k ≡ true → next_of_activity p r event start answers ≡ Some w →
        is_of_a_call w ≡ false }
{}

/// An activation leaves the area that it entered last, enters areas of rising numbers, and has left all at each call,
/// publication, return and end (SWS_RTE: Rte_Enter, Rte_Exit). It is so after followed answers, of which each one answers what was
/// asked before it. An area that it enters has a greater number than those that it is in.
pub fn areas_open_and_close()
    ensures leave { (p : Plan) (m : Mapping) (k : ActKey) (r : Runnable) (event area : ℕ) (start : List ℤ) (answers : List Deed) →
        IsActivation p m k r event → AsksNext p r event start answers (to_leave area) → innermost (open_areas answers) ≡ Some area }
    ensures enter { (p : Plan) (m : Mapping) (k : ActKey) (r : Runnable) (event area : ℕ) (start : List ℤ) (answers : List Deed) →
        IsActivation p m k r event → AsksNext p r event start answers (to_enter area) →
        list_all (λ x. nat_lt x area) (open_areas answers) ≡ true }
    ensures outside { (p : Plan) (m : Mapping) (k : ActKey) (r : Runnable) (event : ℕ) (start : List ℤ) (answers : List Deed) (w : Wanted) →
        IsActivation p m k r event → AsksNext p r event start answers w → comes_outside w ≡ true → open_areas answers ≡ [] }
    ensures nested { (p : Plan) (m : Mapping) (k : ActKey) (r : Runnable) (event : ℕ) (start : List ℤ) (answers : List Deed) →
        IsActivation p m k r event → Followed p r event start answers → are_nested (open_areas answers) ≡ true }
{}

/// An activation returns only if it serves an operation, and then once, and after it only ends. It has returned once before its
/// end after followed answers, of which each one answers what was asked before it.
pub fn one_return_before_the_end()
    ensures before { (p : Plan) (m : Mapping) (k : ActKey) (r : Runnable) (event : ℕ) (start : List ℤ) (answers : List Deed) (w : Wanted) →
        IsActivation p m k r event → AsksNext p r event start answers w → is_the_end w ≡ false → count is_return answers ≡ 0 }
    ensures end { (p : Plan) (m : Mapping) (k : ActKey) (r : Runnable) (event other : ℕ) (start : List ℤ) (answers : List Deed) →
        IsActivation p m k r event → AsksNext p r event start answers (to_end other) →
        count is_return answers ≡ (if is_some r.server then 1 else 0) }
    ensures server { (p : Plan) (m : Mapping) (k : ActKey) (r : Runnable) (event code : ℕ) (start words : List ℤ) (answers : List Deed) →
        IsActivation p m k r event → next_of_activity p r event start answers ≡ Some (to_return code words) → is_some r.server ≡ true }
{}
