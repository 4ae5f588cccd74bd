//! Laws about the definitions.

ghost use Rattle.std.specs.Prelude.{◌≡◌, ◌↔◌, ℕ, ℤ, suc, ◌+◌, ◌*◌, ◌≤◌, List, length, slice_get, nat_le, [], Bool, true, false, Some, None};
ghost use Rattle.bus_semantics.specs.Common.{BodyTree, body_cost, refusal, Plan, Runnable, kind_of, server_of, State, run_program, is_well_formed, body_sound, History, Noted, Past, noted};
ghost use Rattle.bus_semantics.specs.Common.{to_start, to_enter, to_hear, answer_to, result_of, is_held, IsStuck, is_due, follows_last, is_done, accepted_at, taken_at, places_at, IsSound};
ghost use Rattle.bus_semantics.specs.Common.{IsLegal, is_legal};
ghost use Rattle.bus_semantics.specs.declared.entries.Actor.{Actor};
ghost use Rattle.bus_semantics.specs.declared.entries.Deed.{Deed};
ghost use Rattle.bus_semantics.specs.declared.plan.EventKind.TheVariants.{Timing};
ghost use Rattle.bus_semantics.specs.declared.script.Mapping.{Mapping};
ghost use Rattle.bus_laws.specs.Bounds.{UsesAtMost};
ghost use Rattle.bus_laws.specs.Happened.{HappenedSince, TickedSince, DoneInPhase, IsAccepted};
ghost use Rattle.bus_laws.specs.Returned.{IsAnswered};
ghost use Rattle.bus_laws.specs.Waiting.{Chain};

/// A history is legal exactly if computing says so.
pub fn legal_is_computed()
    ensures computed { (p : Plan) (h : History) → is_legal p h ≡ true → IsLegal p h }
    ensures computes { (p : Plan) (h : History) → IsLegal p h → is_legal p h ≡ true }
{}

/// What makes an event due follows its last start: an entry did it, and no start stands after it.
pub fn due_follows_the_last_start()
    ensures follows { (starts : Noted → Bool) (happened : Noted → Past → Bool) (h : Past) →
        (follows_last starts happened h ≡ true) ↔ HappenedSince starts happened h }
{}

/// A timing event is due exactly if a tick whose number is a multiple of the period follows the last start by it
/// (SWS_RTE: TimingEvent).
pub fn timing_is_due_after_a_tick()
    ensures due { (p : Plan) (a : Actor) (event period : ℕ) (h : Past) → kind_of p event ≡ Timing period →
        (is_due p a event h ≡ true) ↔ TickedSince event period h }
{}

/// What a phase owes is done exactly if a start by the event, and the end of that activation, follow the machine's last
/// phase (SWS_RTE: mode switch procedure).
pub fn done_after_the_last_phase()
    ensures done { (machine event : ℕ) (h : Past) → (is_done machine event h ≡ true) ↔ DoneInPhase machine event h }
{}

/// The values accepted at an element are those of the sends that found room, in their order; and never more stand
/// accepted and not taken than the queue has places (SWS_RTE: Rte_Send, queued communication).
pub fn accepted_values_found_room()
    ensures accepted { (p : Plan) (elem place : ℕ) (words : List ℤ) (h : Past) →
        (slice_get (accepted_at p elem h) place ≡ Some words) ↔ IsAccepted p elem place words h }
    ensures bounded { (p : Plan) (elem : ℕ) (h : Past) → length (accepted_at p elem h) ≤ taken_at elem h + places_at p elem }
{}

/// A point has an answer exactly if the activation that serves its last request has returned and no reply was taken since:
/// it is what that activation returned. Without one a result is 131 RTE_E_NO_DATA at a joined point, and in a legal history 131
/// comes at no other time (SWS_RTE: Rte_Call, Rte_Result).
pub fn answers_are_returns()
    ensures some { (point code : ℕ) (words : List ℤ) (h : Past) → answer_to point h ≡ Some (code, words) → IsAnswered point code words h }
    ensures none { (point code : ℕ) (words : List ℤ) (h : Past) → answer_to point h ≡ None → IsAnswered point code words h → ⊥ }
    ensures no_data { (p : Plan) (point server : ℕ) (h : Past) → server_of p point ≡ Some server →
        ((code : ℕ) (words : List ℤ) → IsAnswered point code words h → ⊥) → result_of p point h ≡ (131, []) }
    ensures only_then { (p : Plan) (point code : ℕ) (words : List ℤ) (h : History) → IsLegal p h →
        (result_of p point (noted h)).0 ≡ 131 → IsAnswered point code words (noted h) → ⊥ }
{}

/// No chain of waiting calls leads from a task of a sound plan back to it, since the ranks of the tasks rise along each call
/// (SWS_RTE: synchronous Rte_Call).
pub fn no_chain_of_waits_returns()
    ensures { (p : Plan) (m : Mapping) → IsSound p m → (task n : ℕ) → Chain p m (suc n) task task → ⊥ }
{}

/// What may not follow a history: the start by an event that is not due, the entering of an area that is held, and the
/// answer to a call that was not returned.
pub fn what_is_stuck()
    ensures start { (p : Plan) (h : History) (a : Actor) (event : ℕ) →
        is_due p a event (noted h) ≡ false → IsStuck p h (a, to_start event) }
    ensures enter { (p : Plan) (h : History) (a : Actor) (area : ℕ) →
        is_held area (noted h) ≡ true → IsStuck p h (a, to_enter area) }
    ensures answer { (p : Plan) (h : History) (a : Actor) (point : ℕ) →
        answer_to point (noted h) ≡ None → IsStuck p h (a, to_hear point) }
{}

/// A program that no rule refuses, and whose numbers are in range, is one of a sound plan: each statement stands where
/// it may and has its access, the program costs at most 100,000, and it has at most 256 variables.
pub fn accepted_programs_are_sound()
    ensures statements { (r : Runnable) → refusal r.accesses r.program ≡ None → is_well_formed r.program ≡ true → body_sound r r.program.body [] ≡ true }
    ensures cost { (r : Runnable) → refusal r.accesses r.program ≡ None → nat_le (body_cost r.program.body) 100000 ≡ true }
    ensures vars { (r : Runnable) → refusal r.accesses r.program ≡ None → nat_le r.program.vars 256 ≡ true }
{}

/// A program makes at most twice as many calls of the bus as it costs, from any state and with any answers: one that costs
/// at most 100,000 makes at most 200,000. (A call of an operation costs 1, and is an ask and an answer.)
pub fn cost_bounds_the_calls()
    ensures { (r : Runnable) (body : BodyTree) (s : State) (answers : List Deed) → UsesAtMost (2 * body_cost body) answers (run_program r body s answers) }
{}
