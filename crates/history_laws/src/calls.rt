//! The law of calls: which wishes have an entry that may come.

ghost use Rattle.std.specs.Prelude.{◌≡◌, ℕ, true, false, is_some};
ghost use Rattle.bus_semantics.specs.Common.{Step, Value, Plan, kind_of, wanted_of, Past, is_held, answer_to, phase_may_come, is_due, start_matches, is_open, enters_by, serves_by, runs_by};
ghost use Rattle.bus_laws.specs.Common.{Mapping, Actor, Wish};
ghost use Rattle.bus_semantics.specs.declared.entries.Wish.TheVariants as wish;
ghost use Rattle.history_laws.specs.Coming.{IsAsked, Comes, may_be_held};

/// An entry of a wish that fits always may come, unless it is a start, an admission, the hearing of an answer, a return, an
/// end, a phase, or the entering or leaving of an area. A start has one if its event is due and no earlier one is open;
/// entering an area if nobody holds it; hearing if something was returned; a phase if one may come; leaving, returning, an
/// admission and an end if they match. The wish is its actor's own and touches an object.
pub fn calls_come()
    ensures always { (p : Plan) (m : Mapping) (a : Actor) (w : Wish) (l : Past) → IsAsked p m a w l →
        may_be_held (wanted_of w) ≡ false → Comes p a w l }
    ensures start { (p : Plan) (m : Mapping) (a : Actor) (event : ℕ) (l : Past) → IsAsked p m a (wish.Start event) l →
        is_due p a event l ≡ true → start_matches p l event (kind_of p event) ≡ true → Comes p a (wish.Start event) l }
    ensures enter { (p : Plan) (m : Mapping) (a : Actor) (area : ℕ) (l : Past) → IsAsked p m a (wish.Enter area) l →
        is_held area l ≡ false → Comes p a (wish.Enter area) l }
    ensures hear { (p : Plan) (m : Mapping) (a : Actor) (point : ℕ) (l : Past) → IsAsked p m a (wish.Answer point) l →
        is_some (answer_to point l) ≡ true → Comes p a (wish.Answer point) l }
    ensures leave { (p : Plan) (m : Mapping) (a : Actor) (area : ℕ) (l : Past) → IsAsked p m a (wish.Leave area) l →
        is_open (enters_by a) l ≡ true → Comes p a (wish.Leave area) l }
    ensures give_back { (p : Plan) (m : Mapping) (a : Actor) (code : ℕ) (value : Value) (l : Past) → IsAsked p m a (wish.Return code value) l →
        is_open (serves_by a) l ≡ true → Comes p a (wish.Return code value) l }
    ensures admit { (p : Plan) (m : Mapping) (a : Actor) (event : ℕ) (l : Past) → IsAsked p m a (wish.Admit event) l →
        is_open (runs_by event) l ≡ false → Comes p a (wish.Admit event) l }
    ensures move_on { (p : Plan) (m : Mapping) (a : Actor) (step : Step) (l : Past) → IsAsked p m a wish.Phase l →
        phase_may_come p a l step ≡ true → Comes p a wish.Phase l }
    ensures end { (p : Plan) (m : Mapping) (a : Actor) (event : ℕ) (l : Past) → IsAsked p m a (wish.End event) l →
        is_open (runs_by event) l ≡ true → Comes p a (wish.End event) l }
{}
