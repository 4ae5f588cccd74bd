//! The laws of coherent lists.

ghost use Rattle.std.specs.Prelude.{◌≡◌, ◌≤◌, ℕ, ◌∷◌, ◌++◌, length};
ghost use Rattle.bus_semantics.specs.Common.{Value, words_of, Plan, elems_of, words_at, History, noted, value_at, moment_of, IsLegal, IsSound};
ghost use Rattle.bus_laws.specs.Common.{Mapping, Entry};
ghost use Rattle.bus_semantics.specs.declared.entries.Deed.TheVariants as deed;
ghost use Rattle.pair_run.specs.OneMoment.{ShowsHistory, FetchesOneMoment, SeesAllOf};

/// In a legal history the value of an element has as many words as its type says, and the values of a list's elements at one
/// moment have together at most 16. So a FetchAll always has a value.
pub fn values_have_their_words()
    ensures words { (p : Plan) (m : Mapping) (h : History) (elem : ℕ) → IsSound p m → IsLegal p h →
        length (value_at p elem (noted h)) ≡ words_at p elem }
    ensures few { (p : Plan) (m : Mapping) (h : History) (list : ℕ) → IsSound p m → IsLegal p h →
        length (moment_of p (elems_of p list) (noted h)) ≤ 16 }
{}

/// A FetchAll in a legal history gives the elements of its list as they stood after one entry, the one before it: each shows the
/// last value that was given to its group until then, or its initial value. (`moment` holds of every plan, sound or not.) In a
/// sound plan (`whole`), after any earlier entry each element of a group to which this gave something shows what it gave last
/// there, or what a later entry did. So no entry is seen in part.
pub fn fetches_one_moment()
    ensures moment { (p : Plan) (h : History) (e : Entry) (list : ℕ) (value : Value) → IsLegal p (e ∷ h) →
        e.deed ≡ deed.FetchAll list value → words_of value ≡ moment_of p (elems_of p list) (noted h) }
    ensures whole { (p : Plan) (m : Mapping) (h : History) (e : Entry) (list : ℕ) (value : Value) → IsSound p m →
        IsLegal p (e ∷ h) → e.deed ≡ deed.FetchAll list value → FetchesOneMoment p h list value }
{}

/// Of a PublishAll a FetchAll sees all marked elements, if it comes later, and none, if it comes earlier: then what it shows was
/// given before it. All: for the group of each it shows what the publication gave last there, or what a later entry did.
pub fn publishes_all_or_none()
    ensures all { (p : Plan) (m : Mapping) (after before : History) (f b : Entry) (list k written : ℕ) (value given : Value) →
        IsSound p m → IsLegal p (f ∷ (after ++ b ∷ before)) → f.deed ≡ deed.FetchAll list value →
        b.deed ≡ deed.PublishAll k written given → SeesAllOf p k written given after list value }
    ensures none { (p : Plan) (m : Mapping) (after before : History) (f : Entry) (list : ℕ) (value : Value) →
        IsSound p m → IsLegal p (after ++ f ∷ before) → f.deed ≡ deed.FetchAll list value → ShowsHistory p before list value }
{}
