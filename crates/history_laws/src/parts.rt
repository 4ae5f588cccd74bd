//! The laws of parts: the entries of a legal history, object by object.

ghost use Rattle.std.specs.Prelude.{◌≡◌, ℕ, true, false, Some, unwrap_or};
ghost use Rattle.bus_semantics.specs.Common.{ActKey, Plan, kind_of, Wanted, to_start, wanted_by, History, Noted, needs_event, object_of, touched, touches, entries_of, key_fits, next_wish};
ghost use Rattle.bus_semantics.specs.Common.{may_start, is_held_back, follows_program, MayFollow, IsLegal, start_matches, matches, IsPastOf, MayCome, IsSound};
ghost use Rattle.bus_laws.specs.Common.{Mapping, Actor, Act};

/// The entries of a legal history that touch an object are a past of it; so each matches those before it.
pub fn legal_histories_part_into_objects()
    ensures { (p : Plan) (m : Mapping) (h : History) (object : ℕ) → IsSound p m → IsLegal p h → IsPastOf p object (entries_of p h object) }
{}

/// What a running activation wants next matches the earlier entries of the object that it touches, and so does a start that
/// its key may make. (So a leaving, a return, an admission and an end are never held.)
pub fn wishes_match()
    ensures wish { (p : Plan) (m : Mapping) (h : History) (k : ActKey) (w : Wanted) (object : ℕ) (n : Noted) → IsSound p m → IsLegal p h →
        next_wish p h k ≡ Some w → n.entry.actor ≡ Act k → wanted_by (unwrap_or n.event 0) n.entry.deed ≡ w → touches p object n ≡ true →
        matches p (entries_of p h object) n ≡ true }
    ensures start { (p : Plan) (m : Mapping) (h : History) (k : ActKey) (event object : ℕ) → IsSound p m → IsLegal p h →
        key_fits p k ≡ true → may_start p h k event ≡ true → object_of p (Act k) (to_start event) ≡ Some object →
        start_matches p (entries_of p h object) event (kind_of p event) ≡ true }
{}

/// An entry that may come after the entries of its object may follow the whole history, if its actor's program asks for it: as
/// the next wish of an activation that is not held back, or as an entry (no admission and no end) that follows the program.
pub fn what_comes_may_follow()
    ensures wish { (p : Plan) (m : Mapping) (h : History) (k : ActKey) (w : Wanted) (n : Noted) → IsSound p m → IsLegal p h →
        next_wish p h k ≡ Some w → is_held_back p h k ≡ false → MayCome p (Act k) w (entries_of p h (touched p (Act k) w)) n →
        MayFollow p h n.entry }
    ensures entry { (p : Plan) (m : Mapping) (h : History) (a : Actor) (w : Wanted) (n : Noted) → IsSound p m → IsLegal p h →
        needs_event n.entry.deed ≡ false → follows_program p h a n.entry.deed ≡ true →
        MayCome p a w (entries_of p h (touched p a w)) n → MayFollow p h n.entry }
{}
