//! The law of objects: what the bus answers looks at one object.

ghost use Rattle.std.specs.Prelude.{◌≡◌, ℕ, filter, true, [], Some, None};
ghost use Rattle.bus_semantics.specs.Common.{list_all, Plan, History, Noted, Past, noted, touched_by, touches, IsLegal, is_proper, SameAnswers, IsSound};
ghost use Rattle.bus_semantics.specs.declared.script.Mapping.{Mapping};

/// What the bus answers to an entry looks only at the earlier entries that touch the same object, for every deed; an entry
/// that touches no object is answered as after no entry at all. The plan is sound, and each entry fits and starts no
/// other runnable than its actor's, as in a legal history.
pub fn answers_look_at_one_object()
    ensures touching { (p : Plan) (m : Mapping) (h : Past) (n : Noted) (object : ℕ) →
        IsSound p m → list_all (is_proper p) h ≡ true → is_proper p n ≡ true → touched_by p n ≡ Some object →
        SameAnswers p n h (filter (touches p object) h) }
    ensures free { (p : Plan) (m : Mapping) (h : Past) (n : Noted) →
        IsSound p m → list_all (is_proper p) h ≡ true → is_proper p n ≡ true → touched_by p n ≡ None →
        SameAnswers p n h [] }
    ensures legal { (p : Plan) (h : History) → IsLegal p h → list_all (is_proper p) (noted h) ≡ true }
{}
