//! The law of exclusive areas.

ghost use Rattle.std.specs.Prelude.{◌≡◌, ◌+◌, ℕ, true};
ghost use Rattle.bus_semantics.specs.Common.{ActKey, Plan, History, noted, is_held, first_area, entries_of, is_open, enters_by, IsLegal, IsSound};
ghost use Rattle.bus_laws.specs.Common.{Mapping, Act};
ghost use Rattle.history_laws.specs.Holding.{HasHolder, is_inside};

/// An area is held exactly if a running activation is inside, which is then the only one; its Enter is the last entry of the
/// area (SWS_RTE: Rte_Enter, Rte_Exit).
pub fn held_areas_have_a_holder()
    ensures held { (p : Plan) (m : Mapping) (h : History) (area : ℕ) → IsSound p m → IsLegal p h →
        is_held area (noted h) ≡ true → HasHolder area h }
    ensures inside { (p : Plan) (m : Mapping) (h : History) (area : ℕ) (k : ActKey) → IsSound p m → IsLegal p h →
        is_inside k area h ≡ true → is_held area (noted h) ≡ true }
    ensures alone { (p : Plan) (m : Mapping) (h : History) (area : ℕ) (one other : ActKey) → IsSound p m → IsLegal p h →
        is_inside one area h ≡ true → is_inside other area h ≡ true → other ≡ one }
    ensures last { (p : Plan) (m : Mapping) (h : History) (area : ℕ) (k : ActKey) → IsSound p m → IsLegal p h →
        is_inside k area h ≡ true → is_open (enters_by (Act k)) (entries_of p h (first_area p + area)) ≡ true }
{}
