//! Laws of areas.

ghost use Rattle.std.specs.Prelude.{◌≡◌, ℕ, [], true};
ghost use Rattle.bus_semantics.specs.Common.{ActKey, Plan, Past, is_held, is_open, enters_by, IsPastOf, IsSound};
ghost use Rattle.bus_semantics.specs.declared.entries.Actor.TheVariants.{Act};
ghost use Rattle.bus_semantics.specs.declared.script.Mapping.{Mapping};
ghost use Rattle.object_kinds.specs.Kinds.{LeadsFollow, LeadsKeep, MissesNothing, StartsByFlag, OthersWakeNothing};
ghost use Rattle.area_objects.specs.Layout.{IsArea, area_of};
ghost use Rattle.area_objects.specs.Kept.{opening, may_start};
ghost use Rattle.area_objects.specs.Leading.{lead, wakes};
ghost use Rattle.area_objects.specs.Standing.{Keeps};

/// After the past of an area, it is held exactly if the last Enter or Leave is the Enter of some activation, and that is one
/// activation (SWS_RTE: Rte_Enter, Rte_Exit).
pub fn held_areas_have_one_holder()
    ensures entered { (p : Plan) (object : ℕ) (l : Past) → IsPastOf p object l → is_held (area_of p object) l ≡ true →
        (key : ActKey) × (is_open (enters_by (Act key)) l ≡ true) }
    ensures held { (p : Plan) (object : ℕ) (l : Past) (key : ActKey) → IsPastOf p object l → is_open (enters_by (Act key)) l ≡ true →
        is_held (area_of p object) l ≡ true }
    ensures one { (p : Plan) (object : ℕ) (l : Past) (j k : ActKey) → IsPastOf p object l → is_open (enters_by (Act j)) l ≡ true →
        is_open (enters_by (Act k)) l ≡ true → j ≡ k }
{}

/// An entry by which an area leads on is what the bus answers after the area's past and matches it, and what is kept then is what
/// the definitions give from the past and the entry (SWS_RTE: Rte_Enter, Rte_Exit).
pub fn leads_are_legal()
    ensures follow { (p : Plan) (object : ℕ) → LeadsFollow p object (Keeps p object) lead }
    ensures keep { (p : Plan) (object : ℕ) → LeadsKeep p object (Keeps p object) lead }
{}

/// An area of a sound plan misses no entry that may follow its past.
pub fn leads_miss_nothing()
    ensures { (p : Plan) (m : Mapping) (object : ℕ) → IsSound p m → MissesNothing p object (Keeps p object) lead }
{}

/// What an area keeps before anything has happened is what the definitions give from no entry.
pub fn first_area_stands_for_nothing()
    ensures { (p : Plan) (object : ℕ) → IsArea p object → Keeps p object opening [] }
{}

/// No start leads on.
pub fn starts_go_by_flags()
    ensures { StartsByFlag may_start lead }
{}

/// Nothing makes a start come.
pub fn other_entries_wake_nothing()
    ensures { OthersWakeNothing wakes may_start lead }
{}
