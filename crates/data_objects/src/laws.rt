//! Laws of groups.

ghost use Rattle.std.specs.Prelude.{◌≡◌, ℕ, []};
ghost use Rattle.bus_semantics.specs.declared.script.Mapping.{Mapping};
ghost use Rattle.bus_semantics.specs.Common.{Plan, IsSound};
ghost use Rattle.object_kinds.specs.Common.{group_at, IsAlone, LeadsFollow, LeadsKeep, MissesNothing, StartsByFlag, OthersWakeNothing};
ghost use Rattle.data_objects.specs.Kept.{opening, may_start};
ghost use Rattle.data_objects.specs.Layout.{IsUnqueuedGroup};
ghost use Rattle.data_objects.specs.Leading.{lead, wakes};
ghost use Rattle.data_objects.specs.Standing.{GroupKeeps, Keeps};

/// An entry by which a group leads on is what the bus answers after the group's past and matches it, and what is kept then is
/// what the definitions give from the past and the entry (SWS_RTE: Rte_Write, Rte_Read and the others of unqueued data).
pub fn leads_are_legal()
    ensures follow { (p : Plan) (object : ℕ) → LeadsFollow p object (Keeps p object) (lead p object) }
    ensures keep { (p : Plan) (object : ℕ) → LeadsKeep p object (Keeps p object) (lead p object) }
{}

/// A group of a sound plan misses no entry that may follow its past.
pub fn leads_miss_nothing()
    ensures { (p : Plan) (m : Mapping) (object : ℕ) → IsSound p m → MissesNothing p object (Keeps p object) (lead p object) }
{}

/// What a group keeps before anything has happened is what the definitions give from no entry.
pub fn first_group_stands_for_nothing()
    ensures group { (p : Plan) (group : ℕ) → IsUnqueuedGroup p group → GroupKeeps p group (opening p group) [] }
    ensures object { (p : Plan) (object : ℕ) → IsAlone p object → IsUnqueuedGroup p (group_at p object) → Keeps p object (opening p (group_at p object)) [] }
{}

/// A start by an event that is not pending leads nowhere.
pub fn starts_go_by_flags()
    ensures { (p : Plan) (object : ℕ) → StartsByFlag may_start (lead p object) }
{}

/// Only a write or a publication makes a start come.
pub fn other_entries_wake_nothing()
    ensures { (p : Plan) (object : ℕ) → OthersWakeNothing wakes may_start (lead p object) }
{}
