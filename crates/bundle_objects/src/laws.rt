//! Laws of bundles.

ghost use Rattle.std.specs.Prelude.{◌≡◌, ℕ, []};
ghost use Rattle.bus_semantics.specs.declared.script.Mapping.{Mapping};
ghost use Rattle.bus_semantics.specs.Common.{Plan, IsSound};
ghost use Rattle.object_kinds.specs.Kinds.{LeadsFollow, LeadsKeep, MissesNothing, StartsByFlag, OthersWakeNothing};
ghost use Rattle.bundle_objects.specs.Kept.{opening, may_start};
ghost use Rattle.bundle_objects.specs.Layout.{IsBundle};
ghost use Rattle.bundle_objects.specs.Leading.{lead, wakes};
ghost use Rattle.bundle_objects.specs.Standing.{Keeps};

/// An entry by which a bundle leads on is what the bus answers after the bundle's past and matches it, and what is kept then is
/// what the definitions give from the past and the entry: a fetch of a list has the values of all its elements at that moment, and a
/// publication of a list stores those of all marked elements at once (SWS_RTE: Rte_IRead, Rte_IWrite and the others of unqueued data).
pub fn leads_are_legal()
    ensures follow { (p : Plan) (bundle : ℕ) → LeadsFollow p bundle (Keeps p bundle) (lead p) }
    ensures keep { (p : Plan) (bundle : ℕ) → LeadsKeep p bundle (Keeps p bundle) (lead p) }
{}

/// A bundle of a sound plan misses no entry that may follow its past.
pub fn leads_miss_nothing()
    ensures { (p : Plan) (m : Mapping) (bundle : ℕ) → IsSound p m → MissesNothing p bundle (Keeps p bundle) (lead p) }
{}

/// What a bundle keeps before anything has happened is what the definitions give from no entry.
pub fn first_bundle_stands_for_nothing()
    ensures { (p : Plan) (bundle : ℕ) → IsBundle p bundle → Keeps p bundle (opening p bundle) [] }
{}

/// A start by an event that is not pending leads nowhere.
pub fn starts_go_by_flags()
    ensures { (p : Plan) → StartsByFlag may_start (lead p) }
{}

/// Only a write or a publication, of an element or of a list, makes a start come.
pub fn other_entries_wake_nothing()
    ensures { (p : Plan) → OthersWakeNothing wakes may_start (lead p) }
{}
