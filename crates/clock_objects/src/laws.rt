//! Laws of the clock.

ghost use Rattle.std.specs.Prelude.{◌≡◌, ℕ, []};
ghost use Rattle.bus_semantics.specs.declared.script.Mapping.{Mapping};
ghost use Rattle.bus_semantics.specs.Common.{Plan, clock, IsSound};
ghost use Rattle.object_kinds.specs.Kinds.{LeadsFollow, LeadsKeep, MissesNothing, StartsByFlag, OthersWakeNothing};
ghost use Rattle.clock_objects.specs.Kept.{opening, may_start};
ghost use Rattle.clock_objects.specs.Leading.{lead, wakes};
ghost use Rattle.clock_objects.specs.Standing.{Keeps};

/// An entry by which the clock leads on is what the bus answers after the clock's past and matches it, and what is kept then is
/// what the definitions give from the past and the entry (SWS_RTE: TimingEvent, InitEvent).
pub fn leads_are_legal()
    ensures follow { (p : Plan) (object : ℕ) → LeadsFollow p object (Keeps p object) lead }
    ensures keep { (p : Plan) (object : ℕ) → LeadsKeep p object (Keeps p object) lead }
{}

/// The clock of a sound plan misses no entry that may follow its past.
pub fn leads_miss_nothing()
    ensures { (p : Plan) (m : Mapping) (object : ℕ) → IsSound p m → MissesNothing p object (Keeps p object) lead }
{}

/// What the clock keeps before anything has happened is what the definitions give from no entry.
pub fn first_clock_stands_for_nothing()
    ensures { (p : Plan) → Keeps p (clock p) (opening p) [] }
{}

/// A start by an event that is not pending leads nowhere.
pub fn starts_go_by_flags()
    ensures { StartsByFlag may_start lead }
{}

/// Only a tick makes a start come.
pub fn other_entries_wake_nothing()
    ensures { OthersWakeNothing wakes may_start lead }
{}
