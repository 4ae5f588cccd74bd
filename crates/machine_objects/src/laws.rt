//! Laws of mode machines.

ghost use Rattle.std.specs.Prelude.{◌≡◌, ◌≤◌, ◌<◌, ℕ, [], None, false, unwrap_or};
ghost use Rattle.bus_semantics.specs.declared.script.Mapping.{Mapping};
ghost use Rattle.bus_semantics.specs.Common.{Plan, Noted, first_machine, clock, to_move_on, wanted_by, IsSound};
ghost use Rattle.object_kinds.specs.Kinds.{LeadsFollow, LeadsKeep, MissesNothing, StartsByFlag, OthersWakeNothing};
ghost use Rattle.machine_objects.specs.Layout.{IsMachine, machine_of};
ghost use Rattle.machine_objects.specs.Kept.{Kept, opening, may_start, may_move};
ghost use Rattle.machine_objects.specs.Leading.{lead, wakes};
ghost use Rattle.machine_objects.specs.Plans.{AreTheirs};
ghost use Rattle.machine_objects.specs.Standing.{Keeps};

/// An entry by which a machine leads on is what the bus answers after the machine's past and matches it, and what is kept then is
/// what the definitions give from the past and the entry (SWS_RTE: mode switch procedure, Rte_Switch, Rte_Mode, SwcModeSwitchEvent,
/// ModeSwitchedAckEvent, ModeDisablingDependency).
pub fn leads_are_legal()
    ensures follow { (p : Plan) (object : ℕ) → LeadsFollow p object (Keeps p object) lead }
    ensures keep { (p : Plan) (object : ℕ) → LeadsKeep p object (Keeps p object) lead }
{}

/// A machine of a sound plan misses no entry that may follow its past.
pub fn leads_miss_nothing()
    ensures { (p : Plan) (m : Mapping) (object : ℕ) → IsSound p m → MissesNothing p object (Keeps p object) lead }
{}

/// What a machine keeps before anything has happened is what the definitions give from no entry.
pub fn first_machine_stands_for_nothing()
    ensures { (p : Plan) (object : ℕ) → IsMachine p object → Keeps p object (opening p (machine_of p object)) [] }
{}

/// The objects of a sound plan that have a machine's number are machines, and each of its events is started or disabled by one machine
/// at most, which is one of the plan's.
pub fn machines_of_sound_plans()
    ensures machine { (p : Plan) (m : Mapping) (object : ℕ) → IsSound p m → first_machine p ≤ object → object < clock p → IsMachine p object }
    ensures theirs { (p : Plan) (m : Mapping) → IsSound p m → AreTheirs p }
{}

/// A start by an event that is not pending, or of which an activation runs, leads nowhere.
pub fn starts_go_by_flags()
    ensures { StartsByFlag may_start lead }
{}

/// Only a phase and an end make a start come.
pub fn other_entries_wake_nothing()
    ensures { OthersWakeNothing wakes may_start lead }
{}

/// If no phase may come, none leads on.
pub fn phases_go_by_may_move()
    ensures { (k : Kept) (n : Noted) → may_move k ≡ false → wanted_by (unwrap_or n.event 0) n.entry.deed ≡ to_move_on → lead k n ≡ None }
{}
