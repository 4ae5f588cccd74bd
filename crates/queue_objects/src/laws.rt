//! Laws of groups of queued data elements.

ghost use Rattle.std.specs.Prelude.{◌≡◌, ◌<◌, ◌≤◌, ◌++◌, ◌^◌, ℕ, ℤ, List, [], Some, length, map, slice_get, sum, take, true};
ghost use Rattle.bus_semantics.specs.Common.{words_of, Plan, History, Past, noted, IsLegal, IsPastOf, accepted_at, taken_at, places_at, is_in_group, IsSound};
ghost use Rattle.bus_semantics.specs.declared.script.Mapping.{Mapping};
ghost use Rattle.queued_ports.specs.Kept.{Queue};
ghost use Rattle.object_kinds.specs.Common.{group_at, IsAlone, place, StandsFor, LeadsFollow, LeadsKeep, MissesNothing, StartsByFlag, OthersWakeNothing};
ghost use Rattle.queue_objects.specs.Kept.{Kept, opening, may_start};
ghost use Rattle.queue_objects.specs.Layout.{receivers_of, is_queued_at, IsQueuedGroup};
ghost use Rattle.queue_objects.specs.Leading.{lead, wakes};
ghost use Rattle.queue_objects.specs.Order.{values_taken};
ghost use Rattle.queue_objects.specs.Standing.{Keeps};

/// The k-th Receive of an element that takes a value gives the k-th value that the element's queue accepted (SWS_RTE: Rte_Send,
/// Rte_Receive). So values are received in the order in which they were sent, each once, and none that was discarded. It holds after
/// any past of the element's group, and after any legal history.
pub fn values_are_received_in_order()
    ensures kth { (p : Plan) (group elem : ℕ) (l : Past) → IsPastOf p group l → (k : ℕ) (ws : List ℤ) → slice_get (values_taken elem l) k ≡ Some ws → slice_get (accepted_at p elem l) k ≡ Some ws }
    ensures all { (p : Plan) (group elem : ℕ) (l : Past) → IsPastOf p group l → values_taken elem l ≡ take (taken_at elem l) (accepted_at p elem l) }
    ensures fewer { (p : Plan) (group elem : ℕ) (l : Past) → IsPastOf p group l → taken_at elem l ≤ length (accepted_at p elem l) }
    ensures legal { (p : Plan) (elem : ℕ) (h : History) → IsLegal p h → values_taken elem (noted h) ≡ take (taken_at elem (noted h)) (accepted_at p elem (noted h)) }
{}

/// After any past of a group the queue of a receiver holds what was accepted and not taken, the oldest value first: the values that
/// were taken and then those that it holds are those that it accepted. It holds no more than its length (SWS_RTE: Rte_Send,
/// Rte_Receive, queueLength).
pub fn queues_hold_what_was_not_taken()
    ensures rest { (p : Plan) (object : ℕ) (k : Kept) (l : Past) (elem receiver : ℕ) (q : Queue) → StandsFor p object (Keeps p object) k l → place elem k.receivers ≡ Some receiver →
        slice_get k.queued.queues receiver ≡ Some q → values_taken elem l ++ map words_of q.held ≡ accepted_at p elem l }
    ensures few { (p : Plan) (object : ℕ) (k : Kept) (l : Past) (elem receiver : ℕ) (q : Queue) → StandsFor p object (Keeps p object) k l → place elem k.receivers ≡ Some receiver →
        slice_get k.queued.queues receiver ≡ Some q → length q.held ≤ places_at p elem }
{}

/// An entry by which a group leads on is what the bus answers after the group's past and matches it, and what is kept then is
/// what the definitions give from the past and the entry (SWS_RTE: Rte_Send, Rte_Receive, DataReceivedEvent).
pub fn leads_are_legal()
    ensures follow { (p : Plan) (object : ℕ) → LeadsFollow p object (Keeps p object) (lead p) }
    ensures keep { (p : Plan) (object : ℕ) → LeadsKeep p object (Keeps p object) (lead p) }
{}

/// A group of a sound plan misses no entry that may follow its past.
pub fn leads_miss_nothing()
    ensures { (p : Plan) (m : Mapping) (object : ℕ) → IsSound p m → MissesNothing p object (Keeps p object) (lead p) }
{}

/// What a group keeps before anything has happened is what the definitions give from no entry.
pub fn first_queues_stand_for_nothing()
    ensures { (p : Plan) (object : ℕ) → IsAlone p object → IsQueuedGroup p (group_at p object) → Keeps p object (opening p (group_at p object)) [] }
{}

/// A group of a sound plan with a queued element is a group of queued elements, and its queues have no more places than
/// `QueueGroup::new` asks for.
pub fn queued_groups_of_sound_plans()
    ensures group { (p : Plan) (m : Mapping) (group elem : ℕ) → IsSound p m → is_in_group p group elem ≡ true → is_queued_at p elem ≡ true → IsQueuedGroup p group }
    ensures places { (p : Plan) (m : Mapping) (group : ℕ) → IsSound p m → IsQueuedGroup p group → sum (map (places_at p) (receivers_of p group)) < 2 ^ 32 }
{}

/// A start by an event that is not pending leads nowhere.
pub fn starts_go_by_flags()
    ensures { (p : Plan) → StartsByFlag may_start (lead p) }
{}

/// Only a send makes a start come.
pub fn other_entries_wake_nothing()
    ensures { (p : Plan) → OthersWakeNothing wakes may_start (lead p) }
{}
