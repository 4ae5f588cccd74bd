//! Laws of servers.

ghost use Rattle.std.specs.Prelude.{◌≡◌, ◌<◌, ◌≤◌, ◌+◌, ℕ, [], length, true, Option};
ghost use Rattle.bus_semantics.specs.Common.{Value, words_of, Plan, Past, first_server, IsPastOf, Follows, IsSound};
ghost use Rattle.bus_semantics.specs.declared.entries.Actor.{Actor};
ghost use Rattle.bus_semantics.specs.declared.entries.Deed.TheVariants as deed;
ghost use Rattle.bus_semantics.specs.declared.script.Mapping.{Mapping};
ghost use Rattle.object_kinds.specs.Kinds.{LeadsFollow, LeadsKeep, MissesNothing, StartsByFlag, OthersWakeNothing};
ghost use Rattle.server_objects.specs.Answered.{IsReturnOf};
ghost use Rattle.server_objects.specs.Kept.{opening, may_start};
ghost use Rattle.server_objects.specs.Layout.{IsServer};
ghost use Rattle.server_objects.specs.Leading.{lead, wakes};
ghost use Rattle.server_objects.specs.Plans.{AreJoined};
ghost use Rattle.server_objects.specs.Standing.{Keeps};

/// An Answer, and a result with a code below 64, gives what an activation returned that was started for the same point, with the words of
/// the point's last request: the Return of that point's own request (SWS_RTE: Rte_Call, Rte_Result). It holds after any past of the server.
pub fn answers_give_the_return_of_their_own_request()
    ensures answer { (p : Plan) (m : Mapping) (object : ℕ) (l : Past) (a : Actor) (event : Option ℕ) (point code : ℕ) (value : Value) → IsSound p m → IsServer p object → IsPastOf p object l →
        Follows p object l (record { entry = record { actor = a; deed = deed.Answer point code value }; event = event }) → IsReturnOf point code (words_of value) l }
    ensures taken { (p : Plan) (m : Mapping) (object : ℕ) (l : Past) (a : Actor) (event : Option ℕ) (point code : ℕ) (value : Value) → IsSound p m → IsServer p object → IsPastOf p object l →
        Follows p object l (record { entry = record { actor = a; deed = deed.TakeResult point code value }; event = event }) → code < 64 → IsReturnOf point code (words_of value) l }
{}

/// An entry by which a server leads on is what the bus answers after the server's past and matches it, and what is kept then is what the
/// definitions give from the past and the entry (SWS_RTE: Rte_Call, Rte_Result, OperationInvokedEvent, AsynchronousServerCallReturnsEvent).
pub fn leads_are_legal()
    ensures follow { (p : Plan) (object : ℕ) → LeadsFollow p object (Keeps p object) lead }
    ensures keep { (p : Plan) (object : ℕ) → LeadsKeep p object (Keeps p object) lead }
{}

/// A server of a sound plan misses no entry that may follow its past.
pub fn leads_miss_nothing()
    ensures { (p : Plan) (m : Mapping) (object : ℕ) → IsSound p m → MissesNothing p object (Keeps p object) lead }
{}

/// What a server keeps before anything has happened is what the definitions give from no entry.
pub fn first_servers_stand_for_nothing()
    ensures { (p : Plan) (object : ℕ) → IsServer p object → Keeps p object (opening p object) [] }
{}

/// Each server of a sound plan is an object that `ServerObject::new` makes, and the points are joined to such servers.
pub fn servers_of_sound_plans()
    ensures server { (p : Plan) (m : Mapping) (server : ℕ) → IsSound p m → server < length p.servers → IsServer p (first_server p + server) }
    ensures joined { (p : Plan) (m : Mapping) → IsSound p m → AreJoined p }
{}

/// A plain start by an event that is not pending leads nowhere.
pub fn starts_go_by_flags()
    ensures { StartsByFlag may_start lead }
{}

/// Only an Ask or a Return makes a start come.
pub fn other_entries_wake_nothing()
    ensures { OthersWakeNothing wakes may_start lead }
{}
