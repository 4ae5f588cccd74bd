//! The laws of sent values.

ghost use Rattle.std.specs.Prelude.{◌≡◌, ◌≤◌, ◌++◌, ℕ, ℤ, List, [], ◌∷◌, length, slice_get, true, Some};
ghost use Rattle.bus_semantics.specs.Common.{Value, words_of, Plan, History, Past, noted, takes_at, accepted_at, places_at, IsLegal, IsSound};
ghost use Rattle.bus_laws.specs.Common.{Mapping, Entry};
ghost use Rattle.bus_semantics.specs.declared.entries.Deed.TheVariants as deed;
ghost use Rattle.pair_run.specs.Sent.{takes, EnvironmentKeepsLimits, IsReceived, waiting_at};

/// What a queue of a sound plan accepts, and what a Receive takes there, are values of its element: as many words as this
/// has, each within its limits. The history is legal, and what the environment sends in it keeps its limits (what
/// activations send always does). A Receive with another code gives nothing (SWS_RTE: Rte_Send, Rte_Receive). A Receive gives such
/// a value with 0 or 64, or none with 131 or 134; no other code comes.
pub fn received_values_are_within()
    ensures accepted { (p : Plan) (m : Mapping) (h : History) (elem place : ℕ) (words : List ℤ) → IsSound p m → IsLegal p h →
        EnvironmentKeepsLimits p h → slice_get (accepted_at p elem (noted h)) place ≡ Some words → takes p elem words ≡ true }
    ensures received { (p : Plan) (m : Mapping) (h : History) (e : Entry) (elem code : ℕ) (value : Value) → IsSound p m →
        IsLegal p (e ∷ h) → EnvironmentKeepsLimits p h → e.deed ≡ deed.Receive elem code value →
        IsReceived p elem code (words_of value) }
{}

/// A queue never holds more values than it has places, which in a sound plan are at most 1,024 (SWS_RTE: queueLength).
pub fn queues_are_never_overfull()
    ensures held { (p : Plan) (elem : ℕ) (l : Past) → length (waiting_at p elem l) ≤ places_at p elem }
    ensures places { (p : Plan) (m : Mapping) (elem : ℕ) → IsSound p m → places_at p elem ≤ 1024 }
{}

/// In a legal history a Receive that takes a value takes the oldest that the queue holds, and leaves it the others. One that answers
/// 131 finds the queue empty. So at most as many Receives in a row take a value as the queue has places.
pub fn receives_take_the_oldest()
    ensures oldest { (p : Plan) (h : History) (e : Entry) (elem code : ℕ) (value : Value) → IsLegal p (e ∷ h) →
        e.deed ≡ deed.Receive elem code value → takes_at elem e.deed ≡ true →
        waiting_at p elem (noted h) ≡ words_of value ∷ waiting_at p elem (noted (e ∷ h)) }
    ensures none_left { (p : Plan) (h : History) (e : Entry) (elem : ℕ) (value : Value) → IsLegal p (e ∷ h) →
        e.deed ≡ deed.Receive elem 131 value → waiting_at p elem (noted h) ≡ [] }
{}
