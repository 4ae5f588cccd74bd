//! Telling which events a phase makes pending.

ghost use Rattle.std.specs.Prelude.{◌≡◌, ◌<◌, ◌≤◌, ◌+◌, ◌⊎◌, ℕ, Some, false, length, map, not, slice_get, slice_index_or, true};
ghost use Rattle.std.specs.List.{Contains};
ghost use Rattle.std.specs.Vec.{vec_capacity};
ghost use Rattle.mode_machine.specs.Chains.{AreChains, occurs};
ghost use Rattle.mode_machine.specs.Owed.{IsNamed, is_woken};
ghost use Rattle.mode_machine.specs.Tracked.{event_at, moment_in};

use crate::chains::Chains;
use crate::owed::{ModeEvent, OwedEvent};
use rte_value::Step;

/// Appends a name if it is to be told.
fn tell_if(is_told: bool, name: u32, told: &mut Vec<u32>)
    requires { length told.old.items < vec_capacity told.old }
    ensures told { is_told ≡ true → Contains told.new.items name }
    ensures kept { (other : ℕ) → Contains told.old.items other → Contains told.new.items other }
    ensures only { (other : ℕ) → Contains told.new.items other → Contains told.old.items other ⊎ ((is_told ≡ true) × (name ≡ other)) }
    ensures room { length told.new.items ≤ length told.old.items + 1 }
    ensures capacity { vec_capacity told.new ≡ vec_capacity told.old }
{
    if is_told {
        told.push_reserved(name);
    }
}

/// Appends the names of the events of a moment by which a phase makes a start possible. By no others it makes one possible.
pub(crate) fn tell_chain(
    events: &[OwedEvent],
    chains: &Chains,
    at: Option<ModeEvent>,
    step: Step,
    settled: u32,
    next: u32,
    names: &[u32],
    told: &mut Vec<u32>,
)
    requires chains { AreChains (map moment_in events.now) chains.now }
    requires others { (event : ℕ) → event < length events.now → occurs (map moment_in events.now) at event ≡ false → is_woken step settled next (event_at events.now event) ≡ false }
    requires named { length names.now ≡ length events.now }
    requires room { length told.old.items + length events.now ≤ vec_capacity told.old }
    ensures told { (at name : ℕ) → is_woken step settled next (event_at events.now at) ≡ true → slice_get names.now at ≡ Some name → Contains told.new.items name }
    ensures kept { (other : ℕ) → Contains told.old.items other → Contains told.new.items other }
    ensures only { (name : ℕ) → Contains told.new.items name → Contains told.old.items name ⊎ IsNamed names.now (λ at. is_woken step settled next (event_at events.now at)) name }
    ensures room { length told.new.items ≤ length told.old.items + length events.now }
    ensures capacity { vec_capacity told.new ≡ vec_capacity told.old }
{
    let mut from = chains.first(at);
    while let Some(event) = from {
        tell_if(
            events[event].is_woken(step, settled, next),
            names[event],
            told,
        );
        from = chains.next(event);
    }
}

/// Appends the names of the acknowledgement events that are not due.
pub(crate) fn tell_acks(acks: &[bool], names: &[u32], told: &mut Vec<u32>)
    requires named { length names.now ≡ length acks.now }
    requires room { length told.old.items + length acks.now ≤ vec_capacity told.old }
    ensures told { (at name : ℕ) → slice_index_or acks.now at false ≡ false → slice_get names.now at ≡ Some name → Contains told.new.items name }
    ensures kept { (other : ℕ) → Contains told.old.items other → Contains told.new.items other }
    ensures only { (name : ℕ) → Contains told.new.items name → Contains told.old.items name ⊎ IsNamed names.now (λ at. not (slice_index_or acks.now at false)) name }
    ensures capacity { vec_capacity told.new ≡ vec_capacity told.old }
{
    for at in 0..acks.len() {
        tell_if(!acks[at], names[at], told);
    }
}
