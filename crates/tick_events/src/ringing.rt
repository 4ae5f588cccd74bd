//! The countdowns that end at a tick.

ghost use Rattle.std.specs.Prelude.{◌≡◌, ◌≤◌, ◌+◌, ◌⊎◌, ℕ, count_by, false, length, map, slice_get, Some, true};
ghost use Rattle.std.specs.List.{Contains};
ghost use Rattle.std.specs.Vec.{vec_capacity};
ghost use Rattle.latches.specs.Latches.{IsNewlySet, is_clear};
ghost use Rattle.tick_events.specs.Running.{AreFit, IsRunning, pending, settled_timer};

use crate::countdowns::Countdowns;
use latches::Latches;

/// Begins each countdown anew that has ended, and makes the TimingEvents of its period pending.
pub(crate) fn ring(flags: &mut Latches, countdowns: &mut Countdowns)
    requires { AreFit countdowns.old flags.old }
    ensures running { IsRunning countdowns.new flags.new }
    ensures settled { map (settled_timer countdowns.new) flags.new ≡ map (settled_timer countdowns.old) flags.old }
{
    while let Some(ended) = countdowns.ended() {
        countdowns.restart(ended);
        flags.set_group(ended);
    }
}

/// Begins each countdown anew that has ended, and makes the TimingEvents of its period pending; appends the names of those
/// that were not pending yet.
pub(crate) fn ring_and_tell(
    flags: &mut Latches,
    countdowns: &mut Countdowns,
    names: &[u32],
    rung: &mut Vec<u32>,
)
    requires fit { AreFit countdowns.old flags.old }
    requires named { length names.now ≡ length flags.old }
    requires room { length rung.old.items + count_by is_clear flags.old ≤ vec_capacity rung.old }
    ensures running { IsRunning countdowns.new flags.new }
    ensures settled { map (settled_timer countdowns.new) flags.new ≡ map (settled_timer countdowns.old) flags.old }
    ensures told { (event name : ℕ) → pending flags.old event ≡ Some false → pending flags.new event ≡ Some true → slice_get names.now event ≡ Some name → Contains rung.new.items name }
    ensures only { (name : ℕ) → Contains rung.new.items name → Contains rung.old.items name ⊎ IsNewlySet flags.old flags.new names.now name }
    ensures capacity { vec_capacity rung.new ≡ vec_capacity rung.old }
{
    while let Some(ended) = countdowns.ended() {
        countdowns.restart(ended);
        flags.set_and_tell(ended, names, rung);
    }
}
