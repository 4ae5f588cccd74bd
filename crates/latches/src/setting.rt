//! Setting the flags of a group.

ghost use Rattle.std.specs.Prelude.{◌≡◌, ◌<◌, ◌≤◌, ◌+◌, ◌⊎◌, ℕ, Some, count_by, false, length, map, set, slice_get};
ghost use Rattle.std.specs.List.{Contains};
ghost use Rattle.std.specs.Vec.{vec_capacity};
ghost use Rattle.latches.specs.Latches.{IsNamedIn, Latch, after_set, is_clear, set_in};
ghost use Rattle.latches.specs.Noted.{AreNoted};

use crate::flag::Flag;

/// Sets the flags of a group.
pub(crate) fn set_flags(flags: &mut [Flag], cleared: &mut [Vec<usize>], group: usize)
    requires there { group < length cleared.old }
    requires noted { AreNoted flags.old cleared.old }
    ensures set { flags.new ≡ map (after_set group) flags.old }
    ensures noted { AreNoted flags.new cleared.new }
{
    let places = &mut cleared[group];
    while let Some(place) = places.pop() {
        flags[place].set();
    }
}

/// Sets a flag, and appends its name if it was clear.
fn tell(flags: &mut [Flag], place: usize, names: &[u32], told: &mut Vec<u32>)
    requires within { place < length flags.old }
    requires named { length names.now ≡ length flags.old }
    requires room { length told.old.items + count_by is_clear flags.old ≤ vec_capacity told.old }
    ensures set { (l : Latch) → slice_get flags.old place ≡ Some l → flags.new ≡ set flags.old place (set_in l.group) }
    ensures told { (l : Latch) (name : ℕ) → slice_get flags.old place ≡ Some l → l.is_set ≡ false → slice_get names.now place ≡ Some name → Contains told.new.items name }
    ensures kept { (name : ℕ) → Contains told.old.items name → Contains told.new.items name }
    ensures only { (l : Latch) (name : ℕ) → slice_get flags.old place ≡ Some l → Contains told.new.items name → Contains told.old.items name ⊎ ((l.is_set ≡ false) × (slice_get names.now place ≡ Some name)) }
    ensures room { length told.new.items + count_by is_clear flags.new ≤ length told.old.items + count_by is_clear flags.old }
    ensures capacity { vec_capacity told.new ≡ vec_capacity told.old }
{
    let flag = &mut flags[place];
    if !flag.is_set() {
        flag.set();
        told.push_reserved(names[place]);
    }
}

/// Sets the flags of a group, and appends the names of those that were clear.
pub(crate) fn tell_flags(
    flags: &mut [Flag],
    cleared: &mut [Vec<usize>],
    group: usize,
    names: &[u32],
    told: &mut Vec<u32>,
)
    requires there { group < length cleared.old }
    requires noted { AreNoted flags.old cleared.old }
    requires named { length names.now ≡ length flags.old }
    requires room { length told.old.items + count_by is_clear flags.old ≤ vec_capacity told.old }
    ensures set { flags.new ≡ map (after_set group) flags.old }
    ensures noted { AreNoted flags.new cleared.new }
    ensures told { (at name : ℕ) (l : Latch) → slice_get flags.old at ≡ Some l → l.group ≡ group → l.is_set ≡ false → slice_get names.now at ≡ Some name → Contains told.new.items name }
    ensures kept { (name : ℕ) → Contains told.old.items name → Contains told.new.items name }
    ensures only { (name : ℕ) → Contains told.new.items name → Contains told.old.items name ⊎ IsNamedIn group flags.old names.now name }
    ensures room { length told.new.items + count_by is_clear flags.new ≤ length told.old.items + count_by is_clear flags.old }
    ensures capacity { vec_capacity told.new ≡ vec_capacity told.old }
{
    let places = &mut cleared[group];
    while let Some(place) = places.pop() {
        tell(flags, place, names, told);
    }
}
