//! Flags in groups.

ghost use Rattle.std.specs.Prelude.{◌≡◌, ◌<◌, ◌≤◌, ◌+◌, ◌⊎◌, ℕ, All, IfOk, Some, count_by, false, length, map, slice_get, set};
ghost use Rattle.std.specs.List.{Contains};
ghost use Rattle.std.specs.Vec.{vec_capacity};
ghost use Rattle.latches.specs.Latches.{IsNamedIn, Latch, after_set, clear_in, is_clear};
ghost use Rattle.latches.specs.Noted.{AreNoted};

use crate::Memory;
use crate::flag::Flag;
use crate::making::{all_set, empty_lists};
use crate::setting::{set_flags, tell_flags};
use std::alloc::Global;
use std::marker::Model;

/// Flags, each of a group, which take no memory once they are made. They are seen as a list.
///
/// The flags of a group are set all at once. That costs as much as there are flags of it that are clear, so over a run
/// setting costs no more than making and clearing them did.
#[derive(Drop)]
pub struct Latches {
    flags: Vec<Flag>,
    /// For each group the places of its flags that are clear.
    cleared: Vec<Vec<usize>>,
}

impl Model for Latches {
    ghost use Rattle.std.specs.Prelude.{List};
    ghost use Rattle.latches.specs.Latches as kept;
    ghost use Rattle.latches.specs.Noted.{AreNoted};

    ghost Value = { List kept.Latch };

    ghost view = { λ l. l.flags.items };

    ghost invariant = { λ l. AreNoted l.flags.items l.cleared.items };
}

impl Latches {
    /// A clear flag of each of these groups, which are numbers below `count`, at the cost of both. The only error is that
    /// there is no memory; no other call takes any.
    pub fn new(alloc: Global, groups: &[usize], count: usize) -> Result<Latches, Memory>
        requires { All (λ g. g < count) groups.now }
        ensures { IfOk result (λ l. l ≡ map clear_in groups.now) }
    {
        // If all flags are set, each list is empty; clearing them then fills the lists.
        let mut latches = Latches {
            flags: all_set(alloc, groups)?,
            cleared: empty_lists(alloc, groups, count)?,
        };
        for at in 0..groups.len() {
            latches.clear(at);
        }
        Ok(latches)
    }

    /// Whether a flag is set. The cost is the same for each.
    pub fn is_set(&self, at: usize) -> bool
        requires { at < length self.now }
        ensures { (l : Latch) → slice_get self.now at ≡ Some l → result ≡ l.is_set }
    {
        self.flags[at].is_set()
    }

    /// Clears a flag. The cost is the same for each.
    pub fn clear(&mut self, at: usize)
        requires { at < length self.old }
        ensures { (l : Latch) → slice_get self.old at ≡ Some l → self.new ≡ set self.old at (clear_in l.group) }
    {
        let flag = &mut self.flags[at];
        if flag.is_set() {
            let group = flag.group();
            flag.clear();
            self.cleared[group].push_reserved(at);
        }
    }

    /// Sets all flags of a group, at the cost of those that are clear. A group that there is not has none.
    pub fn set_group(&mut self, group: usize)
        ensures { self.new ≡ map (after_set group) self.old }
    {
        if group < self.cleared.len() {
            set_flags(&mut self.flags, &mut self.cleared, group);
        }
    }

    /// Sets all flags of a group, at the cost of those that are clear, and appends the names of those. Each flag has a name,
    /// at its place in the list of names. A group that there is not has no flags.
    pub fn set_and_tell(&mut self, group: usize, names: &[u32], told: &mut Vec<u32>)
        requires named { length names.now ≡ length self.old }
        requires room { length told.old.items + count_by is_clear self.old ≤ vec_capacity told.old }
        ensures set { self.new ≡ map (after_set group) self.old }
        ensures told { (at name : ℕ) (l : Latch) → slice_get self.old at ≡ Some l → l.group ≡ group → l.is_set ≡ false → slice_get names.now at ≡ Some name → Contains told.new.items name }
        ensures kept { (name : ℕ) → Contains told.old.items name → Contains told.new.items name }
        ensures only { (name : ℕ) → Contains told.new.items name → Contains told.old.items name ⊎ IsNamedIn group self.old names.now name }
        ensures room { length told.new.items + count_by is_clear self.new ≤ length told.old.items + count_by is_clear self.old }
        ensures capacity { vec_capacity told.new ≡ vec_capacity told.old }
    {
        if group < self.cleared.len() {
            tell_flags(&mut self.flags, &mut self.cleared, group, names, told);
        }
    }
}
