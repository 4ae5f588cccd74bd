//! Flags that are set all at once.

ghost use Rattle.std.specs.Prelude.{◌≡◌, ◌<◌, ◌≤◌, ◌+◌, ◌⊎◌, ℕ, IfOk, Some, count_by, false, length, not, replicate, set, slice_get, true};
ghost use Rattle.bus_semantics.specs.Common.{Contains, vec_capacity};
ghost use Rattle.data_objects.specs.Flags.{IsOfClear};

use crate::Memory;
use latches::Latches;
use std::alloc::Global;
use std::marker::Model;

/// The number of the one group.
const ALL: usize = 0;

/// Flags that are set all at once, at the cost of those that are clear, and cleared one by one. They are seen as a list:
/// for each whether it is set.
#[derive(Drop)]
pub(crate) struct Flags {
    latches: Latches,
}

impl Model for Flags {
    ghost use Rattle.std.specs.Prelude.{List, Bool};
    ghost use Rattle.data_objects.specs.Flags.{AreOneGroup, are_set};

    ghost Value = { List Bool };

    ghost view = { λ f. are_set f.latches };

    ghost invariant = { λ f. AreOneGroup f.latches };
}

impl Flags {
    /// Flags that are clear. The only error is that there is no memory; no other call takes any.
    pub fn all_clear(alloc: Global, count: usize) -> Result<Flags, Memory>
        ensures { IfOk result (λ f. f ≡ replicate count false) }
    {
        let groups = vec![in alloc; ALL; count]?;
        let latches = Latches::new(alloc, &groups, ALL + 1)?;
        Ok(Flags { latches })
    }

    /// Whether a flag is set.
    pub fn is_set(&self, at: usize) -> bool
        requires { at < length self.now }
        ensures { Some result ≡ slice_get self.now at }
    {
        self.latches.is_set(at)
    }

    /// Clears a flag.
    pub fn clear(&mut self, at: usize)
        requires { at < length self.old }
        ensures { self.new ≡ set self.old at false }
    {
        self.latches.clear(at);
    }

    /// Sets all flags.
    pub fn set_all(&mut self)
        ensures { self.new ≡ replicate (length self.old) true }
    {
        self.latches.set_group(ALL);
    }

    /// Sets all flags, and appends the names of those that were clear.
    pub fn set_and_tell(&mut self, names: &[u32], told: &mut Vec<u32>)
        requires named { length names.now ≡ length self.old }
        requires room { length told.old.items + count_by not self.old ≤ vec_capacity told.old }
        ensures set { self.new ≡ replicate (length self.old) true }
        ensures told { (at name : ℕ) → slice_get self.old at ≡ Some false → slice_get names.now at ≡ Some name → Contains told.new.items name }
        ensures kept { (name : ℕ) → Contains told.old.items name → Contains told.new.items name }
        ensures only { (name : ℕ) → Contains told.new.items name → Contains told.old.items name ⊎ IsOfClear self.old names.now name }
        ensures room { length told.new.items + count_by not self.new ≤ length told.old.items + count_by not self.old }
        ensures capacity { vec_capacity told.new ≡ vec_capacity told.old }
    {
        self.latches.set_and_tell(ALL, names, told);
    }
}
