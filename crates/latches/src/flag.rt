//! One flag.

ghost use Rattle.std.specs.Prelude.{◌≡◌};
ghost use Rattle.latches.specs.Latches.{clear_in, set_in};

use std::marker::Model;

/// A flag of a group.
#[derive(Drop)]
pub(crate) struct Flag {
    group: usize,
    is_set: bool,
}

impl Model for Flag {
    ghost use Rattle.latches.specs.Latches as kept;

    ghost Value = { kept.Latch };

    ghost view = { λ l. record { group = l.group; is_set = l.is_set } };
}

impl Flag {
    /// A flag that is set.
    pub fn set_in(group: usize) -> Flag
        ensures { result ≡ set_in group }
    {
        Flag {
            group,
            is_set: true,
        }
    }

    /// The number of its group.
    pub fn group(&self) -> usize
        ensures { result ≡ self.now.group }
    {
        self.group
    }

    /// Whether it is set.
    pub fn is_set(&self) -> bool
        ensures { result ≡ self.now.is_set }
    {
        self.is_set
    }

    /// Sets it.
    pub fn set(&mut self)
        ensures { self.new ≡ set_in self.old.group }
    {
        self.is_set = true;
    }

    /// Clears it.
    pub fn clear(&mut self)
        ensures { self.new ≡ clear_in self.old.group }
    {
        self.is_set = false;
    }
}
