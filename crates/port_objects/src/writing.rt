//! Entries that benches write down.

ghost use Rattle.std.specs.Prelude.{◌≡◌, ◌<◌, ◌++◌, ◌∷◌, [], List, length, Some};
ghost use Rattle.bus_semantics.specs.declared.entries.Stamped.{Stamped};
ghost use Rattle.port_objects.specs.Benches.{written_last};

use bus_semantics::Stamped;

/// The entry that was written down last.
pub fn last_written(made: &[Stamped]) -> &Stamped
    requires { 0 < length made.now }
    ensures { written_last made.now ≡ Some result.now }
{
    last_entries_are_last();
    &made[made.len() - 1]
}

/// An entry that is written down behind others is the one that was written down last.
pub fn last_entries_are_last()
    ensures { (before : List Stamped) (s : Stamped) → written_last (before ++ s ∷ []) ≡ Some s }
{}
