//! The rule of the table, and what each of its steps tells its seat. These types are for the proofs alone.
ghost use Rattle.std.specs.Prelude.{ℕ, Option, None};
ghost use Rattle.bus_semantics.specs.declared.entries.Actor.TheVariants.{Env};
ghost use Rattle.bus_semantics.specs.declared.entries.Deed.TheVariants.{Tick};
ghost use Rattle.bus_semantics.specs.declared.entries.Entry.{Entry};
ghost use Rattle.cross_core_table.specs.Rules.{RoundRule};
ghost use Rattle.cross_core_table.specs.Plays.{first_view, locked, stamped_on, stamped_off, unlocked, looked, giving, newcomer, joining, spent};

use crate::views::{Opening, View};
use atomic_table::{Join, Play, Split, TableRule};
use port_objects::Object;
use std::marker::{Brand, PhantomData};

/// The rule of a round, over what it was opened with.
pub struct Ruled;

impl TableRule<Object, View, Opening> for Ruled {
    ghost holds = { RoundRule };

    ghost first = { first_view };
}

/// The entry that a stamp is for. A call at `Brand` picks it from what it requires.
pub(crate) trait Names {
    ghost entry: { Entry };

    ghost event: { Option ℕ };
}

impl Names for Brand {
    ghost entry = { record { actor = Env; deed = Tick } };

    ghost event = { None };
}

/// A try for an object.
pub(crate) struct Lock;

impl Play<Object, View> for Lock {
    ghost then = { locked };
}

/// A stamp for an entry of the object that the seat holds.
pub(crate) struct StampOn<N> {
    of: PhantomData<N>,
}

impl<N: Names> Play<Object, View> for StampOn<N> {
    ghost then = { stamped_on N.entry N.event };
}

/// A stamp for an entry that touches no object.
pub(crate) struct StampOff<N> {
    of: PhantomData<N>,
}

impl<N: Names> Play<Object, View> for StampOff<N> {
    ghost then = { stamped_off N.entry };
}

/// An object is given back after an entry.
pub(crate) struct Unlock;

impl Play<Object, View> for Unlock {
    ghost then = { unlocked };
}

/// An object is given back without one.
pub(crate) struct Look;

impl Play<Object, View> for Look {
    ghost then = { looked };
}

/// A seat is given.
pub(crate) struct Give;

impl Split<View> for Give {
    ghost left = { giving };

    ghost right = { newcomer };
}

/// A seat is taken in.
pub(crate) struct TakeIn;

impl Join<View> for TakeIn {
    ghost both = { joining };

    ghost spent = { spent };
}
