//! What an object answers to a wish.

use bus_semantics::Entry;
use rte_value::ActKey;

/// What came of a wish.
#[derive(Drop)]
pub enum Acted {
    /// This entry was made.
    Done(Entry),
    /// No entry of the wish may come, and why.
    NotYet(Shown),
}

/// What came of a wish, whose entry is filled in where it is to lie: an answer that holds an entry is copied at each call that it passes.
#[derive(Drop)]
pub enum Filled {
    /// The entry was made, and filled in.
    Done,
    /// No entry of the wish may come, and why. What was filled in is no entry.
    NotYet(Shown),
}

/// Why no entry of a wish may come.
#[derive(Clone, Copy)]
pub enum Shown {
    /// The event is not pending.
    NotDue(u32),
    /// The area is held by this activation.
    HeldBy(ActKey),
    /// Nothing was returned for the point.
    NotReturned(u32),
    /// No accepted switch has not begun.
    NoSwitch,
    /// An admitted activation of the event runs that the next mode disables.
    Running(u32),
    /// What the event owes is not done.
    Owed(u32),
    /// The wish is none of the object's, or does not match what was before.
    Unmatched,
}
