//! What each kind of object owes, and what several kinds need.
//!
//! `Kinds.antt` has the words in which a kind states its laws. They name no kind.
//!
//! # Decisions
//!
//! **What is a receiver of a group?** The place of an element among all elements of the group, in rising order. The elements that
//! provide have a place too, which no call reads. So a receiver is found by a binary search in the plan's own list.
//!
//! **What does an object keep beside the last values and flags?** The numbers of the plan's events that wait for it, in rising
//! order. A start names an event of the plan, and a walk over all events at each start would be quadratic.
//!
//! **When is a wish held back?** If no entry of the asking actor and of the wish, with the event of that entry, leads on. Another
//! actor's entry of the same wish may: the one who holds an area may leave it. Whether a start may come is told by a flag besides,
//! for activations that serve no single point; the start of a direct server depends on the point, which a flag by event does not
//! know.
//!
//! **What does an object tell?** In a list of its own, the events that its last write, publication or tick made pending. The list
//! has room for all that wait for the object from the beginning, so no call takes memory. It is no part of what the object keeps,
//! so the lead and all that stands on it know nothing of it. Of all kinds together it is said only that the list misses none: a
//! kind may tell more than what became pending, and whoever looks finds that such a start may not come.
//!
//! **How are the events of each group found?** In one walk over the events of the plan, each put into the list of its group. A
//! walk for each group would be quadratic.
#![tactic(auto)]

mod acted;
mod places;
mod short_values;
mod waiting;

pub use acted::{Acted, Filled, Shown};
pub use places::find;
pub use short_values::only_word;
pub use waiting::{append_to, bundle_events, empty_lists, take_list};

/// There was no memory for what a call makes.
pub type Memory = std::alloc::AllocError;
