//! Exclusive areas: who is in one, and who may enter it; and each as an object of the bus. No call takes memory.
//!
//! # Decisions
//!
//! **What does an area's object keep?** The activation that is in it, and not a count of Enters and Leaves: after a past of the
//! area the two say the same (`held_areas_have_one_holder`), and who holds another back can be shown. An Enter of an area that is
//! held is held back also for the activation that is in it.
#![tactic(auto)]

mod area;
mod held;
mod laws;
mod threads;

pub use area::AreaObject;
pub use held::{Area, Entered};
pub use laws::{
    first_area_stands_for_nothing, held_areas_have_one_holder, leads_are_legal, leads_miss_nothing,
    other_entries_wake_nothing, starts_go_by_flags,
};
