//! The data elements and variables of a plan, the groups that joins make of them, its coherent access lists, and the bundles that these make of
//! groups.
//!
//! # Decisions
//!
//! **What is the least element of a group?** The least among an element's partners and their partners: by the rule on groups one
//! side of a group has one element. An element belongs to the group of its group number, so that an element's group and the list
//! of its group agree for every description.
//!
//! **When does a list read?** When its first item is of an R-port. If rules 16 and 31 hold, all its items are then read
//! implicitly, and else all are written so; the accesses need not be searched for each list.
#![tactic(auto)]

mod bundles;
mod elements;
mod ends;
mod groups;
mod leaders;
mod lists;
mod members;
mod runnable_lists;
mod said;
mod spread;
mod types;

pub use bundles::{Bundling, bundle_lists};
pub use elements::element_plans;
pub use groups::{Grouping, Groups, group_lists, grouping_of, groups_over};
pub use lists::list_plans;
pub use members::all_members;
pub use runnable_lists::{Listed, lists_over};
