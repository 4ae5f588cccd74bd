//! What the rules on components, joins and mapping say, and which plan a description has: types and definitions.
//!
//! The crate has no code: what judges and what plans stands on it, and so do the laws on sound plans.
#![tactic(auto)]

mod calling;
mod component_rule;
mod item;
mod join_rule;
mod part;
mod site;
mod spot;

pub use calling::Calling;
pub use component_rule::ComponentRule;
pub use item::Item;
pub use join_rule::JoinRule;
pub use part::Part;
pub use site::{Site, SiteKind};
pub use spot::Spot;
