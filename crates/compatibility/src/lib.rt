//! Whether the ports that connectors join are compatible, and whether items are joined as they may be.
#![tactic(auto)]

mod check;
mod places;

pub use check::check_joins;
pub use join_search::crowded_groups_are_many_to_many;
