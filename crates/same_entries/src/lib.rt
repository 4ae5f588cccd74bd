//! Whether two wishes are the same, whether two entries are, and whether an entry is what a wish asks for.
//!
//! # Decisions
//!
//! **Why does `==` not compare entries?** It can be derived, but a derived equality is a function of its own, and only a proof
//! case by case, as long as the comparison by hand, would say that it holds exactly of equal entries. So `same_entries` stays.
#![tactic(auto)]

mod deeds;
mod entries;
mod wanted;
mod wishes;

pub use entries::same_entry;
pub use wanted::is_wish_of;
pub use wishes::same_wish;
