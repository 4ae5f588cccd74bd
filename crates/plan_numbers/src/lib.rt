//! What a plan numbers, in its order, and what stands at the other ends of the items of its ports.
//!
//! # Decisions
//!
//! **How is the number of an element found?** By arithmetic: the elements of a port follow one another, and so do those of ports
//! and of instances. So sums tell how many stand before each. The sums of a component's ports stop at the greatest number of 32
//! bits, since a component that no instance has may have any number of them; only the sums of components that instances have need
//! be exact.
#![tactic(auto)]

mod all_sites;
mod com_specs;
mod joined;
mod kinds;
mod lists;
mod numbers;
mod owners;
mod parts;
mod positions;
mod source;
mod starts;
mod table;
mod texts;

pub use all_sites::sites;
pub use joined::{EndKey, Joined};
pub use kinds::end_of;
pub use lists::Lists;
pub use numbers::{Key, Numbers, position};
pub use owners::{component_of, interface_at, interface_of, port_of, ports_of};
pub use parts::{Pair, numbered_areas, numbered_events, numbered_runnables};
pub use positions::Positions;
pub use source::Source;
pub use table::Table;
pub use texts::{item_text, text_at, variable_name};
