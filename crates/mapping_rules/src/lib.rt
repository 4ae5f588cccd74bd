//! Which events are mapped to which task, and the rules on the mapping and on instances.
//!
//! # Decisions
//!
//! **What of two events at one position in a task?** They keep their order in the description. The rule on distinct positions
//! excludes them, but the definition does not rest on it.
//!
//! **Is the order of tasks given out?** No. It is shown to exist, for that no wait may lead back; nothing needs it as data.
#![tactic(auto)]

mod check;
mod groups;
mod instances;
mod joined;
mod kept;
mod mapped;
mod naming;
mod peeling;
mod places;
mod servers;
mod sorting;
mod tasks;
mod waits;

pub use check::check_mapping;
pub use kept::KeptMapping;
pub use tasks::list_mapping;
