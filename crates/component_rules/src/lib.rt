//! What each component of a description keeps: its accesses and events fit its ports, its programs may run, each operation is
//! served once, and calls that do not wait are not mixed with others.
//!
//! # Decisions
//!
//! **Which program is named of several that break a rule?** Of the rules on programs the least that any program breaks is named,
//! with the first program that breaks it. A lower rule is looked at everywhere before a higher one.
//!
//! **Which events and results may name an operation?** A result or a return event names an operation that some runnable of the
//! component calls without waiting. It does not matter whether another access calls it too: the refusal is the same rule, and only
//! the place depends on it.
//!
//! **When is a coherent list judged?** Last, by rule 31, which goes through the document, as rules 16 to 24 do, and counts the
//! items of a runnable once. An item that stands in two lists breaks both, so the first of them is the place. A component without
//! instances is judged too, and a runnable that no event starts connects groups as any other does.
#![tactic(auto)]

mod accesses;
mod calls;
mod check;
mod coherent;
mod events;
mod invocations;
mod items;
mod places;
mod programs;
mod signatures;
mod tally;

pub use check::{check_coherent, check_components};
pub use signatures::signature_of;
