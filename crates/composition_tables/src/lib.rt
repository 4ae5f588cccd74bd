//! What stands in a description, by numbers: which component instances stand at the ends of paths of prototypes, how deep,
//! and which ports connectors delegate to, with tables that answer such questions at once. The definitions say what paths,
//! places of instances, connectors and joined items are.
//!
//! # Decisions
//!
//! **How are compositions ranked?** Those that contain each other share a rank. The ranks are looked at and not trusted: no answer
//! rests on them.
//!
//! **Which port of a delegation provides?** The inner one between P-ports, the outer one between R-ports. If the two are of
//! different kinds, which the rule on connectors refuses before, the kind of the outer one decides. So the definition needs no
//! condition.
#![tactic(auto)]

pub mod connectors;
pub mod containing;
pub mod counts;
pub mod delegations;
pub mod depth;
pub mod ends;
pub mod gathering;
pub mod inner;
pub mod links;
pub mod multi;
pub mod nodes;
pub mod prototypes;
mod ranks;
mod reach;
pub mod starts;
pub mod tree;
