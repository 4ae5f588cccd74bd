//! Looks for what may not be joined: connectors between ports that are not compatible, operations that the environment would serve, and
//! items that are joined otherwise than they may be.
//!
//! # Decisions
//!
//! **And if a port, an interface or a type is missing?** A connector of which a port or an interface is missing is not compatible.
//! Two types, or two mode groups, that are both missing are alike. Rules before see to it that nothing is missing; the check is
//! exact without them.
//!
//! **What is looked up by hash, and does an answer rest on it?** The place of a name in an interface. It is a hint: if the item
//! there does not serve, all are looked at, which happens once, since it ends the check. So no answer rests on it. Pairs of
//! interfaces that were judged compatible are remembered, and what is remembered is proved to be so.
//!
//! **When does an end have two partners?** When two different ends are joined with it. A join that is listed twice counts once.
//!
//! **How is a group of many to many found without making groups?** From the ends nearby: a provided end has several required ones,
//! of which one has several provided ones. A group in which that is nowhere so is a star. The definition of groups speaks of
//! chains of joins of any length (`specs/JoinGroups.antt` of `plan_definitions`), and the equality is proved.
//!
//! **Which kinds of items does the rule on groups look at?** Data elements. An operation or mode element with several provided
//! ones breaks the rule before.
#![tactic(auto)]

mod connectors;
mod elements;
mod groups;
mod hints;
mod item;
mod items;
mod judge;
mod laws;
mod names;
mod operations;
mod partners;
mod ports;
mod root_ports;
mod suspects;
mod types;

pub use connectors::incompatible;
pub use item::Item;
pub use items::Search;
pub use laws::crowded_groups_are_many_to_many;
pub use names::end_text;
pub use root_ports::root_client;
