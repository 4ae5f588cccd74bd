//! Which items an assembly connector joins: the provided ports below the one port with the required ones below the other, as
//! far as their interfaces have items that are joined. What was found of two ports is kept, so that it is found once.
//!
//! # Decisions
//!
//! **What if thousands of ports share nothing?** A port from which delegations are followed down is a gate; gates that lead over
//! single delegations to one port are one gate. For two gates it is found first which interfaces below them share an item, however
//! often a composition is used: by an index of their items' names, and if one interface alone is below each, by what is kept of
//! that pair. Ports of instances are joined only if some do, and two gates are crossed once. What is below a gate is found once
//! and kept, for at most 4,194,304 interfaces and ports of instances in all.
//!
//! **What if thousands of gates lead to the same ports, each by a way of its own?** A gate that is delegated to at most 128 inner
//! ports, of which one leads on, is split into them. Of two such gates the one that has less is split. So what many gates share is
//! crossed once and not listed for each. Other gates, to which many ports of components are delegated, may still have many ports
//! in common. There each port of the side that has less of an interface is noted with the gate and the interface of the other
//! side. It is not joined with these again. Once 524,288 of all these crossings are noted no gate is split any more, so that many
//! ways through many levels are not followed one by one. What is below each gate is searched then. If at most 64 ports of
//! instances are below a port of a composition, they are kept. So such a port is searched once, however many ways lead to it.
//! Nothing more is kept once the ports below, and eight for each port above, come to 2,097,152.
#![tactic(auto)]

mod completing;
mod cross;
mod crossing;
pub mod crossings;
pub mod matched;
mod parts;
mod rows;
pub mod splitting;
