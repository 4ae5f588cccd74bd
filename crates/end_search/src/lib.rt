//! Which ports of instances stand below a port. From a port of a composition, delegation connectors are followed down to the
//! ports of components, and the interfaces of these are matched: which of their data elements, operations and mode elements
//! are joined by name where the ports are.
//!
//! # Decisions
//!
//! **Which items do two joined ports join?** Those of one name, if both interfaces have data elements or both have operations; and
//! two mode elements, whatever their names. Interfaces of two kinds join nothing: the rule on compatible ports refuses their
//! connector later, and until then no pair of theirs is counted.
//!
//! **How are joined items found?** The names of each interface are noted once, with all their positions; of two interfaces the
//! shorter is looked up in the longer. What a pair of interfaces joins is kept, for at most 65,536 pairs, then kept anew. Pairs of
//! ports that are done are noted for each composition, so equal connectors, and connectors that lead to the same ports, add their
//! links once.
//!
//! **What if very many ports of instances are below one port?** They are searched from composition to composition, with the
//! instances numbered from its first one on. What prototypes in a row that are alike have below them is searched once. The search
//! is cut short past 65,536 ports, the limit on joins. Then for each interface that shares an item with the other side all its
//! ports are searched, once, and kept with what is below the gate. If one interface alone has more ports than the limit, what was
//! found is joined first, which mostly shows that there are too many joins. Else all ports of such interfaces are searched, cut
//! short past the same limit, and at last all of these. No answer rests on how much a search that was cut short has found.
#![tactic(auto)]

mod below;
pub mod gates;
pub mod groups;
pub mod interfaces;
pub mod matches;
pub mod names;
pub mod near;
mod partners;
pub mod seek;
pub mod sides;
