//! A description made flat: its component instances, and which of their ports' items are joined.
//!
//! # Decisions
//!
//! **Which connectors count before the rule on connectors is looked at?** Those that it lets join. The limit on joined pairs is
//! the earlier rule, so a connector that is broken counts there as not there, and equal ones count as one.
//!
//! **How are chains found without following each?** Every chain between two instances crosses one assembly. So the pairs are those
//! of the ends below its two ports, for each assembly where it stands, and those of the environment's ports with the ends below
//! them. The definition speaks of chains alone; that both are the same is proved.
//!
//! **How are joined pairs kept until all are found?** In a list, as they come, and not in a tree: a tree took 930 instructions for
//! each pair. The pairs of one provided port are put in order as soon as those of another port come. If the ports come in
//! order, the whole list is in order then, and what is left is to see that it is. A pair that two compositions join stands in the
//! list twice until the list is put in order. This is also done when it reaches twice the limit, so it never gets longer.
#![tactic(auto)]

mod flattening;
mod limits;
mod listing;
mod own;
mod whole;
mod wiring;

pub use flattening::flatten;
