//! The description and the script with which a node is soaked: pairs of producers and consumers, each with a queue between them,
//! and one server that all producers call.
//!
//! What does not depend on the number of pairs is written as JSON text and read; the rest is built item by item. By a law the description of
//! `soak N` breaks no rule, for each N from 1 to 64: what holds of each item of it, a prototype, a connector or a mapped event, is proved once
//! for any number of them; the rest is computed (`proofs/Soaked.antt` is what the description is read as).
//!
//! # Decisions
//!
//! **What is said of the description that `soak N` makes?** Not its letters, but which value `serde_json` reads its bytes as
//! (`soak_value`): that is the reading on which rule 1 and all later rules stand. The value is written in the order of the keys in
//! `docs/FORMAT.md`. What depends on N is built of objects and lists; what does not stands as JSON text and is the value that this
//! text is read as, so that it can be compared with a description that runs. That it breaks no rule is a law (`soak_laws`). A
//! computation of all rules on 64 large values would be dear: what holds of each item is proved once for any N. `soak_complete`
//! has this as a premise, as `complete` has it of a file.
#![tactic(auto)]

mod components;
mod laws;
mod parts;
mod root;
mod soak;
mod text;

pub use laws::soaks_break_no_rule;
pub use soak::{Soak, make_soak};
