//! The stages of a description, one after the other, from its bytes, which have one plan or one refusal, never both.
//!
//! `join_description` reads a description, makes it flat and checks what is joined: rules 1 to 15. `plan_description` goes on
//! to its plan and its mapping, by all rules.
//!
//! What a description keeps that has been read is `IsWellFormed` of `plan_definitions`: the law of this crate. It rests on the rules that such a
//! description keeps: each of its values passes the rules of shape, names and references, and none that is declared stands at an earlier place
//! of its list (`proofs/Kept.antt`). The rules and what is read look names up in the same lists, those of `declared_names`, so the position that
//! is read of a name is one of its list.
//!
//! The crate has laws alone. A program lies in memory in its own way, so two readings of the same bytes are no equal values; but they
//! are the same trees, and no definition of a rule or of the plan tells more of a program than its tree
//! (`proofs/Flat.antt` to `proofs/Printed.antt`).
//!
//! # Decisions
//!
//! **Why does one call take all stages?** `plan_description` (`description_stages`) goes from bytes to a sound plan. The stages
//! stay calls of their own crates; but their order, and that the plan is sound, are then said once and not by each caller.
//!
//! **When are two plans one?** If contracts cannot tell them apart: programs go by their trees, and all else is equal. A program
//! owns lists that lie in memory in their own way, so two readings of the same bytes are no equal values. The laws show of each
//! definition that it tells no more of a program than its tree. A `Model` of programs would make the values equal; it would be a
//! change below every object of the bus.
#![tactic(auto)]

mod joining;
mod laws;
mod plan_laws;
mod planning;
mod soundness;

pub use joining::{JoinedDescription, join_description};
pub use laws::read_descriptions_are_well_formed;
pub use plan_laws::{
    headers_are_one, no_refused_description_has_a_plan, plans_are_one, plans_count_what_is_listed,
    refusals_are_one,
};
pub use planning::{PlannedDescription, plan_description};
pub use soundness::plans_are_sound;
