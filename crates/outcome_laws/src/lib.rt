//! Each description is made flat, or refused by rule 9, 10 or 11. The bytes of a description have a plan or a refusal, those of a script its
//! lines or a bad line, and a trace a verdict.
//!
//! The crate has laws alone. Each stage of a description is decided. What compositions hold and what connectors join is finite: whether a
//! composition contains itself, and whether an instance stands too deep, by the ways between compositions (`proofs/Graphs.antt` to
//! `proofs/Depth.antt`); which items are joined, by the stands above a port (`proofs/Ups.antt` to `proofs/Joining.antt`); which connector is the
//! first broken one (`proofs/Broken.antt`); and that tasks wait in a circle or have an order by the ways between them (`proofs/Waits.antt`).
//! Where a program lies tells nothing to any clause, so each tree of a program is that of one (`proofs/Values.antt` to `proofs/Described.antt`),
//! and each plan that of a `BusPlan` (`proofs/Plans.antt`).
#![tactic(auto)]

mod flat;
mod laws;

pub use flat::descriptions_are_made_flat_or_refused;
pub use laws::{
    bytes_are_a_script_or_have_a_bad_line, bytes_have_a_plan_or_a_refusal,
    no_trace_is_without_a_verdict,
};
