//! Tests of what no row reaches: the edge to the system, and what a refusal is printed as.
#![tactic(auto)]

#[cfg(test)]
mod answers;
#[cfg(test)]
mod system;
