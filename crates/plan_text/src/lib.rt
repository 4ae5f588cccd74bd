//! The text of a plan: what a description is once it is made flat, line by line. And the contract-phase listing: which calls of the RTE the
//! code of a component may use.
//!
//! # Decisions
//!
//! **Of what is the text of a plan made?** Of the description made flat (`Flat`), the description's names and mapping, and the
//! plan's machines and events. The plan alone does not have all of it: it knows no components, keeps joined data elements as
//! groups, has no operation that nobody calls, and numbers the events of a task one after the other, while the description may
//! leave numbers out.
//!
//! **Where does the text of a plan lie before it is put?** In memory, all of it, a text for each line. So no line has a longest
//! length, and memory cannot run out between two lines: with status 7 nothing was put. The lines of the largest plan, with 65,536
//! joins of the longest names, have some 45 MB; those of the examples have a few kB.
//!
//! **When do two calls of a header clash?** If their names are one and what they are of is not. A call is kept as its word and
//! the names in it, apart; so two runnables that write one element have one call, and so have `call` and `acall` of one operation.
//! A clash is looked for among the calls that are listed, each once, and not among accesses. Numbers of ports and items would
//! serve as well, but would have to be told apart for variables and areas. Which of several clashes is answered has to be one: it
//! is that of the first call that shares its name with one before it.
//!
//! **Is there a header of a component that no instance has?** Yes: its code is written before anything is connected. The rules are
//! looked at first all the same, so a header is never one of a description that cannot be run.
#![tactic(auto)]

mod calls;
mod component;
mod header_listing;
mod joins;
mod laws;
mod lines;
mod listing;
mod mapped;
mod putting;
mod text;

pub use component::{HeaderMade, header};
pub use laws::{a_clash_is_of_two_calls, without_a_clash_each_name_stands_once};
pub use putting::put_plan;
