//! Scripts: what their lines ask of a bus, in order, or the first bad line with its cause.
//!
//! A script is lines of text. `read_script` reads it over the plan of a bus in a time that is linear in the bytes: what
//! the environment has is found by hash, in indices that are built once for a script.
//!
//! # Decisions
//!
//! **Which lines count towards the 100,000?** Every line, empty ones and comments too. The line that passes a limit has cause 4
//! unless it has a lesser one.
//!
//! **What of a value of more than 16 words, or with a word of more than 64 bits?** It is well formed, so it has cause 3, or cause
//! 2 if its element is not there. `tick N` outside 1 to 100,000 has none of the forms: cause 1.
//!
//! **What of a line of a kind that the plan has nothing of?** It has cause 2, as when the name alone is not there: `ask P.O V`
//! over a plan with no operation, `switch P.O MODE` over one with no modes. The grammar of scripts is the same for every plan, so
//! a line never changes from one cause to another but for its plan.
//!
//! **Which cause has a MODE?** One that is no name has cause 1: the line has none of the forms. A name that is no mode of the
//! machine has cause 2: the limits of cause 3 are those of a value.
//!
//! **What of a mode element of an outer P-port that no instance provides?** `mode P.O` has cause 2: with no machine there is no
//! mode to look at, and the plan has no such thing.
//!
//! **What of a plan that has one name of the environment twice on one side, or a machine with two modes of one name?** The first
//! is meant. A sound plan has none.
//!
//! **How are values compared with limits?** An element has one pair of limits for all its words, an operation one pair for each
//! `in` argument. A value that cannot be held, of more than 16 words or with a word of more than 64 bits, is taken nowhere.
//!
//! **Why is what a line says a parameter of reading a script?** If two nodes share a link, no line may receive from a linked
//! element, and other inputs will have lines of a script among lines of their own. They differ in what a line says and in nothing
//! else. So the first bad line, the limits and what a script asks for are defined over any function that says what a line says,
//! and `read_script` and `read_script_around` are one loop over a trait, `Grammar`, which the compiler resolves: reading a script
//! costs what it did.
#![tactic(auto)]

mod counts;
mod environment;
mod fields;
mod forms;
mod grammar;
mod laws;
mod limits;
mod line;
mod offers;
mod phrases;
mod script_read;

pub use environment::Environment;
pub use forms::Form;
pub use grammar::Grammar;
pub use laws::{
    causes_are_sentences, lines_spell_what_they_ask, scripts_are_carriable,
    scripts_keep_off_what_is_reserved, scripts_spell_their_lines,
};
pub use line::Said;
pub use script_read::{ScriptRead, read_script, read_script_around};
