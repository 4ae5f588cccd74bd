//! Lines of a trace, read back, and whether an entry or a wish fits a plan: each name is one that its actor's own instance (or an
//! outer port) has, and of the kind that the call takes. And what a trace is, checked against a bus and a script: definitions, the type of
//! the answer, and their laws.
//!
//! `guess` reads the fields of a line and finds what they name: if the line is that of any entry, then of this one. The entry
//! is written out again and compared with the line, so a line is read only as what it spells.
//!
//! # Decisions
//!
//! **How is a line read?** It is guessed and then written. Its fields are looked up as if it were an entry's line: if it is that
//! of any, then of the one that is guessed. That entry is asked to fit the plan, written out, and compared with the line. So a
//! line is never read as anything but what it spells, and no field has to be judged. What is guessed can be wrong only for a line
//! that no item has.
//!
//! **Of which plans are lines read?** Of those that have what reading needs (`IsReadable`): names that fit and are each once,
//! things that are there if others name them, points of the runnables that call at them, and sound coherent lists. Every sound
//! plan has it (`sound_plans_are_readable`). It says nothing of a mapping, so a reader that is made keeps it for all its lines,
//! and no caller has to say it again.
//!
//! **With its newline?** A line is read with the newline that ends it, as the definitions have it. So a last line that was cut off
//! is bad, even if all of its fields are there.
//!
//! **What is a legal trace?** The text of a session whose items fit the plan, in the sizes that their types have in the code
//! (`item_fits`), and which is a legal run of the script. The sizes belong to the text: a code of 300 has no line that is read. So
//! whatever is printed from entries of the code is such a text.
//!
//! **What does `check` go by if a script may be read in two ways?** The bytes of a script are read as lines up to how values lie
//! in memory. A verdict goes by what the lines ask for alone, so it is the same over each reading, and `check_complete` may speak
//! of any.
//!
//! **For what is an item refused that has two faults?** For the least clause in the order of the script and its marks, the actor's
//! program, the bus's answers and the closing words. So a reader of a refusal looks first at whether the line may stand there at
//! all.
//!
//! **What of a trace that ends too early?** Its line is the one after the last, since each line that it has goes on as it may. A
//! trace without any line has not even a header: it is refused at line 1 in the same way, and not as a bad line.
//!
//! **Why does a trace's verdict stand over beginnings of runs?** A trace is called by the longest beginning of a legal run with
//! whose text it begins, and by what stands behind that. Nothing of how a check goes through it is in the definition, and the law
//! that a trace has one verdict makes every answer exact.
#![tactic(auto)]

mod actors;
mod checked;
mod comparing;
mod cuts;
mod deeds;
mod entries;
mod fields;
mod guess;
mod laws;
mod list_owners;
mod lists;
mod looking;
mod names;
mod owners;
mod reading;
mod sizes;
mod tables;
mod verdict_laws;
mod wishes;
mod words;

pub use checked::Checked;
pub use laws::{
    items_have_one_line, lines_have_one_reading, sound_plans_are_readable, texts_have_one_session,
};
pub use owners::key_fits;
pub use reading::{LineRead, Reader, behind, behind_line_of, read_entry};
pub use verdict_laws::{accepted_items_go_on, traces_have_one_verdict};
pub use wishes::wish_fits;
