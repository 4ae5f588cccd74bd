//! The shared table of a round: cores act on the objects of a bus at the same time, each by its own seat.
//!
//! # Decisions
//!
//! **What does the rule of a round say of all cores together?** That there is a log: all entries of the round, each with its core,
//! in order of stamps. It stands nowhere in memory. Each seat knows its own part of it, and of an object that it holds or looked
//! at the entries there. So no parts of a history have to be merged. The object itself lies in its slot and is changed in place
//! while its word names the core that holds it.
//!
//! **Who gives the seats of a round?** Core 0's seat splits off the others where the round is opened, and takes them in again
//! where it is closed. So `Round::close` wants all seats, in the order of their cores.
//!
//! **What does a contended try tell?** That the one try found the object's word naming another core. The object is the one that
//! was asked for, so the answer does not repeat it; the seat keeps the word that it saw.
//!
//! **What is said of the entries of a round?** That there is a log: a list of the entries with their cores. What a core made is
//! its part of the log, and word 0 is the length. The other way is to keep only the parts, and to say that merged they have each
//! stamp below word 0 once, rising within each part, and each entry in one part. From a log all of that follows by how it is
//! built, and a stamp adds one to a list; with parts alone each step has to prove it of a merge.
//!
//! **Where is an object while a seat holds it?** In its slot, and it is changed there. The other way is to exchange it out of the
//! slot and back, two kinds of steps more, with a slot that may be empty. Nobody but the holder reaches the slot, since its word
//! says who holds it. So the table takes the objects as they are and, if there is no memory, hands them back.
//!
//! **Who takes the seats in again?** The first seat, which gave them: at the close it knows what each core made. So no list of
//! parts is shared, and the close needs no lock.
//!
//! **How is a part kept?** Twice: as knowledge of the seat, which the rule compares with the log and no code reads, and as a list
//! of the seat with room for all that its core may make, which `open` takes. So no call of a seat takes memory, and the close
//! writes each entry at its stamp.
//!
//! **Why do words begin lines of the cache?** Cores at several objects would write to one line in turn, twice for each entry, and only the
//! stamps have to be shared. Only 1,024 objects have a line to themselves: all words are cleared and copied in each round, and where there are
//! very many objects, those at which cores are at the same time seldom share one.
//!
//! **What comes of a try that finds an object held?** `Contended`, at once, with the word that was found. The seat does not try
//! again: when to come back is for the core's next turn.
#![tactic(auto)]

mod acting;
mod bench;
mod closing;
mod giving;
mod laws;
mod opened;
mod opening;
mod ordering;
mod plays;
mod round;
mod seats;
mod space;
mod spare;
mod steps;
mod threads;
mod views;

pub use bench::SeatBench;
pub use closing::Closed;
pub use laws::{each_step_keeps_the_rule, rounds_end_whole};
pub use opened::Opened;
pub use plays::Ruled;
pub use round::Round;
pub use seats::CoreSeat;
pub use spare::Spare;
pub use views::{Held, Opening, Part, Tried, View};
