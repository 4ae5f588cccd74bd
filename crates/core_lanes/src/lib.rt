//! Cores on threads: each core of a round makes its turns in a lane of its own, at the same time as the others; and the central law of
//! such rounds: what cores made at the same time, in order of stamps, is what one thread could have made.
//!
//! # Decisions
//!
//! **When does a round of several cores end?** When each core has left, after 1,024 entries of its own or 64 turns in a row
//! without one. A turn that finds its object held counts as one without. No core leaves sooner because others find nothing either:
//! it can't tell what they will make, and a gate can see when it leaves.
//!
//! **Who counts the turns of a core in a round?** The core itself, in a count that only a turn changes (`Stay`). The seat can't:
//! if all of a core sleeps, a turn makes no look, and leaves the seat as it was. What the seat knows of looks and tries bears
//! the count out.
//!
//! **Why lanes?** A lane is a core and its seat, lent to one thread. What each lane is afterwards is known by the contract of the
//! call that runs them (`start_each`), so that 'each core made these turns' needs no message from one thread to another. The
//! call takes no memory, and starts no work that could be refused. Lanes are made before each round and taken apart after it: so a
//! node keeps cores alone, and what is said of a node of one core stays as it is.
//!
//! **Why does all growth come before the first turn?** Room is taken for the entries of the round, in which a serial pass has its
//! own too; then for lanes and seats; then the table is opened with a list for each seat. If one of these is refused, no core has
//! made a turn: the node is as it was, and the same call may be made again. Within a round, a core that has no memory would have
//! to take back what others saw. What guides a core's looks is the caller's, and is not made anew. After it nothing of the round is passed an
//! allocator: `run_begun`, which makes the turns and closes the round, and all that it calls. If the memory for any of this is
//! refused, also that for a list that would only spare a copy, `run_round` answers so.
//!
//! **Where does a core on a thread look?** Where its own entries may have started something: each object has a list of the places
//! of events on each core that an entry at it may start, and of the mode machine that it is; each call point has one of those of
//! its caller and of the events that a return starts, and the object of a server keeps which point it served last, so that a
//! Return wakes one caller, however many there are; a Leave wakes the first that waits at the area, and an End the event of its
//! activation. A seat is not told what others change. So cores tell one another, beside the table: who makes an entry at an object
//! that may start something on another core sets the object's bit, or the point's, among that core's news, and this core looks
//! there. All this is a guess, and no claim rests on it. What is awake when a round begins the caller says (`Changing`). Since a
//! guess may leave something out, a core looks at all that it has in the 33rd turn in a row without an entry. What the guesses
//! leave out is found at the latest in the serial pass and the round after it.
//!
//! **Does a core wait for others?** A turn of a core whose last turn made no entry begins with looks for news, up to 16 times 256,
//! each one atomic load. They end at once if there is news, or if nobody else may make an entry: each core is either idle or
//! counts as busy, and so do its news until it hears them. So a core leaves soon if all are idle, and not while the answer that it
//! waits for is being made, unless that takes longer than all looks of 64 turns. After each 256 looks the core gives way
//! (`yield_now`): the thread of the core that it waits for may not have begun, and may stand behind it on the same processor. With
//! looks alone, rounds of few calls ended before the server's thread had begun, and four clients with servers on other cores took
//! five times as long.
//!
//! **In which order do cores take their turns?** In that of the threads, and no contract says more. Every order is legal, and the
//! one that was is told by the stamps. So the text of a run of several cores is not fixed, and what has to be the same in each run
//! is to be read when it does not depend on the order.
//!
//! **How may the environment call while cores make their turns?** By one more seat of the round: the table knows of seats and not
//! of cores, so it stays as it is, and the law has a case for a part of calls (`beside`). Without such a part it is the law of
//! before (`lawful`). Of a call the law asks that it is what the bus answers after every past if it touches no object: nothing
//! orders such a call among the others but its stamp.
#![tactic(auto)]

mod benching;
mod guesses;
mod guided;
mod lanes;
mod laws;
mod news;
mod stay;
mod threads;
mod together;
mod turns;

pub use guesses::{Guesses, Spot};
pub use laws::rounds_on_threads_keep_the_law;
pub use together::{Changing, Together, run_together};
pub use turns::turn_once;
