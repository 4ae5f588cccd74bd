//! Two nodes over a link of bytes: what the first sends on its outer queued ports goes into the outer ports of the second. And laws of the
//! values that legal histories carry, on which that rests: those on their way through the queues of the bus, and those of a coherent list,
//! which is fetched as its elements stood at one moment.
//!
//! # Decisions
//!
//! **Which receives end a link's turn?** Those with 131 and 134. One with 64 took a value, too: it says that values were lost before
//! it. No queue holds more than 1,024 values, so there is an end, and no count of tries beside it.
//!
//! **What comes of a value that node two does not accept?** It is lost there, and its send says so with 130: the link is no queue.
//!
//! **What is a begun run?** One that goes on as a run of the script, whatever comes then. On each side it is legal so far.
#![tactic(auto)]

mod coherence;
mod crossing;
mod laws;
mod links;
mod pair;
mod script;
mod value_laws;

pub use coherence::{fetches_one_moment, publishes_all_or_none, values_have_their_words};
pub use laws::{each_side_does_its_part, links_carry_what_was_taken, pair_scripts_are_pair_lines};
pub use links::make_links;
pub use pair::{PairRun, run_pair};
pub use script::read_pair_script;
pub use value_laws::{
    queues_are_never_overfull, received_values_are_within, receives_take_the_oldest,
};

/// There was no memory for what a call makes.
pub type Memory = std::alloc::AllocError;
