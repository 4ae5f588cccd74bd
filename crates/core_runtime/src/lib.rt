//! The node: a plan with its mapping, its cores and its objects. Rounds of several cores run each core in a thread of its own.
//!
//! A single core has its turns on the caller's thread, and so have all cores in a serial pass; in a round two and more cores have
//! theirs at the same time, on threads (`core_lanes`). A node looks only at what is awake; its invariant (`IsWatch`) says that
//! what sleeps is held by the objects, or waits at an area behind a task of its core that is awake. So the claims are those of
//! turns that look at all.
//!
//! # Decisions
//!
//! **When does a single core leave a round?** After 1,024 entries, or the first turn without one. It has all objects to itself, so
//! each further turn would make nothing either; the 64 turns that a core may make without an entry are for cores beside which
//! others go on.
//!
//! **What of a round's memory is kept?** Its large lists: that of what each core made, and that of all entries in order of stamps.
//! The close gives them back, the node keeps them (`Spare`), and the next round takes their room and only what they lack. A list
//! that large goes back to the system when it is freed, and each of its pages costs a fault when it comes again. No contract
//! speaks of what is spare: it may be any lists, also none. If there is no memory for a round's table, they are freed, so that a
//! later call has a better chance. Words, seats and the list for the objects are small, and are taken for each round. If there is
//! memory for it, the list of all entries of a round has as much room as that of the node, so that the two change places behind it
//! and no entry is copied.
//!
//! **Why is all awake after a round of several cores?** What slept before it may be due by what another core made, and a seat is
//! not told what others changed. So all flags are set again, in place and without memory; the next turns put to sleep what is
//! held. In the round itself these flags guide the cores (`core_lanes`): at its begin what sleeps is held, and so is not looked at, and
//! what turns make of them is a guess.
//!
//! **What does an entry wake?** Those of the events that the changed object tells which sleep and may start now; the node has a
//! list of the places of each event on the cores. What an object tells are the events that its last write, publication or tick
//! made pending and that were not so before, so each is looked at once between two of its starts. A Leave wakes one task on each
//! core, of those that wait at the area. An entry that touches a mode machine's object (a switch, a phase, what a phase owes or
//! disables) wakes that machine, which is tried once more: to see whether it made the phase come would cost what the try does. A
//! server keeps to which point the last Return went, and not who waits. So a Return wakes each task in which an event of the
//! caller stands, whether it waits or not, and each entry on the server up to the next Return does so again, for one try in vain.
//! Other entries wake nothing; the environment enters no area, so its calls wake only events. For what takes a value or a mode as it
//! stands, drops a value or enters an area that is known by its deed alone, and what it touches is not looked up. A turn finds what is
//! awake by words of 64 places, and these by a word for each 4,096.
//!
//! **Why are ticks made apart?** A tick is the one call whose entry is always the same, and scripts have many. `Node::tick` makes it without
//! an entry, and wakes the events that the clock tells. No contract of it says less than that of `environment`.
//!
//! **What of a node keeps the entries?** The node's list does: the turn of a single core writes its entry at the end of it. In a
//! lane a core needs room for one entry. In a round of several cores each seat has a list of what its core made, and the close one
//! of all, in order of stamps, which the node copies: so its own room is what it was, whatever the close gave.
//!
//! **Which room has a node that is put together?** That of the list of entries that it is given (`spare` of `Node::from_parts`).
//! It could have no room, as a new node has; but the list is there, and a round takes what is missing before its first turn in
//! any case. What a node keeps beside its parts (what of the cores may step, where they look first, lists for the next round)
//! goes with them and is nobody else's to change, since neither call takes memory. All of the cores is awake afterwards, as it is
//! after a round on threads: nobody watched their turns.
#![tactic(auto)]

mod alone;
mod beginning;
mod callers;
mod environment;
mod guessing;
mod live;
mod machines;
mod making;
mod many;
mod node;
mod parts;
mod pass;
mod resting;
mod round;
mod round_state;
mod seats;
mod starters;
mod step;
mod waiting;
mod waking;
mod watch;

pub use node::Node;
pub use parts::Parts;
pub use pass::serial_pass;
pub use round::{RoundRun, run_round};

/// There was no memory for what a call makes.
pub type Memory = std::alloc::AllocError;
