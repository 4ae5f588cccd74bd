//! What the seats at the table of a round know. No value of these types is made, but for what a round was opened with.

use bus_semantics::{BusPlan, Stamped};
use port_objects::Object;
use std::collections::LinkedList;
use std::snapshot::Snapshot;

/// What a round was opened with: the plan, the objects as they were, and how many entries each core may make.
#[derive(Drop)]
pub struct Opening {
    pub plan: Snapshot<BusPlan>,
    pub objects: Snapshot<Vec<Object>>,
    pub room: u32,
}

/// What a core made in a round.
pub struct Part {
    pub core: u64,
    /// Its entries, the oldest first.
    pub entries: LinkedList<Stamped>,
}

/// An object with the entries of the round that touch it.
pub struct Held {
    pub object: u64,
    /// The entries, the newest first.
    pub entries: LinkedList<Stamped>,
}

/// A try for an object whose word named another core.
pub struct Tried {
    pub object: u64,
    /// The word that was found: 1 plus the number of the core that held the object.
    pub word: u64,
}

/// What a seat at the table of a round knows.
pub struct View {
    /// What the round was opened with. None once the seat has been taken in by another.
    pub opening: Option<Opening>,
    /// Its core, by number.
    pub core: u64,
    /// How many cores have a seat, at the seat that gives them; 0 at every other.
    pub given: u64,
    /// What its core made, the oldest first.
    pub made: LinkedList<Stamped>,
    /// What the cores made whose seats it has taken in.
    pub joined: LinkedList<Part>,
    /// The object that it holds.
    pub held: Option<Held>,
    /// The object of its last look at one without an entry, with the entries that had led to it.
    pub look: Option<Held>,
    /// Its last try that failed.
    pub tried: Option<Tried>,
    /// How many looks there were without an entry.
    pub looks: u64,
    /// How many tries failed.
    pub tries: u64,
}
