//! Room that is kept from one round to the next.

use bus_semantics::Stamped;
use std::alloc::Global;

/// Lists of an earlier round, whose room the next one takes. Any will do, also none: what is in them is dropped, and room that they
/// lack is taken anew.
#[derive(Drop)]
pub struct Spare {
    /// Its room is for all entries of a round.
    pub entries: Vec<Stamped>,
    /// The room of each is for the entries of one core.
    pub rooms: Vec<Vec<Stamped>>,
}

impl Spare {
    /// No room. It takes no memory.
    pub fn none(alloc: Global) -> Spare {
        Spare {
            entries: Vec::new(alloc),
            rooms: Vec::new(alloc),
        }
    }
}
