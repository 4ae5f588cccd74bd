//! What comes of the opening of a round.

use crate::round::Round;
use crate::seats::CoreSeat;
use port_objects::Object;

/// What came of the opening of a round.
#[derive(Drop)]
pub enum Opened {
    /// The round, and a seat for each core, in the order of their numbers.
    Ready(Round, Vec<CoreSeat>),
    /// There was no memory. These are the objects, unchanged.
    Memory(Vec<Object>),
}
