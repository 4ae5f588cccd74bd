//! The memory of a round.

use crate::seats::CoreSeat;
use bus_semantics::Stamped;
use port_objects::Object;

/// All the memory of a round but for its table.
#[derive(Drop)]
pub(crate) struct Space {
    /// Words 0: one for each object, and one for the stamps.
    pub(crate) words: Vec<u64>,
    /// Room for the entries of each core.
    pub(crate) rooms: Vec<Vec<Stamped>>,
    /// Room for a seat of each core.
    pub(crate) seats: Vec<CoreSeat>,
    /// Room for all entries.
    pub(crate) entries: Vec<Stamped>,
    /// Room for all objects.
    pub(crate) returned: Vec<Object>,
}
