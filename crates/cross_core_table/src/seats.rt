//! The seats of a round, as they are handed out.

use crate::steps::Place;
use bus_semantics::Stamped;

/// The seat of a core in a round, with all entries that the core made there. It may be sent to the thread of its core.
#[derive(Drop)]
pub struct CoreSeat {
    pub(crate) place: Place,
    pub(crate) made: Vec<Stamped>,
    pub(crate) core: u32,
}
