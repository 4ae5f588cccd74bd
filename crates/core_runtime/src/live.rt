//! What of a node turns change.

use crate::watch::Watch;
use bus_semantics::Stamped;
use core_turn::Core;
use cross_core_table::Spare;
use port_objects::Object;
use std::alloc::Global;

/// What of a node turns change: its cores and its objects, each by number, what of the cores may step, the entries of the last round or
/// serial pass, and the room that the last round of several cores left for the next.
#[derive(Drop)]
pub(crate) struct Live {
    pub cores: Vec<Core>,
    pub objects: Vec<Object>,
    pub watch: Watch,
    pub entries: Vec<Stamped>,
    pub spare: Spare,
}

impl Live {
    /// Nothing of all that. It takes no memory.
    pub fn none(alloc: Global) -> Live {
        Live {
            cores: Vec::new(alloc),
            objects: Vec::new(alloc),
            watch: Watch {
                awake: Vec::new(alloc),
                seats: Vec::new(alloc),
                starters: Vec::new(alloc),
            },
            entries: Vec::new(alloc),
            spare: Spare::none(alloc),
        }
    }
}
