//! Where cores wait, and by what they wake.

use crossbeam_utils::sync::Unparker;
use std::sync::atomic::{AtomicBool, Ordering};

/// Wakes the cores, and tells them that the pump has ended.
#[derive(Drop)]
pub(crate) struct Yard {
    ended: AtomicBool,
    unparkers: Vec<Unparker>,
}

impl Yard {
    /// A yard of cores with these unparkers, whose pump has not ended.
    pub fn new(unparkers: Vec<Unparker>) -> Yard {
        Yard {
            ended: AtomicBool::new(false),
            unparkers,
        }
    }

    /// Wakes each core that is parked, and keeps each other from its next park.
    pub fn wake_all(&self) {
        for unparker in &self.unparkers {
            unparker.unpark();
        }
    }

    /// The pump has ended. The cores wake behind that, so that one which parks meanwhile finds its token.
    pub fn end(&self) {
        self.ended.store(true, Ordering::SeqCst);
        self.wake_all();
    }

    /// Whether the pump has ended.
    pub fn has_ended(&self) -> bool {
        self.ended.load(Ordering::SeqCst)
    }
}
