//! What a core passes before each turn.

/// What a core passes before each turn of a round. It has no meaning, and lets a test hold a core.
pub trait Gate: Sync {
    /// Returns when the core of this number may go on.
    fn pass(&self, core: u32);
}

/// A gate that holds no core.
#[derive(Clone, Copy, Debug)]
pub struct OpenGate;

impl Gate for OpenGate {
    fn pass(&self, _core: u32) {}
}
