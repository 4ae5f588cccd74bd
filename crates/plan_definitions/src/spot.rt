//! Places in a component.

/// A place in a component, by positions.
#[derive(Clone, Copy)]
pub enum Spot {
    Port(usize),
    /// An access of a runnable.
    Access { runnable: usize, access: usize },
    Event(usize),
    /// A coherent access list of a runnable.
    List { runnable: usize, list: usize },
}
