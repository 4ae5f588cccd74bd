//! An item of an interface, as its kind and its parts.

use description_types::SwImplPolicy;

/// What an item of a port is.
#[derive(Clone, Copy)]
pub enum Item {
    /// A data element.
    Data(SwImplPolicy),
    /// An operation.
    Operation,
    /// A mode element, of a group with so many modes.
    Modes(usize),
}
