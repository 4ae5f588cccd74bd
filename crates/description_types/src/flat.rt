//! What a description is, made flat.

use rte_text::{Seq, Text};

/// A description made flat.
#[derive(Drop)]
pub struct Flat {
    /// The component instances, depth first, prototypes in declared order.
    pub instances: Seq<Instance>,
    /// Which items are joined, each pair once, by the provided and then the required end.
    pub joins: Seq<Join>,
}

/// A component instance.
#[derive(Drop)]
pub struct Instance {
    /// The names of its prototypes below the root, the outermost first, joined by `/`.
    pub path: Text,
    /// The position of its component.
    pub component: u32,
}

/// Two items that connectors join: data elements, operations or mode elements.
#[derive(Clone, Copy, Debug, PartialEq, Eq)]
pub struct Join {
    pub provided: End,
    pub required: End,
}

/// An item of a port, of an instance or of the environment.
#[derive(Clone, Copy, Debug, PartialEq, Eq)]
pub struct End {
    /// The number of the instance; None is the environment.
    pub instance: Option<u32>,
    /// The position of the port in the component; of an outer port of the root, for the environment.
    pub port: u32,
    /// The position of the item in the port's interface; 0 for a mode element.
    pub element: u32,
}
