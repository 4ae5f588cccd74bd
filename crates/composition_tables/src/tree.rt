//! What stands in a description, and the tables by which the ends of chains are found.

use description_types::{Description, InnerPort};

/// Whose a port is. The environment comes after all instances.
#[derive(Clone, Copy, PartialEq, Eq, PartialOrd, Ord, Hash)]
pub enum Owner {
    /// The instance of this number.
    Instance(u32),
    Environment,
}

/// A port at an end of a chain of connectors.
#[derive(Clone, Copy, PartialEq, Eq, Hash)]
pub struct PortEnd {
    pub owner: Owner,
    /// The position of the port in the component, or among the outer ports of the root.
    pub port: u32,
    /// The position of its interface.
    pub interface: u32,
}

/// A description with its tables.
#[derive(Drop)]
pub struct Tree<'a> {
    pub d: &'a Description,
    /// For each depth, the counts of instances below each composition.
    pub levels: Vec<Vec<u32>>,
    /// For each depth and composition, how many instances stand before those of each prototype.
    pub starts: Vec<Vec<Vec<u32>>>,
    /// For each composition and outer port, the inner ports that it is delegated to.
    pub delegations: Vec<Vec<Vec<InnerPort>>>,
}
