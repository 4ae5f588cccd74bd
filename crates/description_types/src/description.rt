//! The typed description.

use crate::component::{Component, Port};
use crate::interface::TypeTable;
use rte_text::{Seq, Text};

/// A description. What refers to something holds its position in the list that declares it; each list stands in declared
/// order, so that positions give the JSON pointer of everything.
#[derive(Drop)]
pub struct Description {
    /// `dataTypes`, `modeGroups` and `interfaces`.
    pub types: TypeTable,
    pub components: Seq<Component>,
    pub compositions: Seq<Composition>,
    /// The position of the composition that is the whole.
    pub root: u32,
    pub mapping: TaskMapping,
}

/// A composition (CompositionSwComponentType).
#[derive(Drop)]
pub struct Composition {
    pub short_name: Text,
    /// Its outer ports.
    pub ports: Seq<Port>,
    pub prototypes: Seq<Prototype>,
    pub connectors: Seq<Connector>,
}

/// A component or composition in its place (SwComponentPrototype).
#[derive(Drop)]
pub struct Prototype {
    pub short_name: Text,
    pub of_type: PrototypeType,
}

/// The type of a prototype, by its position among the components or among the compositions.
#[derive(Clone, Copy, Debug, PartialEq, Eq)]
pub enum PrototypeType {
    Component(u32),
    Composition(u32),
}

/// A connector of a composition (SwConnector).
#[derive(Clone, Copy, Debug, PartialEq, Eq)]
pub enum Connector {
    /// Joins ports of two prototypes (AssemblySwConnector).
    Assembly {
        provider: InnerPort,
        requester: InnerPort,
    },
    /// Joins a port of a prototype to an outer port, which `outer` gives by its position (DelegationSwConnector).
    Delegation {
        inner: InnerPort,
        outer: u32,
    },
}

/// A port of a prototype of the composition.
#[derive(Clone, Copy, Debug, PartialEq, Eq)]
pub struct InnerPort {
    /// The position of the prototype in its composition.
    pub prototype: u32,
    /// The position of the port in the type of the prototype.
    pub port: u32,
}

/// Which task and core each event is mapped to (RteEventToTaskMapping).
#[derive(Drop)]
pub struct TaskMapping {
    /// How many cores there are, 1 to 8.
    pub cores: u32,
    pub tasks: Seq<Task>,
    pub events: Seq<MappedEvent>,
}

/// A task (OsTask).
#[derive(Drop)]
pub struct Task {
    pub short_name: Text,
    /// The core that it runs on, below `cores`.
    pub core: u32,
}

/// An event of an instance in its task (RteEventToTaskMapping).
#[derive(Drop)]
pub struct MappedEvent {
    /// The path of the instance below the root, its prototypes joined by `/`.
    pub instance: Text,
    /// The name of the event.
    pub event: Text,
    /// The position of the task.
    pub task: u32,
    /// Its position in the task, 0 to 65,535.
    pub position: u32,
}
