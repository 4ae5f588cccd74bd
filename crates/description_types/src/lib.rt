//! The typed description, with its data types, mode groups and interfaces: what `component_model` reads, and what every later stage looks
//! at; and a description made flat, its instances and which of their items are joined, as types and definitions.
//!
//! What refers to something by its name holds a position: that of the first item of this name in the list that declares
//! it. Each list stands in declared order, so positions give the JSON pointer of everything. A key that may be missing is
//! an `Option` or has its default.
//!
//! # Decisions
//!
//! **Why does a description keep its types in one table?** `check_types` judges data types, mode groups and interfaces together,
//! and nothing else. So `Description` has them as one field, `types`, in place of three lists.
//!
//! **Why are kinds enums with parts?** What only one kind has stands in that kind's variant: `InterfaceKind`, `EventKind`,
//! `Connector`, `PrototypeType`. So no value has a field that its kind lacks, and a `match` misses none. An activation by a mode
//! switch has its modes with it (`ModeActivation`), which are one or two.
//!
//! **Why does a mapped event keep its names?** Whether an instance has that path is judged late, when the description is flat. So
//! `instance` and `event` of a `MappedEvent` are texts; all other names that refer are positions.
#![tactic(auto)]

mod base_type;
mod check;
mod component;
mod description;
mod flat;
mod interface;

pub use base_type::{BaseType, DataType, range};
pub use check::check_types;
pub use component::{
    Access, Behavior, Component, DisabledInModes, Event, EventKind, ItemPair, ModeActivation, Port,
    PortKind, Runnable, Variable,
};
pub use description::{
    Composition, Connector, Description, InnerPort, MappedEvent, Prototype, PrototypeType, Task,
    TaskMapping,
};
pub use flat::{End, Flat, Instance, Join};
pub use interface::{
    ApplicationError, Argument, ComSpec, DataElement, Direction, Interface, InterfaceKind,
    ModeElement, ModeGroup, Operation, SwImplPolicy, TypeTable,
};
