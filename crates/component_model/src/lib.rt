//! Descriptions as typed values, read from JSON.
//!
//! `read_description` takes the bytes of a description and gives a `Description`, or the least rule that they break, with
//! its first place. Rules 1 and those of shapes and names are judged by `description_places`, the rules of types (6 and 7)
//! by `description_types`, and rule 8 here: an initial value of a data element or variable has as many words as its type,
//! each within its limits. It is judged on every port and side, used or not; the place is the initial value.
//!
//! What refers to something by its name holds the position of the item of this name in the list that declares it
//! (`declared_names`); programs are read by `program_reading`, and in a server the program's first variables are the
//! arguments of its operation and `error`. The typed values are those of `description_types`.
//!
//! A reading is there for every value (`specs/Descriptions.antt`), with defaults if the rules leave nothing to be read.
//! Each name is looked up by hash or among a few, so reading grows linearly with the file.
//!
//! # Decisions
//!
//! **What is a description read as?** A function of its JSON value alone, which is there for every value. If the rules of shape
//! and of declared names leave nothing to be read, it takes a default: an empty text or list, 0, or false. For a name that its
//! list does not declare it takes the number of the names there (0 if there is no such list). So the reading needs nothing to be
//! known before it, and later definitions can speak of the typed description alone.
//!
//! **Which initial values are judged?** Those of data elements and variables, on every port and side, used or not. An empty one is
//! one with too few words. One of an operation or a mode element is not judged, for it has no type.
#![tactic(auto)]

mod behavior_reading;
mod component_reading;
mod composition_reading;
mod from_value;
mod initials;
mod mapping_reading;
mod port_reading;
mod reading;
mod servers;
mod type_reading;

pub use description_types::{
    Access, Behavior, Component, Composition, Connector, Description, DisabledInModes, Event,
    EventKind, InnerPort, MappedEvent, ModeActivation, Port, PortKind, Prototype, PrototypeType,
    Runnable, Task, TaskMapping, Variable,
};
pub use reading::read_description;
