//! Descriptions as JSON: which rule a description breaks, and where.
//!
//! `judge` reads the bytes and judges each of their values, which `description_shapes` visits in document order. The refusal is
//! the least rule that is broken, with the first place at which it is.
//!
//! - Rule 1: the bytes are a value that `serde_json` reads. The place is `/`, the whole.
//! - Rule 2: each value has the shape of its kind, and rule 3: each name has the form of one. `description_shapes` has both.
//! - Rule 4: the names that one list declares are distinct; components and compositions count as one list, com specs of
//!   one port name distinct elements, the accesses of one runnable are distinct, and so are the positions in one task,
//!   which are compared by the task's text. The place is the second one: the name, the access or the position. A name is
//!   repeated if it stands at an earlier place of its list; `catalog_of` has the lists.
//! - Rule 5: each name refers to something declared: the list that it is looked up in has it. A type, a mode group,
//!   an interface, a component or composition and a task are looked up in the whole; a runnable, an area, a variable,
//!   a port and a prototype in the component or composition around; an initial mode in its group. An item (a data
//!   element, operation or mode element) is looked up in the interface of its port, and the port of a prototype in
//!   the prototype's type. The root is a composition, and a core at least 0 and below the number of cores. The place
//!   is the name or number. Modes in events and statements, and the instances and events of the mapping, are for
//!   later rules.
//!
//! Places are JSON pointers (RFC 6901), and the whole is `/`. `catalog_of` gathers the names of all lists that rules 4 and 5 look
//! in, however long they are. They are looked up by hash, in maps that are built once for each list of more than a few.
//!
//! # Decisions
//!
//! **Where is a name broken that is not distinct?** At the second one itself: the `shortName`, the mode or the area, for com specs
//! the `element`, for accesses the access, for positions the number. Positions of one task are compared by the task's text, before
//! it is looked at whether the task is declared.
//!
//! **When are two names of one list the same?** When their texts are. For an access the text has its parts, for a position the task
//! and the number, each part apart by a space: laws say that such a text tells them (`texts_tell_accesses_and_positions`). The items
//! of an interface count as one list, and so do components and compositions.
//!
//! **How is it known that a name is repeated?** Its list has where each of its names first stands (`catalog_of`), and a value knows
//! which item of its list it is. It is repeated if its name first stands at an earlier place.
//!
//! **What is kept of a list that no name refers to?** Where each of its names first stands, and no name: the rule of distinct names
//! asks for no more. An access is told apart by the texts of its parts, and a mapped event's position by the task's text and the number.
//!
//! **Which item may an access, a statement or an event name?** Any item of its port's interface: a data element, an operation or a
//! mode element. Whether the item's kind fits is for later rules. So are the modes in events and statements, and the instances and
//! events of the mapping.
//!
//! **Which rule refuses a core that there is not?** The one on references, a negative core too. Both are whole numbers, so their
//! shape is right.
//!
//! **Is each rule looked for by a walk of its own?** Only if one is broken. One walk tells first whether a value breaks any of rules 2
//! to 5, and of a description that breaks none it is the only one.
//!
//! **How is a reference followed?** By positions: a component or composition is known by its number, a port leads to where its
//! interface stands, a prototype to where its type does. So an item is found in two steps from its port, and no list is walked for
//! a name but the modes of a group, which are 32 at most.
#![tactic(auto)]

mod around;
mod catalogs;
mod distinct;
mod first_places;
mod judging;
mod laws;
mod owners;
mod references;

pub use catalogs::{
    BehaviorLists, Catalog, ComponentLists, CompositionLists, InterfaceLists, MappingLists,
    PortLists, PrototypeLists, TypeLists, TypeNumber, catalog_of,
};
pub use distinct::DistinctRule;
pub use judging::judge;
pub use laws::{texts_tell_accesses_and_positions, unbroken_descriptions};
pub use references::ReferenceRule;
