//! What the names of a description mean: the lists that declare them, and where a name stands in its list.
//!
//! `scope_of` gathers the names of a description's types, interfaces, components and compositions, `component_names` those
//! of one component. A name stands at the position of the first item of this name, and at the number of items if none
//! has it. A list of a few names is looked through; in a longer one names are looked up by hash, in a map that is built once.
//! Beside them stands what is taken from a JSON value: a key that is missing or of another kind counts as empty, zero or false.
//!
//! # Decisions
//!
//! **Which of two equal names does a reference mean?** The first. The rule on distinct names leaves no two.
//!
//! **How does a prototype name its type?** By its name among the components, and if none has it, among the compositions. They
//! count as one list, so at most one has it.
//!
//! **Why are there two kinds of lists, and why is one of 64 bits?** The rules are judged of every file, before it is known that it is
//! short enough for positions of 32 bits; what is read is of a file that is.
#![tactic(auto)]

mod in_component;
mod names;
mod scopes;
mod values;

pub use in_component::{ComponentNames, InComponent, component_names};
pub use names::{
    NameList, Positions, declared, declared_texts, find_at, has_at, short_names, texts,
};
pub use scopes::{
    InterfaceNames, PrototypeNames, Scope, TypeNames, interface_names, item_names, prototype_names,
    scope_of, type_names,
};
pub use values::{
    copy_at, flag_at, item, items_at, items_in, items_of_part, number_at, number_of_part,
    small_number_at, text_at, text_at_in, text_in, text_of_part, text_of_part_at, value_at,
    word_at, word_in,
};
