//! The values of a description as JSON: the shape of each, its place, and which of them break a rule.
//!
//! A description is one JSON object. Three tables say what it holds: the keys of each kind of object (`keys_of`), the
//! parts of each kind of array with a fixed number of them (`row_of`), and the words that name a kind (`choices_of`). From
//! them come the *visits* of a description: each value in document order, an object before what it holds, its values in
//! the order of the table and an array's parts in the order in which they stand, each with its kind, its place and the
//! values round it. A rule is a test of one visit. If a visit fails it, the rule is broken at the visit's place. One walk,
//! `first_fault`, serves every rule of this form. Two of them look at a value alone:
//!
//! - Rule 2: each value has the shape of its kind; no key is missing or unknown (the place is the object). A statement,
//!   access or operator with an unknown keyword or a wrong number of parts is broken itself, a part of a wrong kind at
//!   its own place; of an interface, event or connector of unknown `kind` the `kind` is broken, but the object if a
//!   key is missing that every kind has or one stands there that no kind has.
//! - Rule 3: each name has 1 to 32 bytes, a letter, then letters, digits and `_`.
//!
//! Places are JSON pointers (RFC 6901). A number that is written as `-0`, with a fraction or with an exponent is no whole
//! number; of doubled keys the last one stands.
//!
//! # Decisions
//!
//! **How long may a place be?** As long as it comes. An unknown key is never in a place, since its object is named. A place has
//! known keys, positions and names, and as many steps as its value is deep; no clause says how long it is at most. So the text of
//! a refusal takes memory, and if there is none, nothing is put. All other lines fit a buffer of fixed room.
//!
//! **How does a rule know the values of a description?** By three tables: the keys of each kind of object, the parts of each kind
//! of fixed array, and the words that name a kind. From them come the values in document order, each with its kind, its place and
//! the values around it. A rule is a test of one of these, and one walk serves all such rules.
//!
//! **What is document order?** An object before what it holds, its keys in the order of the table (not of the file), the parts of
//! an array in their order. So the first place does not depend on how a file orders its keys.
//!
//! **Where is a statement, access or expression of a wrong shape broken?** At itself, if its keyword is unknown or no text, or the
//! number of its parts is wrong. A part of a wrong kind is broken at its own place, and a `repeat` count out of 0 to 1,000 at the
//! number.
//!
//! **Where is an object with an unknown `kind` broken?** At its `kind`. But if a key is missing that every kind has, or one is
//! there that no kind has, the object is broken.
//!
//! **Which numbers are whole, and how much nesting is read?** What the JSON reader says: `-0`, `1.0` and `1e2` are no whole
//! numbers, those from 2^63 on do not fit, and `1e309` is no JSON. Of a doubled key the last one stands. 127 open brackets are
//! read, 128 are not.
#![tactic(auto)]

mod alternatives;
mod calculations;
mod form;
mod keys;
mod kind;
mod names;
mod rows;
mod rule;
mod rules;
mod shape;
mod skipping;
mod trail;
mod walk;

pub use alternatives::{Alternative, choices_of, resolved};
pub use calculations::is_calculation;
pub use form::{Form, form_of};
pub use keys::{Field, keys_of};
pub use kind::Kind;
pub use names::is_name;
pub use rows::{row_of, words_of};
pub use rule::Rule;
pub use rules::{NameRule, ShapeOrNameRule, ShapeRule};
pub use shape::has_shape;
pub use skipping::{declares_nothing, refers_to_nothing};
pub use trail::Trail;
pub use walk::{PartKinds, first_fault, is_unbroken, part_kinds};
