//! Where the walk of a description stands.

ghost use Rattle.std.specs.Prelude.{◌≡◌, IfOk, string_bytes};
ghost use Rattle.description_shapes.specs.Trails.{spot_of};

use crate::kind::Kind;
use itoa::Buffer;
use serde_json::Value;
use std::alloc::{AllocError, Global};

/// A value's place, with the values round it.
#[derive(Clone, Copy)]
pub enum Trail<'a> {
    /// The whole.
    Whole,
    /// The value at a key of `owner`, an object of this kind that stands at `outer`.
    Member(&'a Trail<'a>, &'a Value, Kind, &'static str),
    /// The part of this number of `owner`, an array of this kind that stands at `outer`.
    Part(&'a Trail<'a>, &'a Value, Kind, usize),
}

/// Room that most places and keys fit in, in bytes, so that few texts of them grow.
const ROOM: usize = 48;

impl Trail<'_> {
    /// The place as a JSON pointer, the whole as the empty text.
    pub fn place(&self, alloc: Global) -> Result<String, AllocError>
        ensures { IfOk result (λ text. string_bytes text ≡ (spot_of self.now).place) }
    {
        match self {
            Trail::Whole => String::with_capacity(alloc, ROOM),
            Trail::Member(outer, _, _, key) => {
                let mut text = outer.place(alloc)?;
                text.push_str("/")?;
                text.push_str(key)?;
                Ok(text)
            }
            Trail::Part(outer, _, _, index) => {
                let mut text = outer.place(alloc)?;
                text.push_str("/")?;
                text.push_str(Buffer::new().format(*index))?;
                Ok(text)
            }
        }
    }
}
