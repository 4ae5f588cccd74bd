//! Mappings that keep their rules.

ghost use Rattle.std.specs.Prelude.{◌≡◌};

use crate::mapped::Mapped;
use description_types::{Description, Flat};

/// The mapping of a description made flat, which keeps its rules, with its events as they are found by their names.
#[derive(Drop)]
pub struct KeptMapping<'a> {
    pub d: &'a Description,
    pub f: &'a Flat,
    pub(crate) mapped: Mapped<'a>,
    ghost of_description: { mapped.names.d.now ≡ d.now },
    ghost of_flat: { mapped.names.f.now ≡ f.now },
}
