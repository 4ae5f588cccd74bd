//! Compatible data types.

ghost use Rattle.std.specs.Prelude.{◌≡◌};
ghost use Rattle.plan_definitions.specs.Types.{are_compatible_types, base_number, types_agree};

use description_types::{BaseType, DataType};

fn base_number(base: BaseType) -> u8
    ensures { result ≡ base_number base }
{
    base as u8
}

fn are_compatible_types(a: &DataType, b: &DataType) -> bool
    ensures { result ≡ are_compatible_types a.now b.now }
{
    base_number(a.base) == base_number(b.base)
        && a.limits.low == b.limits.low
        && a.limits.high == b.limits.high
        && a.words == b.words
}

/// Whether the types at two positions are compatible.
pub fn types_agree(types: &[DataType], a: u32, b: u32) -> bool
    ensures { result ≡ types_agree types.now a b }
{
    match (types.get(a as usize), types.get(b as usize)) {
        (Some(a), Some(b)) => are_compatible_types(a, b),
        (None, None) => true,
        _ => false,
    }
}
