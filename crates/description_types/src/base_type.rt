//! Base types and data types.

ghost use Rattle.std.specs.Prelude.{◌≡◌};
ghost use Rattle.description_types.specs.Ranges.{range_of, keeps_range};

use rte_value::Limits;

/// A base type of the platform (AUTOSAR_SWS_PlatformTypes).
#[derive(Clone, Copy, Debug, PartialEq, Eq)]
pub enum BaseType {
    Boolean,
    Uint8,
    Uint16,
    Uint32,
    Sint8,
    Sint16,
    Sint32,
}

/// An implementation data type (ImplementationDataType): one word, or an array of words of one base type.
#[derive(Clone, Copy)]
pub struct DataType {
    pub base: BaseType,
    /// The limits of each of its words (DataConstr).
    pub limits: Limits,
    /// How many words it has, 1 to 16.
    pub words: u8,
}

/// The least and the greatest word of a base type (AUTOSAR_SWS_PlatformTypes).
pub fn range(b: BaseType) -> Limits
    ensures { result ≡ range_of b }
{
    let (low, high) = match b {
        BaseType::Boolean => (0, 1),
        BaseType::Uint8 => (0, 255),
        BaseType::Uint16 => (0, 65_535),
        BaseType::Uint32 => (0, 4_294_967_295),
        BaseType::Sint8 => (-128, 127),
        BaseType::Sint16 => (-32_768, 32_767),
        BaseType::Sint32 => (-2_147_483_648, 2_147_483_647),
    };
    Limits { low, high }
}

/// Whether the limits of the type are in order, and in its base type's range.
pub(crate) fn keeps_range(t: &DataType) -> bool
    ensures { result ≡ keeps_range t.now }
{
    let range = range(t.base);
    t.limits.low <= t.limits.high && range.low <= t.limits.low && t.limits.high <= range.high
}
