//! Links.

ghost use Rattle.std.specs.Prelude.{◌≡◌};
ghost use Rattle.composition_tables.specs.Owners.{owner_from};

use crate::tree::Owner;

/// An item of a port.
#[derive(Clone, Copy, PartialEq, Eq, PartialOrd, Ord)]
pub struct Item {
    pub owner: Owner,
    pub port: u32,
    /// The position of the item in the port's interface.
    pub element: u32,
}

/// Two items that are joined.
#[derive(Clone, Copy, PartialEq, Eq, PartialOrd, Ord)]
pub struct Link {
    pub provided: Item,
    pub required: Item,
}

/// The greatest number of joined pairs.
pub const LINK_LIMIT: usize = 65_536;

/// An owner, with instances numbered from another first one on.
pub fn owner_from(first: u32, owner: Owner) -> Owner
    ensures { result ≡ owner_from first owner }
{
    match owner {
        Owner::Instance(number) => Owner::Instance(first.saturating_add(number)),
        Owner::Environment => Owner::Environment,
    }
}
