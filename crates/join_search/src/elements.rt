//! Data elements and mode elements that serve others.

ghost use Rattle.std.specs.Prelude.{◌≡◌};
ghost use Rattle.plan_definitions.specs.Interfaces.{same_policy, serves_element, same_modes, groups_agree};

use crate::types::types_agree;
use description_types::{DataElement, ModeElement, ModeGroup, SwImplPolicy, TypeTable};

fn same_policy(a: SwImplPolicy, b: SwImplPolicy) -> bool
    ensures { result ≡ same_policy a b }
{
    matches!(
        (a, b),
        (SwImplPolicy::Standard, SwImplPolicy::Standard)
            | (SwImplPolicy::Queued, SwImplPolicy::Queued)
    )
}

/// Whether a data element may serve as another.
pub fn serves_element(types: &TypeTable, provided: &DataElement, required: &DataElement) -> bool
    ensures { result ≡ serves_element types.now provided.now required.now }
{
    provided.short_name == required.short_name
        && types_agree(types.data_types.items(), provided.of_type, required.of_type)
        && same_policy(provided.sw_impl_policy, required.sw_impl_policy)
}

fn same_modes(a: &ModeGroup, b: &ModeGroup) -> bool
    ensures { result ≡ same_modes a.now b.now }
{
    a.modes == b.modes && a.initial_mode == b.initial_mode
}

/// Whether the groups of two mode elements agree.
pub fn groups_agree(types: &TypeTable, provided: &ModeElement, required: &ModeElement) -> bool
    ensures { result ≡ groups_agree types.now provided.now required.now }
{
    let groups = types.mode_groups.items();
    match (
        groups.get(provided.of_type as usize),
        groups.get(required.of_type as usize),
    ) {
        (Some(a), Some(b)) => same_modes(a, b),
        (None, None) => true,
        _ => false,
    }
}
