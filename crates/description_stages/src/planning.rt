//! From the bytes of a description to its plan and its mapping.

ghost use Rattle.std.specs.Prelude.{◌≡◌, ◌≤◌, IfErr, IfOk, length, true};
ghost use Rattle.plan_definitions.specs.Common.{IsRefusal, HasFewParts, types_fit};
ghost use Rattle.declared_names.specs.Sizes.{AreFew};
ghost use Rattle.description_stages.specs.Plans.{IsPlanRefusalOf, IsPlannedFrom, IsPlannedOf, IsToldBy};

use crate::joining::{JoinedDescription, join_description};
use crate::laws::read_descriptions_are_well_formed;
use crate::soundness::plans_are_sound;
use bus_semantics::{BusPlan, Mapping};
use component_model::Description;
use description_types::Flat;
use event_mapping::map_events;
use rte_text::Refused;
use std::alloc::Global;

/// A description that breaks none of the rules, made flat, with its plan and its mapping, which are sound.
#[derive(Drop)]
pub struct PlannedDescription {
    pub description: Description,
    pub flat: Flat,
    pub plan: BusPlan,
    pub mapping: Mapping,
}

/// The plan and the mapping of a description that breaks none of rules 1 to 15.
fn planned(alloc: Global, joined: JoinedDescription) -> Result<PlannedDescription, Refused>
    requires types { types_fit joined.description.types ≡ true }
    requires parts { HasFewParts joined.description }
    requires instances { length joined.flat.instances ≤ 1024 }
    requires joins { length joined.flat.joins ≤ 65536 }
    ensures planned { IfOk result (IsPlannedFrom joined) }
    ensures refused { IfErr result (IsToldBy (IsRefusal joined.description joined.flat)) }
{
    match map_events(alloc, &joined.description, &joined.flat) {
        Ok((plan, mapping)) => Ok(PlannedDescription {
            description: joined.description,
            flat: joined.flat,
            plan,
            mapping,
        }),
        Err(Refused::Rule(refusal)) => Err(Refused::Rule(refusal)),
        Err(Refused::Memory) => Err(Refused::Memory),
    }
}

/// The description that the bytes are, made flat, with its plan and its mapping, if it breaks none of rules 1 to 31: those
/// of `join_description`, and those of `map_events` of `event_mapping`. The plan is sound with the mapping. `Rule` names the
/// least rule that is broken, with its first place; `Memory` is answered if memory ran out, and never tells anything of
/// the bytes. They are read as fewer values than 32 bits number.
pub fn plan_description(alloc: Global, bytes: &[u8]) -> Result<PlannedDescription, Refused>
    requires { AreFew bytes.now }
    ensures planned { IfOk result (IsPlannedOf bytes.now) }
    ensures refused { IfErr result (IsPlanRefusalOf bytes.now) }
{
    read_descriptions_are_well_formed();
    plans_are_sound();
    let joined = join_description(alloc, bytes)?;
    match planned(alloc, joined) {
        Ok(found) => Ok(found),
        Err(refused) => Err(refused),
    }
}
