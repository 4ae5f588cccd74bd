//! From the bytes of a description to what its connectors join.

ghost use Rattle.std.specs.Prelude.{◌≡◌, IfErr, IfOk, None, OnOk};
ghost use Rattle.plan_definitions.specs.Common.{IsFlatOf, refusal};
ghost use Rattle.declared_names.specs.Sizes.{AreFew};
ghost use Rattle.end_search.specs.Matching.{HasFewItems};
ghost use Rattle.description_stages.specs.Stages.{IsJoinRefusalOf, IsJoinedOf, IsRefusalOf, IsToldAs};

use compatibility::check_joins;
use component_model::{Description, read_description};
use composition_flatten::flatten;
use description_types::Flat;
use rte_text::Refused;
use std::alloc::Global;

/// A description that breaks none of rules 1 to 15, with its instances and what they join.
#[derive(Drop)]
pub struct JoinedDescription {
    pub description: Description,
    pub flat: Flat,
}

/// Whether what is joined may be joined, each refusal by its case.
fn check(alloc: Global, description: &Description, flat: &Flat) -> Result<(), Refused>
    ensures may_join { OnOk result (refusal description.now flat.now ≡ None) }
    ensures refused { IfErr result (IsToldAs (refusal description.now flat.now)) }
{
    match check_joins(alloc, description, flat) {
        Ok(()) => Ok(()),
        Err(Refused::Rule(refusal)) => Err(Refused::Rule(refusal)),
        Err(Refused::Memory) => Err(Refused::Memory),
    }
}

/// The description made flat, if what is joined may be joined.
fn join(alloc: Global, description: &Description) -> Result<Flat, Refused>
    requires { HasFewItems description.now }
    ensures flat { IfOk result (IsFlatOf description.now) }
    ensures may_join { IfOk result (λ flat. refusal description.now flat ≡ None) }
    ensures refused { IfErr result (IsJoinRefusalOf description.now) }
{
    let flat = flatten(alloc, description)?;
    match check(alloc, description, &flat) {
        Ok(()) => Ok(flat),
        Err(refused) => Err(refused),
    }
}

/// The description that the bytes are, made flat, if it breaks none of rules 1 to 15: those of `read_description` of
/// `component_model`, of `flatten` of `composition_flatten` and of `check_joins` of `compatibility`. `Rule` names the least
/// rule that is broken, with its first place; `Memory` is answered if memory ran out, and never tells anything of the
/// bytes. They are read as fewer values than 32 bits number.
pub fn join_description(alloc: Global, bytes: &[u8]) -> Result<JoinedDescription, Refused>
    requires { AreFew bytes.now }
    ensures joined { IfOk result (IsJoinedOf bytes.now) }
    ensures refused { IfErr result (IsRefusalOf bytes.now) }
{
    let description = read_description(alloc, bytes)?;
    let flat = join(alloc, &description)?;
    Ok(JoinedDescription { description, flat })
}
