//! Descriptions made flat.

ghost use Rattle.std.specs.Prelude.{◌≡◌, ◌++◌, ℕ, codes, IfOk, IfErr, OnOk, string_bytes};
ghost use Rattle.std.specs.Fmt.{decimal};
ghost use Rattle.end_search.specs.Matching.{HasFewItems};
ghost use Rattle.description_types.specs.Flattening.{IsFlatOf, IsRefusalOf, KeepsConnectors, KeepsLimits, KeepsNesting, composition_place, connector_place};
ghost use Rattle.composition_flatten.specs.Within.{IsWithin};

use crate::limits::{Within, parts_within};
use crate::wiring::first_broken;
use composition_tables::containing::first_in_itself;
use description_types::{Description, Flat};
use itoa::Buffer;
use rte_text::{Memory, Refusal, Refused, Seq, Text};
use std::alloc::Global;

fn composition_place(alloc: Global, composition: usize) -> Result<String, Memory>
    ensures { IfOk result (λ place. string_bytes place ≡ composition_place composition) }
{
    let mut place = String::from_str(alloc, "/compositions/")?;
    place.push_str(Buffer::new().format(composition))?;
    Ok(place)
}

fn connector_place(alloc: Global, composition: usize, connector: usize) -> Result<String, Memory>
    ensures { IfOk result (λ place. string_bytes place ≡ connector_place (composition, connector)) }
{
    let mut place = composition_place(alloc, composition)?;
    place.push_str("/connectors/")?;
    place.push_str(Buffer::new().format(connector))?;
    Ok(place)
}

fn refusal_at(rule: u16, place: String) -> Refusal
    ensures rule { result.rule ≡ rule }
    ensures place { result.place ≡ string_bytes place }
{
    Refusal {
        rule,
        place: Text::of(place.into_bytes()),
    }
}

/// Rule 9: no composition contains itself.
fn check_nesting(alloc: Global, d: &Description) -> Result<(), Refused>
    ensures kept { OnOk result (KeepsNesting d.now) }
    ensures refused { IfErr result (IsRefusalOf d.now) }
{
    match first_in_itself(alloc, d)? {
        Some(composition) => {
            let place = composition_place(alloc, composition)?;
            Err(Refused::Rule(refusal_at(9, place)))
        }
        None => Ok(()),
    }
}

/// Rule 10: the limits on instances and joins.
fn check_limits(alloc: Global, d: &Description) -> Result<Within, Refused>
    requires nesting { KeepsNesting d.now }
    requires few { HasFewItems d.now }
    ensures kept { IfOk result (IsWithin d.now) }
    ensures refused { IfErr result (IsRefusalOf d.now) }
{
    match parts_within(alloc, d)? {
        Some(within) => Ok(within),
        None => {
            let place = String::from_str(alloc, "/root")?;
            Err(Refused::Rule(refusal_at(10, place)))
        }
    }
}

/// Rule 11: connectors join ports that they may join, and none of a composition is equal to an earlier one.
fn check_connectors(alloc: Global, d: &Description) -> Result<(), Refused>
    requires nesting { KeepsNesting d.now }
    requires limits { KeepsLimits d.now }
    ensures kept { OnOk result (KeepsConnectors d.now) }
    ensures refused { IfErr result (IsRefusalOf d.now) }
{
    match first_broken(alloc, d)? {
        Some(found) => {
            let place = connector_place(alloc, found.0, found.1)?;
            Err(Refused::Rule(refusal_at(11, place)))
        }
        None => Ok(()),
    }
}

/// A description made flat: its component instances, depth first, and exactly the pairs of data elements, operations and
/// mode elements that connectors join, each once and in order (VFB: connectors). `Rule` names the least of the rules 9 to
/// 11 that the description breaks, with its first place; `Memory` is answered if memory ran out, and never tells anything
/// of the description.
///
/// Positions that are out of range lead nowhere, so any description may be given whose interfaces have fewer items than 32 bits
/// number. The rules: no composition contains itself (9); the root has at most 1,024 instances, each at most 8 prototypes deep, no
/// prototype named `env`, and at most 65,536 pairs of joined items (10); each connector joins ports that it may join, and repeats
/// no other (11). Two items are joined if a chain of connectors leads between their ports: up, across one assembly and down, or by
/// delegations alone from or to the environment.
pub fn flatten(alloc: Global, d: &Description) -> Result<Flat, Refused>
    requires { HasFewItems d.now }
    ensures flat { IfOk result (IsFlatOf d.now) }
    ensures refused { IfErr result (IsRefusalOf d.now) }
{
    check_nesting(alloc, d)?;
    let within = check_limits(alloc, d)?;
    check_connectors(alloc, d)?;
    Ok(Flat {
        instances: Seq::of(within.instances),
        joins: Seq::of(within.joins),
    })
}
