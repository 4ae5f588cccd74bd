//! The checks of a description made flat, and its plan and mapping if it keeps them.

ghost use Rattle.std.specs.Prelude.{◌≡◌, ◌≤◌, Err, IfOk, OnOk, Some, false, length, true};
ghost use Rattle.plan_definitions.specs.Common.{callings as all_callings, Tells, mapping_text, HaveOrder, are_mapped, mapping_of, plan_of, seen, IsOfLists, IsOfSize, IsRefusal, IsThen};
ghost use Rattle.plan_definitions.specs.Common.{HasFewParts, HasFewThings, types_fit};
ghost use Rattle.plan_definitions.specs.Telling.{Tells as Says};
ghost use Rattle.plan_definitions.specs.MappingRefusals as rules;
ghost use Rattle.event_mapping.specs.Pieces.{ArePieces};
ghost use Rattle.event_mapping.specs.Sized.{are_too_large};

use crate::build::whole_plan;
use crate::guard::is_foretold;
use crate::pieces::{Pieces, pieces_of};
use crate::size::are_too_large;
use bus_semantics::{BusPlan, Mapping};
use component_rules::{check_coherent, check_components};
use description_types::{Description, Flat};
use mapping_rules::{KeptMapping, check_mapping, list_mapping};
use plan_numbers::Source;
use plan_services::Callings;
use rte_text::{Refusal, Refused, Text};
use std::alloc::Global;

fn size_refusal(alloc: Global) -> Refused
    ensures { Says {U = Unit} (Some (30, mapping_text)) (Err result) }
{
    match Text::new(alloc, "/mapping".as_bytes()) {
        Ok(place) => Refused::Rule(Refusal { rule: 30, place }),
        Err(_) => Refused::Memory,
    }
}

/// The plan of these pieces, which may be so large, if each coherent access list fits. So lists are listed only if they fit.
fn coherent_plan(
    alloc: Global,
    source: &Source<'_>,
    callings: &Callings,
    pieces: Pieces,
) -> Result<BusPlan, Refused>
    requires calls { callings.now ≡ all_callings source.now.d.now source.now.f.now }
    requires types { types_fit source.now.d.now.types ≡ true }
    requires pieces { ArePieces source.now.d.now source.now.f.now pieces }
    requires size { are_too_large pieces ≡ false }
    ensures lists { Tells (IsOfLists source.now.d.now) result }
    ensures plan { IfOk result (λ plan. seen plan ≡ plan_of source.now.d.now source.now.f.now) }
{
    match check_coherent(alloc, source.d) {
        Ok(()) => {
            let plan = whole_plan(alloc, source, callings, pieces)?;
            Ok(plan)
        }
        Err(broken) => {
            drop(pieces);
            Err(broken)
        }
    }
}

fn sized(
    alloc: Global,
    source: &Source<'_>,
    callings: &Callings,
    pieces: Pieces,
) -> Result<BusPlan, Refused>
    requires calls { callings.now ≡ all_callings source.now.d.now source.now.f.now }
    requires types { types_fit source.now.d.now.types ≡ true }
    requires pieces { ArePieces source.now.d.now source.now.f.now pieces }
    ensures refusal { Tells (IsThen (IsOfSize source.now.d.now source.now.f.now) (IsOfLists source.now.d.now)) result }
    ensures plan { IfOk result (λ plan. seen plan ≡ plan_of source.now.d.now source.now.f.now) }
{
    if are_too_large(&pieces) {
        drop(pieces);
        return Err(size_refusal(alloc));
    }
    coherent_plan(alloc, source, callings, pieces)
}

/// The plan of a description with these calls.
fn plan_by(
    alloc: Global,
    source: &Source<'_>,
    callings: &Callings,
    mapped: &[bool],
) -> Result<BusPlan, Refused>
    requires calls { callings.now ≡ all_callings source.now.d.now source.now.f.now }
    requires mapping { mapped.now ≡ are_mapped source.now.d.now source.now.f.now }
    requires types { types_fit source.now.d.now.types ≡ true }
    ensures refusal { Tells (IsThen (IsOfSize source.now.d.now source.now.f.now) (IsOfLists source.now.d.now)) result }
    ensures plan { IfOk result (λ plan. seen plan ≡ plan_of source.now.d.now source.now.f.now) }
{
    let pieces = pieces_of(alloc, source, callings, mapped)?;
    sized(alloc, source, callings, pieces)
}

fn plan_over(alloc: Global, source: &Source<'_>, mapped: &[bool]) -> Result<BusPlan, Refused>
    requires mapping { mapped.now ≡ are_mapped source.now.d.now source.now.f.now }
    requires types { types_fit source.now.d.now.types ≡ true }
    ensures refusal { Tells (IsThen (IsOfSize source.now.d.now source.now.f.now) (IsOfLists source.now.d.now)) result }
    ensures plan { IfOk result (λ plan. seen plan ≡ plan_of source.now.d.now source.now.f.now) }
{
    let callings = Callings::of(alloc, source.d, source.f)?;
    let plan = plan_by(alloc, source, &callings, mapped);
    drop(callings);
    plan
}

fn sized_plan(alloc: Global, d: &Description, f: &Flat, mapped: &[bool]) -> Result<BusPlan, Refused>
    requires mapping { mapped.now ≡ are_mapped d.now f.now }
    requires types { types_fit d.now.types ≡ true }
    requires few { HasFewThings d.now f.now }
    ensures refusal { Tells (IsThen (IsOfSize d.now f.now) (IsOfLists d.now)) result }
    ensures plan { IfOk result (λ plan. seen plan ≡ plan_of d.now f.now) }
{
    let source = Source::new(alloc, d, f)?;
    let plan = plan_over(alloc, &source, mapped);
    drop(source);
    plan
}

fn listed(
    alloc: Global,
    d: &Description,
    f: &Flat,
    kept: KeptMapping<'_>,
) -> Result<(BusPlan, Mapping), Refused>
    requires types { types_fit d.now.types ≡ true }
    requires description { kept.d.now ≡ d.now }
    requires flat { kept.f.now ≡ f.now }
    requires few { HasFewThings d.now f.now }
    ensures refusal { Tells (IsThen (IsOfSize d.now f.now) (IsOfLists d.now)) result }
    ensures plan { IfOk result (λ found. seen found.0 ≡ plan_of d.now f.now) }
    ensures mapping { IfOk result (λ found. found.1 ≡ mapping_of d.now f.now) }
{
    let (mapping, mapped) = list_mapping(alloc, kept)?;
    match sized_plan(alloc, d, f, mapped.as_slice()) {
        Ok(plan) => Ok((plan, mapping)),
        Err(refused) => Err(refused),
    }
}

/// The plan and the mapping, listed only if the counts do not tell that the plan is too large.
fn planned(
    alloc: Global,
    d: &Description,
    f: &Flat,
    kept: KeptMapping<'_>,
) -> Result<(BusPlan, Mapping), Refused>
    requires types { types_fit d.now.types ≡ true }
    requires description { kept.d.now ≡ d.now }
    requires flat { kept.f.now ≡ f.now }
    requires parts { HasFewParts d.now }
    requires instances { length f.now.instances ≤ 1024 }
    requires joins { length f.now.joins ≤ 65536 }
    ensures refusal { Tells (IsThen (IsOfSize d.now f.now) (IsOfLists d.now)) result }
    ensures plan { IfOk result (λ found. seen found.0 ≡ plan_of d.now f.now) }
    ensures mapping { IfOk result (λ found. found.1 ≡ mapping_of d.now f.now) }
{
    let foretold = is_foretold(alloc, d, f)?;
    if foretold {
        drop(kept);
        return Err(size_refusal(alloc));
    }
    listed(alloc, d, f, kept)
}

fn mapped_plan(alloc: Global, d: &Description, f: &Flat) -> Result<(BusPlan, Mapping), Refused>
    requires types { types_fit d.now.types ≡ true }
    requires parts { HasFewParts d.now }
    requires instances { length f.now.instances ≤ 1024 }
    requires joins { length f.now.joins ≤ 65536 }
    ensures refusal { Tells (IsThen (rules.IsRefusal d.now f.now) (IsThen (IsOfSize d.now f.now) (IsOfLists d.now))) result }
    ensures plan { IfOk result (λ found. seen found.0 ≡ plan_of d.now f.now) }
    ensures mapping { IfOk result (λ found. found.1 ≡ mapping_of d.now f.now) }
    ensures order { OnOk result (HaveOrder d.now f.now) }
{
    match check_mapping(alloc, d, f) {
        Ok(kept) => planned(alloc, d, f, kept),
        Err(refused) => Err(refused),
    }
}

/// The plan and the mapping of a description, made flat, or the least of the rules below that it breaks, with its first place.
///
/// - Each component, used or not, keeps the rules that `check_components` names: 16 at the access, 17 to 20 at the statement or
///   the program, 21 at the event, 22 at the port or the event, 23 at the access or the event, 24 at the event; each place is a
///   JSON pointer, the first in the order of the document.
/// - The mapping and the instances keep those that `check_mapping` names: 25 at the mapped event, a JSON pointer; 26 and 28 at
///   `INSTANCE.EVENT`; 27 at `INSTANCE:RUNNABLE`; 29 at `/mapping`.
/// - The plan has at most 16,384 groups of elements, servers, exclusive areas and mode machines together with the clock, and 16,384
///   events, the queue lengths of all receivers, queued servers and mode machines are together at most 65,536, and there are at
///   most 262,144 points, one for each call of a runnable and one for each operation that the root provides (30, at `/mapping`).
///   Every required queued element is a receiver, joined or not, the environment's too. Too many groups, events or points are
///   told from counts, before the plan and the mapping are listed, unless joins may put enough elements into common groups.
/// - The coherent access lists of each component, used or not, fit, as `check_coherent` says (31, at the list). Lists are listed
///   only if they do.
///
/// The types of the description fit and it has few parts, as a description has that is read from a file; and rule 10 holds: it has at
/// most 1,024 instances and 65,536 joins. So 32 bits number what a plan numbers.
///
/// The plan lists everything by instance and in declared order, what belongs to the environment last; groups by their least
/// element. The mapping has the tasks on their cores, each with the numbers of its events in the order of their positions. The
/// tasks can be put in an order in which each waits by `call` only for later ones.
///
/// An error of `Memory` may come at any time.
///
/// SWS_RTE: RteEventToTaskMapping.
pub fn map_events(alloc: Global, d: &Description, f: &Flat) -> Result<(BusPlan, Mapping), Refused>
    requires types { types_fit d.now.types ≡ true }
    requires parts { HasFewParts d.now }
    requires instances { length f.now.instances ≤ 1024 }
    requires joins { length f.now.joins ≤ 65536 }
    ensures refusal { Tells (IsRefusal d.now f.now) result }
    ensures plan { IfOk result (λ found. seen found.0 ≡ plan_of d.now f.now) }
    ensures mapping { IfOk result (λ found. found.1 ≡ mapping_of d.now f.now) }
    ensures order { OnOk result (HaveOrder d.now f.now) }
{
    match check_components(alloc, d) {
        Ok(()) => mapped_plan(alloc, d, f),
        Err(broken) => Err(broken),
    }
}
