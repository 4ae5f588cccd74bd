//! Whether connectors join compatible ports.

ghost use Rattle.std.specs.Prelude.{◌≡◌, IfOk, OnOk};
ghost use Rattle.plan_definitions.specs.Common.{joins_compatible, incompatible_in, incompatible, are_compatible};
ghost use Rattle.join_search.specs.Passed.{HavePassed};

use crate::judge::Judge;
use crate::ports::sides;
use description_types::{Composition, Connector, Description};
use indexmap::IndexSet;
use rte_text::Memory;
use std::alloc::Global;

/// Pairs of interfaces that were judged compatible, the provided one first. So no pair is judged twice.
type Passed = IndexSet<(u32, u32)>;

fn passes(judge: &Judge, pair: (u32, u32), passed: &mut Passed) -> Result<bool, Memory>
    requires { HavePassed judge.now.types.now passed.old.keys }
    ensures told { IfOk result (λ answer. answer ≡ are_compatible judge.now.types.now pair.0 pair.1) }
    ensures kept { OnOk result (HavePassed judge.now.types.now passed.new.keys) }
{
    if passed.contains(&pair) {
        return Ok(true);
    }
    if !judge.are_compatible(pair.0, pair.1) {
        return Ok(false);
    }
    passed.insert(pair)?;
    Ok(true)
}

fn joins_compatible(
    judge: &Judge,
    d: &Description,
    composition: &Composition,
    connector: &Connector,
    passed: &mut Passed,
) -> Result<bool, Memory>
    requires judged { judge.now.types.now ≡ d.now.types }
    requires passed { HavePassed judge.now.types.now passed.old.keys }
    ensures told { IfOk result (λ answer. answer ≡ joins_compatible d.now composition.now connector.now) }
    ensures kept { OnOk result (HavePassed judge.now.types.now passed.new.keys) }
{
    match sides(d, composition, connector) {
        Some(pair) => passes(judge, pair, passed),
        None => Ok(false),
    }
}

/// The first connector of a composition that joins ports that are not compatible.
#[tactic(auto, using(plan_definitions::proofs::Turns::first_more, plan_definitions::proofs::Turns::first_here, plan_definitions::proofs::Turns::first_none))]
fn incompatible_in(
    judge: &Judge,
    d: &Description,
    composition: &Composition,
    passed: &mut Passed,
) -> Result<Option<usize>, Memory>
    requires judged { judge.now.types.now ≡ d.now.types }
    requires passed { HavePassed judge.now.types.now passed.old.keys }
    ensures told { IfOk result (λ first. first ≡ incompatible_in d.now composition.now) }
    ensures kept { OnOk result (HavePassed judge.now.types.now passed.new.keys) }
{
    for (position, connector) in composition.connectors.items().iter().enumerate() {
        if !joins_compatible(judge, d, composition, connector, passed)? {
            return Ok(Some(position));
        }
    }
    Ok(None)
}

/// The first connector that joins ports that are not compatible, with its composition before it.
#[tactic(auto, using(plan_definitions::proofs::Turns::first_more, plan_definitions::proofs::Turns::first_here, plan_definitions::proofs::Turns::first_none))]
pub fn incompatible(alloc: Global, d: &Description) -> Result<Option<(usize, usize)>, Memory>
    ensures { IfOk result (λ first. first ≡ incompatible d.now) }
{
    let judge = Judge::new(alloc, &d.types)?;
    let mut passed = IndexSet::new(alloc);
    for (position, composition) in d.compositions.items().iter().enumerate() {
        if let Some(connector) = incompatible_in(&judge, d, composition, &mut passed)? {
            return Ok(Some((position, connector)));
        }
    }
    Ok(None)
}
