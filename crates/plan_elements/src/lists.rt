//! Coherent access lists of instances.

ghost use Rattle.std.specs.Prelude.{◌≡◌, ◌<◌, ◌^◌, [], ◌∷◌, ◌++◌, Some, IfOk, OnOk, length, map, option_copied, slice_get};
ghost use Rattle.std.specs.Option.{option_map_or};
ghost use Rattle.plan_definitions.specs.Common.{from, element_at, list_of, lists as all_lists, lists_at, reads, runnable_at, runnables_of};
ghost use Rattle.plan_definitions.specs.Listed.{is_required};

use bus_semantics::CoherentList;
use description_types::{ItemPair, PortKind, Runnable};
use plan_numbers::{Pair, Source, component_of, port_of, position};
use rte_text::{Memory, Seq};
use std::alloc::Global;

fn is_required(kind: PortKind) -> bool
    ensures { result ≡ is_required kind }
{
    matches!(kind, PortKind::Required)
}

/// Whether a list of an instance is of reads: whether its first item is of an R-port.
fn reads(source: &Source<'_>, instance: u32, pairs: &[ItemPair]) -> bool
    ensures { result ≡ reads source.now.d.now source.now.f.now instance pairs.now }
{
    match pairs.get(0) {
        Some(first) => match port_of(source.d, source.f, Some(instance), first.port) {
            Some(port) => is_required(port.kind),
            None => false,
        },
        None => false,
    }
}

fn element_at(source: &Source<'_>, instance: u32, pair: ItemPair) -> u32
    ensures { result ≡ element_at source.now.d.now source.now.f.now instance pair }
{
    source.element_number(Some(instance), Some(pair.port), pair.item)
}

fn elements_at(
    alloc: Global,
    source: &Source<'_>,
    instance: u32,
    pairs: &[ItemPair],
) -> Result<Seq<u32>, Memory>
    ensures { IfOk result (λ elems. elems ≡ map (element_at source.now.d.now source.now.f.now instance) pairs.now) }
{
    let mut elems = Vec::with_capacity(alloc, pairs.len())?;
    for pair in pairs {
        elems.push(element_at(source, instance, *pair))?;
    }
    Ok(Seq::of(elems))
}

fn push_list(
    list: &mut Vec<CoherentList>,
    alloc: Global,
    source: &Source<'_>,
    number: u32,
    instance: u32,
    pairs: &[ItemPair],
) -> Result<(), Memory>
    ensures { OnOk result (list.new.items ≡ list.old.items ++ list_of source.now.d.now source.now.f.now number instance pairs.now ∷ []) }
{
    let elems = elements_at(alloc, source, instance, pairs)?;
    list.push(CoherentList {
        runnable: number,
        elems,
        reads: reads(source, instance, pairs),
    })?;
    Ok(())
}

fn push_lists(
    list: &mut Vec<CoherentList>,
    alloc: Global,
    source: &Source<'_>,
    number: u32,
    instance: u32,
    lists: &[Seq<ItemPair>],
) -> Result<(), Memory>
    ensures { OnOk result (list.new.items ≡ list.old.items ++ map (list_of source.now.d.now source.now.f.now number instance) lists.now) }
{
    for pairs in lists {
        push_list(list, alloc, source, number, instance, pairs.items())?;
    }
    Ok(())
}

fn runnable_at<'a>(source: &Source<'a>, instance: u32, runnable: usize) -> Option<&'a Runnable>
    ensures { option_copied result ≡ runnable_at source.now.d.now source.now.f.now (instance, runnable) }
{
    let component = component_of(source.d, source.f, instance)?;
    component.behavior.runnables.items().get(runnable)
}

fn push_runnable(
    list: &mut Vec<CoherentList>,
    alloc: Global,
    source: &Source<'_>,
    number: usize,
    pair: Pair,
) -> Result<(), Memory>
    requires number { number < 2 ^ 32 }
    requires instance { pair.0 < 2 ^ 32 }
    ensures { OnOk result (list.new.items ≡ list.old.items ++ lists_at source.now.d.now source.now.f.now number pair) }
{
    let number = position(number);
    let instance = position(pair.0);
    match runnable_at(source, instance, pair.1) {
        Some(runnable) => push_lists(
            list,
            alloc,
            source,
            number,
            instance,
            runnable.coherent.items(),
        ),
        None => Ok(()),
    }
}

/// The coherent access lists of the runnables with these numbers, each in declared order: for each list its runnable, its elements
/// and whether they are read.
pub fn list_plans(
    alloc: Global,
    source: &Source<'_>,
    runnables: &[Pair],
) -> Result<Vec<CoherentList>, Memory>
    requires { runnables.now ≡ runnables_of source.now.d.now source.now.f.now }
    ensures { IfOk result (λ list. list.items ≡ all_lists source.now.d.now source.now.f.now) }
{
    let mut list = Vec::new(alloc);
    for (number, pair) in runnables.iter().enumerate() {
        push_runnable(&mut list, alloc, source, number, *pair)?;
    }
    Ok(list)
}
