//! What runnables fetch and publish at once: elements, and coherent lists.

ghost use Rattle.std.specs.Prelude.{◌≡◌, ◌++◌, ◌∷◌, [], ℕ, IfOk, OnOk, Some, nat_eq, if◌then◌else◌, ◌==◌};
ghost use Rattle.bus_semantics.specs.Common.{list_any, plan_of, runnable_of, list_with, in_order, fetches_of, publications_of};
ghost use Rattle.indexmap.specs.IndexMap.{get};
ghost use Rattle.indexmap.specs.IndexSet.{contains};
ghost use Rattle.implicit_buffers.specs.Buffers.{is_implicit};
ghost use Rattle.implicit_buffers.specs.Fetchings.{implicits_of, now_met, first_met};

use crate::Memory;
use crate::planning::is_implicit;
use bus_semantics::{BusPlan, RunnablePlan};
use indexmap::{IndexMap, IndexSet};
use runnable_lang::AccessSig;
use std::alloc::Global;

/// What is fetched or published at once.
#[derive(Clone, Copy)]
pub enum Fetching {
    /// An element.
    One(u32),
    /// The elements of a coherent list.
    List(u32),
}

/// The elements are in this list, whichever they were in before.
fn note_list(lists: &mut IndexMap<u32, u32>, list: u32, elements: &[u32]) -> Result<(), Memory>
    ensures { OnOk result ((x : ℕ) → get nat_eq lists.new x ≡ (if list_any (λ y. y == x) elements.now then Some list else get nat_eq lists.old x)) }
{
    for elem in elements {
        lists.insert(*elem, list)?;
    }
    Ok(())
}

/// For each element the first of these lists in which it is.
fn lists_by_element(
    alloc: Global,
    p: &BusPlan,
    numbers: &[u32],
) -> Result<IndexMap<u32, u32>, Memory>
    ensures { IfOk result (λ lists. (x : ℕ) → get nat_eq lists x ≡ list_with (plan_of p.now) numbers.now x) }
{
    let mut lists = IndexMap::new(alloc);
    let mut left = numbers.len();
    while left > 0 {
        left -= 1;
        let list = numbers[left];
        note_list(&mut lists, list, p.elems_of(list))?;
    }
    Ok(lists)
}

/// The list in which an element is.
fn list_of(lists: &IndexMap<u32, u32>, elem: u32) -> Option<u32>
    ensures { result ≡ get nat_eq lists.now elem }
{
    lists.get(&elem).copied()
}

/// One more access: if it is one of those meant, an element that is in no list, or a list that is met for the first time, is added.
fn add_once(
    found: &mut Vec<Fetching>,
    met: &mut IndexSet<u32>,
    list: Option<u32>,
    access: &AccessSig,
    target: u32,
    fetches: bool,
) -> Result<(), Memory>
    ensures found { OnOk result (implicits_of found.new.items ≡ implicits_of found.old.items ++ (if is_implicit fetches access.now.kind then first_met (contains nat_eq met.old) target list else [])) }
    ensures met { OnOk result ((l : ℕ) → contains nat_eq met.new l ≡ (if is_implicit fetches access.now.kind then now_met (contains nat_eq met.old) list l else contains nat_eq met.old l)) }
{
    if !is_implicit(access.kind, fetches) {
        return Ok(());
    }
    match list {
        None => found.push(Fetching::One(target))?,
        Some(list) => {
            if met.insert(list)? {
                found.push(Fetching::List(list))?;
            }
        }
    }
    Ok(())
}

/// What a runnable fetches at once, or else what it publishes at once.
fn fetchings_of(
    alloc: Global,
    p: &BusPlan,
    runnable: &RunnablePlan,
    fetches: bool,
) -> Result<Vec<Fetching>, Memory>
    ensures { IfOk result (λ found. implicits_of found.items
        ≡ in_order (plan_of p.now) (runnable_of runnable.now).lists (is_implicit fetches) [] (runnable_of runnable.now).accesses (runnable_of runnable.now).targets) }
{
    let lists = lists_by_element(alloc, p, runnable.lists.items())?;
    let accesses = runnable.signature.accesses.items();
    let targets = runnable.targets.items();
    let mut found = Vec::new(alloc);
    let mut met = IndexSet::new(alloc);
    for (access, target) in accesses.iter().zip(targets) {
        let list = list_of(&lists, *target);
        add_once(&mut found, &mut met, list, access, *target, fetches)?;
    }
    Ok(found)
}

/// What an activation of a runnable of the plan fetches at its start, in declared order: elements, and coherent lists, each at the place of
/// its first access (SWS_RTE: Rte_IRead, Rte_IrvIRead). An error says that there was no memory.
pub fn fetches_of(
    alloc: Global,
    p: &BusPlan,
    runnable: &RunnablePlan,
) -> Result<Vec<Fetching>, Memory>
    ensures { IfOk result (λ found. implicits_of found.items ≡ fetches_of (plan_of p.now) (runnable_of runnable.now)) }
{
    fetchings_of(alloc, p, runnable, true)
}

/// What it publishes at its end, in declared order (SWS_RTE: Rte_IWrite, Rte_IrvIWrite). An error says that there was no memory.
pub fn publications_of(
    alloc: Global,
    p: &BusPlan,
    runnable: &RunnablePlan,
) -> Result<Vec<Fetching>, Memory>
    ensures { IfOk result (λ found. implicits_of found.items ≡ publications_of (plan_of p.now) (runnable_of runnable.now)) }
{
    fetchings_of(alloc, p, runnable, false)
}
