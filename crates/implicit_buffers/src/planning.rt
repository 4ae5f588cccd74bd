//! The elements that runnables fetch and publish.

ghost use Rattle.std.specs.Prelude.{◌≡◌, ◌++◌, ◌∷◌, [], IfOk, OnOk, map};
ghost use Rattle.bus_semantics.specs.Common.{plan_of, runnable_of, is_read_early, is_written_late};
ghost use Rattle.implicit_buffers.specs.Buffers.{is_implicit, named, fetched_by, published_by};

use crate::Memory;
use bus_semantics::{BusPlan, RunnablePlan};
use rte_text::Seq;
use runnable_lang::{AccessKind, AccessSig};
use std::alloc::Global;

/// The elements that the runnables access implicitly, each list at the place of its runnable's number.
#[derive(Drop)]
pub struct BufferPlan {
    /// The elements that an activation fetches at its start, in declared order (SWS_RTE: Rte_IRead, Rte_IrvIRead).
    pub fetched: Seq<Seq<u32>>,
    /// The elements that it publishes at its end, in declared order (SWS_RTE: Rte_IWrite, Rte_IrvIWrite).
    pub published: Seq<Seq<u32>>,
}

/// Whether an access of this kind fetches.
pub fn is_read_early(kind: AccessKind) -> bool
    ensures { result ≡ is_read_early kind }
{
    matches!(kind, AccessKind::IRead | AccessKind::IrvIRead)
}

/// Whether an access of this kind publishes.
pub fn is_written_late(kind: AccessKind) -> bool
    ensures { result ≡ is_written_late kind }
{
    matches!(kind, AccessKind::IWrite | AccessKind::IrvIWrite)
}

/// Whether an access of this kind fetches, or else whether it publishes.
pub fn is_implicit(kind: AccessKind, fetches: bool) -> bool
    ensures { result ≡ is_implicit fetches kind }
{
    if fetches {
        is_read_early(kind)
    } else {
        is_written_late(kind)
    }
}

/// One more access: an element that it fetches, or publishes, is added.
fn add(
    elements: &mut Vec<u32>,
    access: &AccessSig,
    target: &u32,
    fetches: bool,
) -> Result<(), Memory>
    ensures { OnOk result (elements.new.items ≡ elements.old.items ++ named (is_implicit fetches) (access.now ∷ []) (target.now ∷ [])) }
{
    if is_implicit(access.kind, fetches) {
        elements.push(*target)?;
    }
    Ok(())
}

/// The elements that a runnable fetches, or else those that it publishes.
fn elements_of(alloc: Global, runnable: &RunnablePlan, fetches: bool) -> Result<Vec<u32>, Memory>
    ensures { IfOk result (λ elements. elements.items ≡ named (is_implicit fetches) (runnable_of runnable.now).accesses (runnable_of runnable.now).targets) }
{
    let accesses = runnable.signature.accesses.items();
    let targets = runnable.targets.items();
    let mut elements = Vec::new(alloc);
    for (access, target) in accesses.iter().zip(targets) {
        add(&mut elements, access, target, fetches)?;
    }
    Ok(elements)
}

/// One more runnable: the elements that it fetches, or else those that it publishes, are added as a list.
fn add_elements(
    alloc: Global,
    lists: &mut Vec<Seq<u32>>,
    runnable: &RunnablePlan,
    fetches: bool,
) -> Result<(), Memory>
    ensures { OnOk result (lists.new.items ≡ lists.old.items ++ named (is_implicit fetches) (runnable_of runnable.now).accesses (runnable_of runnable.now).targets ∷ []) }
{
    let elements = elements_of(alloc, runnable, fetches)?;
    lists.push(Seq::of(elements))?;
    Ok(())
}

/// The elements that each of the runnables fetches.
fn all_fetched(alloc: Global, runnables: &[RunnablePlan]) -> Result<Vec<Seq<u32>>, Memory>
    ensures { IfOk result (λ lists. lists.items ≡ map fetched_by (map runnable_of runnables.now)) }
{
    let mut lists = Vec::new(alloc);
    for runnable in runnables {
        add_elements(alloc, &mut lists, runnable, true)?;
    }
    Ok(lists)
}

/// The elements that each of the runnables publishes.
fn all_published(alloc: Global, runnables: &[RunnablePlan]) -> Result<Vec<Seq<u32>>, Memory>
    ensures { IfOk result (λ lists. lists.items ≡ map published_by (map runnable_of runnables.now)) }
{
    let mut lists = Vec::new(alloc);
    for runnable in runnables {
        add_elements(alloc, &mut lists, runnable, false)?;
    }
    Ok(lists)
}

/// What each runnable of the plan fetches and publishes, in declared order (SWS_RTE: implicit access). An error says that there was
/// no memory.
pub fn plan_buffers(alloc: Global, p: &BusPlan) -> Result<BufferPlan, Memory>
    ensures fetched { IfOk result (λ b. b.fetched ≡ map fetched_by (plan_of p.now).runnables) }
    ensures published { IfOk result (λ b. b.published ≡ map published_by (plan_of p.now).runnables) }
{
    let runnables = p.runnables.items();
    let fetched = all_fetched(alloc, runnables)?;
    let published = all_published(alloc, runnables)?;
    Ok(BufferPlan {
        fetched: Seq::of(fetched),
        published: Seq::of(published),
    })
}
