//! What accesses name in an instance.

ghost use Rattle.std.specs.Prelude.{◌≡◌, ◌∷◌, IfOk};
ghost use Rattle.bus_semantics.specs.Plan.{runnable_of};
ghost use Rattle.implicit_buffers.specs.Buffers.{fetched_by, published_by};
ghost use Rattle.task_generator.specs.Slots.{slot_of, slots_of};
ghost use Rattle.task_generator.specs.Shared.{targets_of};

use crate::Memory;
use bus_semantics::RunnablePlan;
use rte_text::Seq;
use std::alloc::Global;
use task_machine::Targets;

/// The slot of an element: its first place among the elements, and their number if it has none.
#[tactic(auto, using(crate::proofs::Slots::slot_turn, crate::proofs::Slots::slot_here, crate::proofs::Slots::slot_end))]
pub fn slot_of(elements: &[u32], elem: u32) -> usize
    ensures { result ≡ slot_of elem elements.now }
{
    for (slot, element) in elements.iter().enumerate() {
        if *element == elem {
            return slot;
        }
    }
    elements.len()
}

/// The slot of what no access names, which is element 0, and then those of the elements.
fn slots_of(alloc: Global, elements: &[u32]) -> Result<Vec<usize>, Memory>
    ensures { IfOk result (λ slots. slots.items ≡ slots_of elements.now) }
{
    let mut slots = Vec::new(alloc);
    slots.push(slot_of(elements, 0))?;
    for elem in elements {
        slots.push(slot_of(elements, *elem))?;
    }
    Ok(slots)
}

/// Position 0, which no access names, and then these.
fn positions_of(alloc: Global, targets: &[u32]) -> Result<Vec<u32>, Memory>
    ensures { IfOk result (λ positions. positions.items ≡ 0 ∷ targets.now) }
{
    let mut positions = Vec::with_capacity(alloc, targets.len().saturating_add(1))?;
    positions.push(0)?;
    for target in targets {
        positions.push(*target)?;
    }
    Ok(positions)
}

/// What the accesses of a runnable name, which fetches and publishes these elements.
pub fn targets_of(
    alloc: Global,
    runnable: &RunnablePlan,
    fetched: &[u32],
    published: &[u32],
) -> Result<Targets, Memory>
    requires fetched { fetched.now ≡ fetched_by (runnable_of runnable.now) }
    requires published { published.now ≡ published_by (runnable_of runnable.now) }
    ensures { IfOk result (λ t. t ≡ targets_of (runnable_of runnable.now)) }
{
    let numbers = positions_of(alloc, runnable.targets.items())?;
    let fetched = slots_of(alloc, fetched)?;
    let written = slots_of(alloc, published)?;
    Ok(Targets {
        numbers: Seq::of(numbers),
        fetched: Seq::of(fetched),
        written: Seq::of(written),
    })
}
