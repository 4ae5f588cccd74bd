//! The least number in the group of each element.

ghost use Rattle.std.specs.Prelude.{◌≡◌, ◌<◌, ◌^◌, IfOk};
ghost use Rattle.plan_definitions.specs.Common.{leaders, keys_of, positions, elements_of};
ghost use Rattle.plan_elements.specs.Ends.{pairs_of};

use crate::spread::spread;
use plan_numbers::{Source, position};
use rte_text::Memory;
use std::alloc::Global;

#[tactic(auto, using(crate::proofs::Leading::own_more, crate::proofs::Leading::own_none))]
fn numbers_below(alloc: Global, count: usize) -> Result<Vec<u32>, Memory>
    requires { count < 2 ^ 32 }
    ensures { IfOk result (λ list. list.items ≡ positions 0 count) }
{
    let mut list = Vec::with_capacity(alloc, count)?;
    for number in 0..count {
        list.push(position(number))?;
    }
    Ok(list)
}

/// The least number in the group of each element, in the order of the elements, from the numbers of the ends of each join.
pub fn leaders_of(
    alloc: Global,
    source: &Source<'_>,
    pairs: &[(u32, u32)],
) -> Result<Vec<u32>, Memory>
    requires { pairs.now ≡ pairs_of (keys_of (elements_of source.now.d.now source.now.f.now)) source.now.f.now.joins }
    ensures { IfOk result (λ list. list.items ≡ leaders source.now.d.now source.now.f.now) }
{
    let own = numbers_below(alloc, source.lists.elements.len())?;
    let near = spread(alloc, pairs, own.as_slice())?;
    let least = spread(alloc, pairs, near.as_slice())?;
    Ok(least)
}
