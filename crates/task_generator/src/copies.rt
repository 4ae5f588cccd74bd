//! Copies of lists of variables.

ghost use Rattle.std.specs.Prelude.{◌≡◌, IfOk};

use crate::Memory;
use rte_text::Seq;
use std::alloc::Global;

/// A copy of a list of numbers.
pub fn copy_numbers(alloc: Global, numbers: &[u32]) -> Result<Seq<u32>, Memory>
    ensures { IfOk result (λ copy. copy ≡ numbers.now) }
{
    Ok(Seq::of(Vec::from_slice(alloc, numbers)?))
}
