//! How many instances stand before those of a prototype.

ghost use Rattle.std.specs.Prelude.{◌≡◌, ℕ, IfOk};
ghost use Rattle.composition_tables.specs.Counts.{AreCounts, IsCounted};
ghost use Rattle.composition_tables.specs.Trees.{AreStarts, IsStarted, starts_for};

use crate::counts::{capped_sum, count_of};
use description_types::{Composition, Description};
use rte_text::Memory;
use std::alloc::Global;

/// For each prototype, the count of the instances before its own, up to the cap.
fn starts_for(alloc: Global, counts: &[u32], composition: &Composition) -> Result<Vec<u32>, Memory>
    ensures { IfOk result (λ starts. starts.items ≡ starts_for counts.now composition.now) }
{
    let mut starts = Vec::new(alloc);
    let mut total = 0;
    for prototype in composition.prototypes.items() {
        starts.push(total)?;
        total = capped_sum(total, count_of(counts, prototype.of_type));
    }
    Ok(starts)
}

fn starts_at(alloc: Global, d: &Description, counts: &[u32]) -> Result<Vec<Vec<u32>>, Memory>
    ensures { IfOk result (λ starts. (n : ℕ) → AreCounts d.now n counts.now → AreStarts d.now n starts.items) }
{
    let mut starts = Vec::new(alloc);
    for composition in d.compositions.items() {
        starts.push(starts_for(alloc, counts, composition)?)?;
    }
    Ok(starts)
}

/// For each depth up to the limit, the starts of the prototypes of each composition.
pub fn start_levels(
    alloc: Global,
    d: &Description,
    levels: &[Vec<u32>],
) -> Result<Vec<Vec<Vec<u32>>>, Memory>
    requires { IsCounted d.now levels.now }
    ensures { IfOk result (λ table. IsStarted d.now table.items) }
{
    let mut table = Vec::new(alloc);
    for counts in levels {
        table.push(starts_at(alloc, d, counts.as_slice())?)?;
    }
    Ok(table)
}
