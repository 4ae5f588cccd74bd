//! How many component instances stand below a composition.

ghost use Rattle.std.specs.Prelude.{◌≡◌, ◌+◌, ℕ, suc, IfOk, min, slice_index};
ghost use Rattle.description_types.specs.Places.{size_of};
ghost use Rattle.composition_tables.specs.Counts.{AreCounts, IsCounted, count_for, count_in};

use description_types::{Composition, Description, PrototypeType};
use rte_text::Memory;
use std::alloc::Global;

/// How deep an instance stands at most: the prototypes of its path.
pub const DEPTH_LIMIT: usize = 8;

/// One more than the greatest number of instances. No instances are counted further.
const COUNT_CAP: u32 = 1_025;

/// The count of a composition, 0 past the last one.
pub fn count_at(counts: &[u32], composition: u32) -> u32
    ensures { result ≡ slice_index counts.now composition }
{
    counts.get(composition as usize).copied().unwrap_or(0)
}

/// How many instances stand at or below what has this type, by the counts of the compositions.
pub fn count_of(counts: &[u32], of_type: PrototypeType) -> u32
    ensures { result ≡ size_of (slice_index counts.now) of_type }
{
    match of_type {
        PrototypeType::Component(_) => 1,
        PrototypeType::Composition(held) => count_at(counts, held),
    }
}

/// The sum of two counts, up to the cap.
pub fn capped_sum(first: u32, second: u32) -> u32
    ensures { result ≡ min (first + second) 1025 }
{
    first.saturating_add(second).min(COUNT_CAP)
}

#[tactic(auto, using(crate::proofs::Counting::count_turn))]
fn count_for(counts: &[u32], composition: &Composition) -> u32
    ensures { result ≡ count_for counts.now composition.now }
{
    let mut total = 0;
    for prototype in composition.prototypes.items() {
        total = capped_sum(total, count_of(counts, prototype.of_type));
    }
    total
}

/// The counts of instances at one more prototype deep.
fn deeper_counts(alloc: Global, d: &Description, counts: &[u32]) -> Result<Vec<u32>, Memory>
    ensures { IfOk result (λ deeper. (n : ℕ) → AreCounts d.now n counts.now → AreCounts d.now (suc n) deeper.items) }
{
    let mut deeper = Vec::new(alloc);
    for composition in d.compositions.items() {
        deeper.push(count_for(counts, composition))?;
    }
    Ok(deeper)
}

/// For each depth up to the limit, the counts of the instances at most so deep below each composition, up to the cap.
pub fn count_levels(alloc: Global, d: &Description) -> Result<Vec<Vec<u32>>, Memory>
    ensures { IfOk result (λ levels. IsCounted d.now levels.items) }
{
    let mut levels = Vec::new(alloc);
    let mut counts = Vec::new(alloc);
    for _ in 0..DEPTH_LIMIT {
        let deeper = deeper_counts(alloc, d, counts.as_slice())?;
        levels.push(counts)?;
        counts = deeper;
    }
    levels.push(counts)?;
    Ok(levels)
}

/// The count of the instances at most so deep below a composition, up to the cap.
pub fn count_below(levels: &[Vec<u32>], depth: usize, composition: u32) -> u32
    ensures { result ≡ count_in levels.now depth composition }
{
    match levels.get(depth) {
        Some(counts) => count_at(counts.as_slice(), composition),
        None => 0,
    }
}
