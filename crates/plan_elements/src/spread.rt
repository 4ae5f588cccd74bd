//! Numbers that spread over pairs of elements.

ghost use Rattle.std.specs.Prelude.{◌≡◌, ℕ, IfOk, length, map};
ghost use Rattle.plan_elements.specs.Spreads.{across_pair, lowered_at, number_at, spread_numbers};
ghost use Rattle.plan_definitions.specs.ElementGroups.{least};

use rte_text::Memory;
use std::alloc::Global;

/// The number at a position, and 0 past the last.
pub fn number_at(list: &[u32], position: u32) -> u32
    ensures { result ≡ number_at list.now position }
{
    match list.get(position as usize) {
        Some(number) => *number,
        None => 0,
    }
}

/// Lowers the number at a position to this one, if it is greater.
fn lower_at(list: &mut Vec<u32>, position: u32, number: u32)
    ensures length { length list.new.items ≡ length list.old.items }
    ensures numbers { (n : ℕ) → number_at list.new.items n ≡ lowered_at position number n (number_at list.old.items n) }
{
    if let Some(kept) = list.get_mut(position as usize) {
        *kept = number.min(*kept);
    }
}

/// Lowers the numbers at both positions of a pair to what stands at the other.
fn lower_pair(list: &mut Vec<u32>, numbers: &[u32], pair: (u32, u32))
    ensures length { length list.new.items ≡ length list.old.items }
    ensures numbers { (n : ℕ) → number_at list.new.items n ≡ least (number_at list.old.items n) (map (number_at numbers.now) (across_pair n pair)) }
{
    lower_at(list, pair.1, number_at(numbers, pair.0));
    lower_at(list, pair.0, number_at(numbers, pair.1));
}

/// At each position the least of the number there and of those at the positions that it is paired with.
pub fn spread(alloc: Global, pairs: &[(u32, u32)], numbers: &[u32]) -> Result<Vec<u32>, Memory>
    ensures length { IfOk result (λ list. length list.items ≡ length numbers.now) }
    ensures numbers { IfOk result (λ list. (n : ℕ) → number_at list.items n ≡ spread_numbers pairs.now (number_at numbers.now) n) }
{
    let mut list = Vec::from_slice(alloc, numbers)?;
    for pair in pairs {
        lower_pair(&mut list, numbers, *pair);
    }
    Ok(list)
}
