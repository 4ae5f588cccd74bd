//! Flags that are all set, and the lists beside them.

ghost use Rattle.std.specs.Prelude.{◌≡◌, ◌<◌, ◌≤◌, ◌==◌, ℕ, [], All, IfOk, Some, count_by, length, map, slice_get, slice_index};
ghost use Rattle.latches.specs.Latches.{set_in};
ghost use Rattle.latches.specs.Noted.{AreReserved};

use crate::Memory;
use crate::flag::Flag;
use std::alloc::Global;

/// A flag of each group, which is set.
pub(crate) fn all_set(alloc: Global, groups: &[usize]) -> Result<Vec<Flag>, Memory>
    ensures { IfOk result (λ l. l.items ≡ map set_in groups.now) }
{
    let mut flags = Vec::new(alloc);
    for group in groups {
        flags.push(Flag::set_in(*group))?;
    }
    Ok(flags)
}

/// How many flags each group has.
fn sizes_of(alloc: Global, groups: &[usize], count: usize) -> Result<Vec<usize>, Memory>
    requires { All (λ g. g < count) groups.now }
    ensures count { IfOk result (λ sizes. length sizes.items ≡ count) }
    ensures sizes { IfOk result (λ sizes. (group : ℕ) → group < count → slice_index sizes.items group ≡ count_by (λ g. g == group) groups.now) }
{
    let mut sizes = vec![in alloc; 0; count]?;
    for group in groups {
        sizes[*group] += 1;
    }
    Ok(sizes)
}

/// For each group an empty list with room for its flags.
pub(crate) fn empty_lists(
    alloc: Global,
    groups: &[usize],
    count: usize,
) -> Result<Vec<Vec<usize>>, Memory>
    requires { All (λ g. g < count) groups.now }
    ensures count { IfOk result (λ lists. length lists.items ≡ count) }
    ensures reserved { IfOk result (λ lists. AreReserved groups.now lists.items) }
{
    let sizes = sizes_of(alloc, groups, count)?;
    let mut lists = Vec::new(alloc);
    for size in &sizes {
        lists.push(Vec::with_capacity(alloc, *size)?)?;
    }
    Ok(lists)
}
