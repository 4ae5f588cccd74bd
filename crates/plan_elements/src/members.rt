//! The elements of each group.

ghost use Rattle.std.specs.Prelude.{◌≡◌, ◌<◌, ◌^◌, [], IfOk, OnOk, length, map, replicate};
ghost use Rattle.plan_definitions.specs.ElementGroups.{all_members};
ghost use Rattle.plan_elements.specs.Lists.{put_in};

use plan_numbers::position;
use rte_text::{Memory, Seq};
use std::alloc::Global;

/// Counts an element of a group.
fn count_in(sizes: &mut Vec<u32>, group: u32)
    ensures { length sizes.new.items ≡ length sizes.old.items }
{
    if let Some(size) = sizes.get_mut(group as usize) {
        *size = size.saturating_add(1);
    }
}

/// How many elements each of so many groups has: how much room its list takes, and no more is said of it.
fn sizes_of(alloc: Global, numbers: &[u32], count: usize) -> Result<Vec<u32>, Memory>
    ensures { IfOk result (λ sizes. length sizes.items ≡ count) }
{
    let mut sizes = Vec::new(alloc);
    sizes.resize(count, 0)?;
    for group in numbers {
        count_in(&mut sizes, *group);
    }
    Ok(sizes)
}

/// Empty lists with room of these sizes.
fn empties(alloc: Global, sizes: &[u32]) -> Result<Vec<Vec<u32>>, Memory>
    ensures { IfOk result (λ lists. map (λ v. v.items) lists.items ≡ replicate (length sizes.now) []) }
{
    let mut lists = Vec::with_capacity(alloc, sizes.len())?;
    for size in sizes {
        lists.push(Vec::with_capacity(alloc, *size as usize)?)?;
    }
    Ok(lists)
}

fn put(lists: &mut Vec<Vec<u32>>, group: u32, element: u32) -> Result<(), Memory>
    ensures { OnOk result (map (λ v. v.items) lists.new.items ≡ put_in group element (map (λ v. v.items) lists.old.items)) }
{
    if let Some(list) = lists.get_mut(group as usize) {
        list.push(element)?;
    }
    Ok(())
}

fn filled(alloc: Global, numbers: &[u32], count: usize) -> Result<Vec<Vec<u32>>, Memory>
    requires { length numbers.now < 2 ^ 32 }
    ensures { IfOk result (λ lists. map (λ v. v.items) lists.items ≡ all_members count numbers.now) }
{
    let sizes = sizes_of(alloc, numbers, count)?;
    let mut lists = empties(alloc, sizes.as_slice())?;
    for (element, group) in numbers.iter().enumerate() {
        put(&mut lists, *group, position(element))?;
    }
    Ok(lists)
}

fn sealed(alloc: Global, lists: Vec<Vec<u32>>) -> Result<Seq<Seq<u32>>, Memory>
    ensures { IfOk result (λ sealed. sealed ≡ map (λ v. v.items) lists.items) }
{
    let all: Vec<Seq<u32>> = lists.into_iter().map(|list| Seq::of(list)).collect(alloc)?;
    Ok(Seq::of(all))
}

/// The elements of each of so many groups, in rising order, from the number of the group of each element.
pub fn all_members(alloc: Global, numbers: &[u32], count: usize) -> Result<Seq<Seq<u32>>, Memory>
    requires { length numbers.now < 2 ^ 32 }
    ensures { IfOk result (λ lists. lists ≡ all_members count numbers.now) }
{
    let lists = filled(alloc, numbers, count)?;
    sealed(alloc, lists)
}
