//! Groups of elements that joins connect.

ghost use Rattle.std.specs.Prelude.{◌≡◌, ◌+◌, ◌<◌, ◌^◌, [], ◌∷◌, ◌++◌, IfOk, OnOk, length, map, nat_eq, if◌then◌else◌};
ghost use Rattle.plan_definitions.specs.Common.{leaders as all_leaders, group_number, groups as all_groups, heads};
ghost use Rattle.plan_elements.specs.Grouped.{AreGroups};
ghost use Rattle.plan_elements.specs.Lists.{ranks};
ghost use Rattle.plan_elements.specs.Spreads.{number_at};

use crate::ends::{Ends, ends_of};
use crate::leaders::leaders_of;
use crate::members::all_members;
use crate::spread::number_at;
use plan_numbers::Source;
use rte_text::{Memory, Seq};
use std::alloc::Global;

/// The groups that joins make of elements. They are numbered by their least elements.
#[derive(Drop)]
pub struct Groups {
    /// The number of the group of each element.
    pub numbers: Vec<u32>,
    /// How many groups there are.
    pub count: usize,
    /// Whether a join has the element as an end, for each of them.
    pub joined: Vec<bool>,
}

/// At the number of each element that leads a group the number of the group, at others 0; and how many groups there are.
#[derive(Drop)]
struct Ranks {
    numbers: Vec<u32>,
    count: u32,
}

/// Adds the rank of an element, if so many groups are before; and counts its group.
fn push_rank(list: &mut Vec<u32>, number: usize, count: u32, leader: u32) -> Result<u32, Memory>
    requires { count + 1 < 2 ^ 32 }
    ensures rank { OnOk result (list.new.items ≡ list.old.items ++ (if nat_eq leader number then count else 0) ∷ []) }
    ensures count { IfOk result (λ next. next ≡ (if nat_eq leader number then count + 1 else count)) }
{
    if leader as usize == number {
        list.push(count)?;
        Ok(count + 1)
    } else {
        list.push(0)?;
        Ok(count)
    }
}

fn ranks_of(alloc: Global, leaders: &[u32]) -> Result<Ranks, Memory>
    requires { length leaders.now < 2 ^ 32 }
    ensures ranks { IfOk result (λ r. r.numbers.items ≡ ranks 0 0 leaders.now) }
    ensures count { IfOk result (λ r. r.count ≡ length (heads leaders.now)) }
{
    let mut numbers = Vec::with_capacity(alloc, leaders.len())?;
    let mut count = 0;
    for (number, leader) in leaders.iter().enumerate() {
        count = push_rank(&mut numbers, number, count, *leader)?;
    }
    Ok(Ranks { numbers, count })
}

fn numbers_of(alloc: Global, ranks: &[u32], leaders: &[u32]) -> Result<Vec<u32>, Memory>
    ensures { IfOk result (λ list. list.items ≡ map (number_at ranks.now) leaders.now) }
{
    let mut list = Vec::with_capacity(alloc, leaders.len())?;
    for leader in leaders {
        list.push(number_at(ranks, *leader))?;
    }
    Ok(list)
}

/// Groups of some things: for each the number of its group, and how many groups there are.
#[derive(Drop)]
pub struct Grouping {
    pub numbers: Vec<u32>,
    pub count: usize,
}

/// The groups of things of which the least in the group of each is known. They are numbered by their least things.
#[tactic(auto, using(crate::proofs::Ranking::ranks_are))]
pub fn grouping_of(alloc: Global, leaders: &[u32]) -> Result<Grouping, Memory>
    requires { length leaders.now < 2 ^ 32 }
    ensures numbers { IfOk result (λ grouping. grouping.numbers.items ≡ map (group_number leaders.now) leaders.now) }
    ensures count { IfOk result (λ grouping. grouping.count ≡ length (heads leaders.now)) }
{
    let ranks = ranks_of(alloc, leaders)?;
    let numbers = numbers_of(alloc, ranks.numbers.as_slice(), leaders)?;
    Ok(Grouping {
        numbers,
        count: ranks.count as usize,
    })
}

/// The groups of a description.
pub fn groups_over(alloc: Global, source: &Source<'_>) -> Result<Groups, Memory>
    ensures { IfOk result (λ groups. AreGroups source.now.d.now source.now.f.now groups) }
{
    let Ends { pairs, joined } = ends_of(alloc, source)?;
    let leaders = leaders_of(alloc, source, pairs.as_slice())?;
    let Grouping { numbers, count } = grouping_of(alloc, leaders.as_slice())?;
    Ok(Groups {
        numbers,
        count,
        joined,
    })
}

/// The elements of each group, in rising order; groups by their least elements.
pub fn group_lists(
    alloc: Global,
    source: &Source<'_>,
    groups: &Groups,
) -> Result<Seq<Seq<u32>>, Memory>
    requires { AreGroups source.now.d.now source.now.f.now groups.now }
    ensures { IfOk result (λ lists. lists ≡ all_groups (all_leaders source.now.d.now source.now.f.now)) }
{
    all_members(alloc, groups.numbers.as_slice(), groups.count)
}
