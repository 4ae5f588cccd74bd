//! The lists of each runnable.

ghost use Rattle.std.specs.Prelude.{◌≡◌, ◌<◌, ◌^◌, IfOk, length, map};
ghost use Rattle.plan_definitions.specs.Common.{all_members, list_numbers, lists as all_lists};

use crate::lists::list_plans;
use crate::members::all_members;
use bus_semantics::CoherentList;
use plan_numbers::{Source, numbered_runnables};
use rte_text::{Memory, Seq};
use std::alloc::Global;

/// The coherent access lists of a plan, and for each runnable the numbers of its own.
#[derive(Drop)]
pub struct Listed {
    pub lists: Seq<CoherentList>,
    pub numbers: Seq<Seq<u32>>,
}

fn runnables_in(alloc: Global, lists: &[CoherentList]) -> Result<Vec<u32>, Memory>
    ensures { IfOk result (λ numbers. numbers.items ≡ map (λ c. c.runnable) lists.now) }
{
    let mut numbers = Vec::with_capacity(alloc, lists.len())?;
    for list in lists {
        numbers.push(list.runnable)?;
    }
    Ok(numbers)
}

fn numbers_of(alloc: Global, lists: &[CoherentList], count: usize) -> Result<Seq<Seq<u32>>, Memory>
    requires { length lists.now < 2 ^ 32 }
    ensures { IfOk result (λ numbers. numbers ≡ all_members count (map (λ c. c.runnable) lists.now)) }
{
    let runnables = runnables_in(alloc, lists)?;
    all_members(alloc, runnables.as_slice(), count)
}

/// The coherent access lists of all instances, by instance, by runnable and in declared order, and for each runnable the numbers of
/// its own.
pub fn lists_over(alloc: Global, source: &Source<'_>) -> Result<Listed, Memory>
    ensures lists { IfOk result (λ found. found.lists ≡ all_lists source.now.d.now source.now.f.now) }
    ensures numbers { IfOk result (λ found. found.numbers ≡ list_numbers source.now.d.now source.now.f.now) }
{
    let runnables = numbered_runnables(alloc, source.d, source.f)?;
    let plans = list_plans(alloc, source, runnables.as_slice())?;
    let numbers = numbers_of(alloc, plans.as_slice(), runnables.len())?;
    let lists = Seq::of(plans);
    Ok(Listed { lists, numbers })
}
