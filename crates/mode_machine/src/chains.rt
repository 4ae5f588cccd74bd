//! Events in chains, each of those that occur at one moment.

ghost use Rattle.std.specs.Prelude.{◌≡◌, ◌<◌, IfOk, List, None, OnOk, Some, length, set, slice_index_or};
ghost use Rattle.indexmap.specs.IndexMap.{Updates, get};
ghost use Rattle.mode_machine.specs.Chains.{AreChains, IsNext, occurs, same_moment};
ghost use Rattle.mode_machine.specs.declared.owed.ModeEvent as declared;

use crate::Memory;
use crate::owed::ModeEvent;
use indexmap::IndexMap;
use std::alloc::Global;

/// Chains of events, so that a phase goes through those that it owes and no others.
#[derive(Drop)]
pub(crate) struct Chains {
    /// The first event of each moment that has one.
    first: IndexMap<ModeEvent, usize>,
    /// For each event the next one of its moment.
    next: Vec<Option<usize>>,
}

/// Puts an event before those of its moment.
fn link(
    first: &mut IndexMap<ModeEvent, usize>,
    next: &mut Vec<Option<usize>>,
    moment: ModeEvent,
    event: usize,
) -> Result<(), Memory>
    requires { event < length next.old.items }
    ensures first { OnOk result (Updates same_moment first.old first.new moment (Some event)) }
    ensures next { OnOk result (next.new.items ≡ set next.old.items event (get same_moment first.old moment)) }
{
    next[event] = first.insert(moment, event)?;
    Ok(())
}

impl Chains {
    /// The chains of events that occur at these moments. The only error is that there is no memory.
    pub fn new(alloc: Global, moments: &[ModeEvent]) -> Result<Chains, Memory>
        ensures { IfOk result (AreChains moments.now) }
    {
        let mut first = IndexMap::new(alloc);
        let mut next = vec![in alloc; None; moments.len()]?;
        let mut event = moments.len();
        while event > 0 {
            event -= 1;
            link(&mut first, &mut next, moments[event], event)?;
        }
        Ok(Chains { first, next })
    }

    /// The first event of a moment.
    pub fn first(&self, at: Option<ModeEvent>) -> Option<usize>
        ensures { (moments : List declared.ModeEvent) → AreChains moments self.now → IsNext (occurs moments at) 0 result }
    {
        match at {
            Some(moment) => self.first.get(&moment).copied(),
            None => None,
        }
    }

    /// The next event of an event's moment.
    pub fn next(&self, event: usize) -> Option<usize>
        requires { event < length self.now.next.items }
        ensures { result ≡ slice_index_or self.now.next.items event None }
    {
        self.next[event]
    }
}
