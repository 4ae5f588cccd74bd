//! Ends of one interface together.

ghost use Rattle.std.specs.Prelude.{◌≡◌, nat_eq, IfOk};
ghost use Rattle.indexmap.specs.IndexMap.{get};
ghost use Rattle.composition_tables.specs.Multi.{under};
ghost use Rattle.end_search.specs.Tables.{AreGroups};

use composition_tables::multi::add_under;
use composition_tables::tree::PortEnd;
use indexmap::IndexMap;
use rte_text::Memory;
use std::alloc::Global;

/// For each interface the ends that have it.
pub type Groups = IndexMap<u32, Vec<PortEnd>>;

/// The ends by their interfaces.
pub fn groups_of(alloc: Global, ends: &[PortEnd]) -> Result<Groups, Memory>
    ensures { IfOk result (λ groups. AreGroups ends.now groups) }
{
    let mut groups = IndexMap::new(alloc);
    for end in ends {
        add_under(alloc, &mut groups, end.interface, *end)?;
    }
    Ok(groups)
}

/// The ends of an interface.
pub fn group_of<'a>(groups: &'a Groups, interface: u32) -> &'a [PortEnd]
    ensures { result.now ≡ under (get nat_eq groups.now interface) }
{
    match groups.get(&interface) {
        Some(group) => group.as_slice(),
        None => &[],
    }
}
