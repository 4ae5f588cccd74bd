//! The operations that runnables serve.

ghost use Rattle.std.specs.Prelude.{◌≡◌, ◌++◌, IfOk, OnOk};
ghost use Rattle.std.specs.List.{flat_map};
ghost use Rattle.plan_services.specs.Served.{served_entry};

use crate::invoked::{Operation, invoked_by};
use description_types::Event;
use plan_numbers::Table;
use rte_text::Memory;
use std::alloc::Global;

fn push_entry(list: &mut Vec<(u32, Operation)>, event: &Event) -> Result<(), Memory>
    ensures { OnOk result (list.new.items ≡ list.old.items ++ served_entry event.now) }
{
    if let Some(served) = invoked_by(event.kind) {
        list.push((event.runnable, served))?;
    }
    Ok(())
}

fn entries_of(alloc: Global, events: &[Event]) -> Result<Vec<(u32, Operation)>, Memory>
    ensures { IfOk result (λ list. list.items ≡ flat_map served_entry events.now) }
{
    let mut list = Vec::new(alloc);
    for event in events {
        push_entry(&mut list, event)?;
    }
    Ok(list)
}

/// The operations that the runnables of a component serve, by runnable.
pub fn served_of(alloc: Global, events: &[Event]) -> Result<Table<u32, Operation>, Memory>
    ensures { IfOk result (λ table. table.entries.items ≡ flat_map served_entry events.now) }
{
    let entries = entries_of(alloc, events)?;
    Table::new(alloc, entries)
}
