//! The points and return events of each server.

ghost use Rattle.std.specs.Prelude.{◌≡◌, ℕ, ◌<◌, ◌^◌, ◌++◌, ◌==◌, [], ◌∷◌, length, Some, IfOk, IfSome, OnOk, if◌then◌else◌};
ghost use Rattle.bus_semantics.specs.Common.{same_number, plan_of, kind_of};
ghost use Rattle.object_kinds.specs.Common.{listed_at, events_of};
ghost use Rattle.server_objects.specs.Plans.{AreJoined};
ghost use Rattle.server_objects.specs.Layout.{points_of, returns_for};

use crate::Memory;
use bus_semantics::{BusPlan, EventKind};
use std::alloc::Global;

/// An empty list for each of so many.
pub(crate) fn empty_lists(alloc: Global, count: usize) -> Result<Vec<Vec<u32>>, Memory>
    ensures long { IfOk result (λ lists. length lists.items ≡ count) }
    ensures empty { IfOk result (λ lists. (i : ℕ) → listed_at lists.items i ≡ []) }
{
    let mut lists = Vec::new(alloc);
    for _ in 0..count {
        lists.push(Vec::new(alloc))?;
    }
    Ok(lists)
}

/// Appends a number to one of the lists.
pub(crate) fn append_to(lists: &mut Vec<Vec<u32>>, place: u32, number: u32) -> Result<(), Memory>
    requires { place < length lists.old.items }
    ensures long { length lists.new.items ≡ length lists.old.items }
    ensures appended { OnOk result ((i : ℕ) → listed_at lists.new.items i ≡ (if place == i then listed_at lists.old.items i ++ number ∷ [] else listed_at lists.old.items i)) }
{
    lists[place as usize].push(number)?;
    Ok(())
}

/// Appends a number to the list of a server, if there is a server.
fn append_where(lists: &mut Vec<Vec<u32>>, server: Option<u32>, number: u32) -> Result<(), Memory>
    requires { IfSome server (λ s. s < length lists.old.items) }
    ensures long { length lists.new.items ≡ length lists.old.items }
    ensures appended { OnOk result ((s : ℕ) → listed_at lists.new.items s ≡ (if same_number server (Some s) then listed_at lists.old.items s ++ number ∷ [] else listed_at lists.old.items s)) }
{
    match server {
        Some(server) => append_to(lists, server, number),
        None => Ok(()),
    }
}

/// The server whose point an event waits for.
fn awaited_server(p: &BusPlan, event: u32) -> Option<u32>
    ensures { (s : ℕ) → returns_for (plan_of p.now) s (kind_of (plan_of p.now) event) ≡ same_number result (Some s) }
{
    match p.kind_of(event) {
        EventKind::Returns(point) => p.server_of(point),
        _ => None,
    }
}

/// Appends an event to the list of the server whose point it waits for.
fn add_return(p: &BusPlan, lists: &mut Vec<Vec<u32>>, event: u32) -> Result<(), Memory>
    requires joined { AreJoined (plan_of p.now) }
    requires lists { length lists.old.items ≡ length p.now.servers }
    ensures long { length lists.new.items ≡ length lists.old.items }
    ensures added { OnOk result ((s : ℕ) → listed_at lists.new.items s ≡ (if returns_for (plan_of p.now) s (kind_of (plan_of p.now) event) then listed_at lists.old.items s ++ event ∷ [] else listed_at lists.old.items s)) }
{
    match awaited_server(p, event) {
        Some(server) => append_to(lists, server, event),
        None => Ok(()),
    }
}

/// For each server the points that call it, in rising order.
pub fn joined_points(alloc: Global, p: &BusPlan) -> Result<Vec<Vec<u32>>, Memory>
    requires joined { AreJoined (plan_of p.now) }
    ensures long { IfOk result (λ lists. length lists.items ≡ length p.now.servers) }
    ensures joined { IfOk result (λ lists. (s : ℕ) → listed_at lists.items s ≡ points_of (plan_of p.now) s) }
{
    let mut lists = empty_lists(alloc, p.servers.len())?;
    for point in 0..p.points.len() as u32 {
        append_where(&mut lists, p.server_of(point), point)?;
    }
    Ok(lists)
}

/// For each server the return events of its points, in rising order.
pub fn return_events(alloc: Global, p: &BusPlan) -> Result<Vec<Vec<u32>>, Memory>
    requires joined { AreJoined (plan_of p.now) }
    requires events { length p.now.events < 2 ^ 32 }
    ensures long { IfOk result (λ lists. length lists.items ≡ length p.now.servers) }
    ensures returns { IfOk result (λ lists. (s : ℕ) → listed_at lists.items s ≡ events_of (plan_of p.now) (returns_for (plan_of p.now) s)) }
{
    let mut lists = empty_lists(alloc, p.servers.len())?;
    for event in 0..p.events.len() as u32 {
        add_return(p, &mut lists, event)?;
    }
    Ok(lists)
}
