//! The whole plan.

ghost use Rattle.std.specs.Prelude.{◌≡◌, ◌≤◌, IfOk, false, length, map, true};
ghost use Rattle.bus_semantics.specs.Common.{HaveOneCode, runnable_of};
ghost use Rattle.plan_definitions.specs.Common.{callings as all_callings, list_numbers, object_count, plan_of, seen, runnables, types_fit};
ghost use Rattle.event_mapping.specs.Pieces.{ArePieces};
ghost use Rattle.event_mapping.specs.Sized.{are_too_large};

use crate::pieces::Pieces;
use bus_semantics::{BusPlan, RunnablePlan};
use plan_elements::{bundle_lists, lists_over};
use plan_numbers::{Source, position};
use plan_services::{Callings, runnable_plans};
use rte_text::{Memory, Seq};
use std::alloc::Global;

/// How many objects a plan has: its bundles, servers, areas and machines, and the clock.
fn object_count(bundles: usize, servers: usize, areas: usize, machines: usize) -> u32
    requires { object_count bundles servers areas machines ≤ 16384 }
    ensures { result ≡ object_count bundles servers areas machines }
{
    (bundles + (servers + (areas + (machines + 1)))) as u32
}

fn runnables_of(
    alloc: Global,
    source: &Source<'_>,
    callings: &Callings,
    numbers: &[Seq<u32>],
) -> Result<Seq<RunnablePlan>, Memory>
    requires calls { callings.now ≡ all_callings source.now.d.now source.now.f.now }
    requires lists { numbers.now ≡ list_numbers source.now.d.now source.now.f.now }
    requires types { types_fit source.now.d.now.types ≡ true }
    ensures listed { IfOk result (λ list. map runnable_of list ≡ runnables source.now.d.now source.now.f.now) }
    ensures coded { IfOk result (λ list. HaveOneCode list) }
{
    let list = runnable_plans(alloc, source, callings, numbers)?;
    Ok(Seq::of(list))
}

/// The plan of these pieces, which may be so large, with its runnables, coherent lists and bundles. The only error is want of
/// memory.
pub fn whole_plan(
    alloc: Global,
    source: &Source<'_>,
    callings: &Callings,
    pieces: Pieces,
) -> Result<BusPlan, Memory>
    requires calls { callings.now ≡ all_callings source.now.d.now source.now.f.now }
    requires types { types_fit source.now.d.now.types ≡ true }
    requires pieces { ArePieces source.now.d.now source.now.f.now pieces }
    requires size { are_too_large pieces ≡ false }
    ensures { IfOk result (λ plan. seen plan ≡ plan_of source.now.d.now source.now.f.now) }
{
    let listed = lists_over(alloc, source)?;
    let runnables = runnables_of(alloc, source, callings, listed.numbers.items())?;
    let groups = position(pieces.items.groups.len());
    let elements = pieces.items.elements.items();
    let bundling = bundle_lists(alloc, elements, listed.lists.items(), groups)?;
    let objects = object_count(
        bundling.bundles.len(),
        pieces.services.servers.len(),
        pieces.services.areas.len(),
        pieces.modes.machines.len(),
    );
    Ok(BusPlan {
        names: pieces.items.names,
        elements: pieces.items.elements,
        groups: pieces.items.groups,
        points: pieces.services.points,
        servers: pieces.services.servers,
        areas: pieces.services.areas,
        machines: pieces.modes.machines,
        mode_ports: pieces.modes.mode_ports,
        events: pieces.events,
        runnables,
        lists: listed.lists,
        homes: bundling.homes,
        bundles: bundling.bundles,
        objects,
    })
}
