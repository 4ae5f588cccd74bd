//! Servers.

ghost use Rattle.std.specs.Prelude.{◌≡◌, IfOk, false, map, slice_get};
ghost use Rattle.std.specs.Option.{unwrap_or};
ghost use Rattle.plan_definitions.specs.Common.{events_of, is_mapped, all_invoked, server_at, server_of, servers, started_by};
ghost use Rattle.plan_definitions.specs.Services.{queue_of};

use crate::arguments::{arguments_at, errors_at};
use crate::invoked::{Invocations, all_invoked, invocation_of};
use bus_semantics::ServerPlan;
use description_types::{Description, Flat};
use plan_definitions::Site;
use plan_numbers::{Source, component_of, item_text};
use rte_text::Memory;
use std::alloc::Global;

fn started_by(d: &Description, f: &Flat, instance: u32, event: usize) -> u32
    ensures { result ≡ started_by d.now f.now instance event }
{
    let Some(component) = component_of(d, f, instance) else {
        return 0;
    };
    match component.behavior.events.items().get(event) {
        Some(found) => found.runnable,
        None => 0,
    }
}

fn flag_of(flags: &[bool], number: u32) -> bool
    ensures { result ≡ unwrap_or (slice_get flags.now number) false }
{
    flags.get(number as usize).copied().unwrap_or(false)
}

#[tactic(auto, using(crate::proofs::Invoking::flag_at))]
fn queue_of(
    source: &Source<'_>,
    mapped: &[bool],
    instance: u32,
    port: u32,
    item: u32,
    event: u32,
) -> Option<u32>
    requires { mapped.now ≡ map (is_mapped source.now.d.now source.now.f.now) (events_of source.now.d.now source.now.f.now) }
    ensures { result ≡ queue_of source.now.d.now source.now.f.now instance port item event }
{
    if flag_of(mapped, event) {
        Some(source.queue_length_of(Some(instance), port, item))
    } else {
        None
    }
}

fn server_at(
    alloc: Global,
    source: &Source<'_>,
    mapped: &[bool],
    instance: u32,
    port: u32,
    item: u32,
    position: usize,
) -> Result<ServerPlan, Memory>
    requires { mapped.now ≡ map (is_mapped source.now.d.now source.now.f.now) (events_of source.now.d.now source.now.f.now) }
    ensures { IfOk result (λ server. server ≡ server_at source.now.d.now source.now.f.now instance port item position) }
{
    let name = item_text(alloc, source.d, source.f, Some(instance), port, item)?;
    let arguments = arguments_at(alloc, source, Some(instance), port, item)?;
    let errors = errors_at(alloc, source, Some(instance), port, item)?;
    let started = started_by(source.d, source.f, instance, position);
    let event = source.event_number(instance, position);
    Ok(ServerPlan {
        instance,
        name,
        runnable: source.runnable_number(instance, started),
        event,
        queue: queue_of(source, mapped, instance, port, item, event),
        arguments,
        errors,
    })
}

fn server_of(
    alloc: Global,
    source: &Source<'_>,
    mapped: &[bool],
    tables: &[Invocations],
    site: Site,
) -> Result<ServerPlan, Memory>
    requires mapping { mapped.now ≡ map (is_mapped source.now.d.now source.now.f.now) (events_of source.now.d.now source.now.f.now) }
    requires tables { tables.now ≡ all_invoked source.now.d.now }
    ensures { IfOk result (λ server. server ≡ server_of source.now.d.now source.now.f.now site) }
{
    let instance = site.owner.unwrap_or(0);
    let port = site.port.unwrap_or(0);
    let found = invocation_of(source, tables, instance, port, site.item);
    server_at(
        alloc,
        source,
        mapped,
        instance,
        port,
        site.item,
        found.unwrap_or(0),
    )
}

fn servers_at(
    alloc: Global,
    source: &Source<'_>,
    mapped: &[bool],
    tables: &[Invocations],
    sites: &[Site],
) -> Result<Vec<ServerPlan>, Memory>
    requires mapping { mapped.now ≡ map (is_mapped source.now.d.now source.now.f.now) (events_of source.now.d.now source.now.f.now) }
    requires tables { tables.now ≡ all_invoked source.now.d.now }
    ensures { IfOk result (λ list. list.items ≡ map (server_of source.now.d.now source.now.f.now) sites.now) }
{
    let mut list = Vec::new(alloc);
    for site in sites {
        list.push(server_of(alloc, source, mapped, tables, *site)?)?;
    }
    Ok(list)
}

/// The servers of a plan: the operations that instances provide. `mapped` tells of each numbered event whether it is mapped. A
/// server is direct exactly if its event is not mapped.
pub fn server_plans(
    alloc: Global,
    source: &Source<'_>,
    mapped: &[bool],
) -> Result<Vec<ServerPlan>, Memory>
    requires { mapped.now ≡ map (is_mapped source.now.d.now source.now.f.now) (events_of source.now.d.now source.now.f.now) }
    ensures { IfOk result (λ list. list.items ≡ servers source.now.d.now source.now.f.now) }
{
    let tables = all_invoked(alloc, source.d)?;
    servers_at(
        alloc,
        source,
        mapped,
        tables.items(),
        source.lists.servers.as_slice(),
    )
}
