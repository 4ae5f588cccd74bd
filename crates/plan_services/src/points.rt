//! Points at which operations are called.

ghost use Rattle.std.specs.Prelude.{◌≡◌, IfOk, map, option_map};
ghost use Rattle.plan_definitions.specs.Common.{end_at, provider_of, end_key, pair_number, runnables_of, server_number, owner_of, point_of, point_words};

use crate::arguments::words_at;
use bus_semantics::PointPlan;
use description_types::Direction;
use plan_definitions::Calling;
use plan_numbers::{Source, item_text};
use rte_text::{Memory, Seq};
use rte_value::Limits;
use std::alloc::Global;

fn owner_of(calling: Calling) -> Option<u32>
    ensures { result ≡ owner_of calling }
{
    let caller = calling.caller?;
    Some(caller.0)
}

fn runnable_of(source: &Source<'_>, calling: Calling) -> Option<u32>
    ensures { result ≡ option_map (pair_number (runnables_of source.now.d.now source.now.f.now)) calling.caller }
{
    let caller = calling.caller?;
    Some(source.runnable_number(caller.0, caller.1))
}

fn server_of(source: &Source<'_>, calling: Calling) -> Option<u32>
    ensures { result ≡ option_map (λ e. server_number source.now.d.now source.now.f.now (end_key e)) (provider_of source.now.f.now.joins (end_at (owner_of calling) calling.port calling.item)) }
{
    let end = source.provider_of(owner_of(calling), calling.port, calling.item)?;
    Some(source.server_number(end.instance, end.port, end.element))
}

fn words_of(
    alloc: Global,
    source: &Source<'_>,
    way: Direction,
    calling: Calling,
) -> Result<Seq<Limits>, Memory>
    ensures { IfOk result (λ list. list ≡ point_words source.now.d.now source.now.f.now way calling) }
{
    words_at(
        alloc,
        source,
        way,
        owner_of(calling),
        calling.port,
        calling.item,
    )
}

fn point_of(alloc: Global, source: &Source<'_>, calling: Calling) -> Result<PointPlan, Memory>
    ensures { IfOk result (λ point. point ≡ point_of source.now.d.now source.now.f.now calling) }
{
    let owner = owner_of(calling);
    let name = item_text(alloc, source.d, source.f, owner, calling.port, calling.item)?;
    let ins = words_of(alloc, source, Direction::In, calling)?;
    let outs = words_of(alloc, source, Direction::Out, calling)?;
    Ok(PointPlan {
        runnable: runnable_of(source, calling),
        name,
        server: server_of(source, calling),
        asynchronous: calling.asynchronous,
        ins,
        outs,
    })
}

/// The points of these calls.
pub fn point_plans(
    alloc: Global,
    source: &Source<'_>,
    callings: &[Calling],
) -> Result<Vec<PointPlan>, Memory>
    ensures { IfOk result (λ list. list.items ≡ map (point_of source.now.d.now source.now.f.now) callings.now) }
{
    let mut list = Vec::new(alloc);
    for calling in callings {
        list.push(point_of(alloc, source, *calling)?)?;
    }
    Ok(list)
}
