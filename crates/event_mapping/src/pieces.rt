//! The lists of a plan, piece by piece.

ghost use Rattle.std.specs.Prelude.{◌≡◌, IfOk, map};
ghost use Rattle.plan_definitions.specs.Common.{is_mapped, events_of, callings as all_callings, points, servers, areas, events};
ghost use Rattle.event_mapping.specs.Pieces.{AreItems, AreModes, ArePieces, AreServices};

use crate::areas::areas_of_plan;
use bus_semantics::{
    AreaPlan, ElemPlan, EventPlan, MachinePlan, ModePortPlan, PointPlan, ServerPlan,
};
use description_types::Instance;
use plan_elements::{element_plans, group_lists, groups_over};
use plan_numbers::Source;
use plan_services::{
    Callings, event_plans, machine_plans, mode_port_plans, point_plans, server_plans,
};
use rte_text::{Memory, Seq, Text};
use std::alloc::Global;

/// The names of the instances, and the elements with their groups.
#[derive(Drop)]
pub struct Items {
    pub names: Seq<Text>,
    pub elements: Seq<ElemPlan>,
    pub groups: Seq<Seq<u32>>,
}

/// Calls, what serves them, and the exclusive areas.
#[derive(Drop)]
pub struct Services {
    pub points: Seq<PointPlan>,
    pub servers: Seq<ServerPlan>,
    pub areas: Seq<AreaPlan>,
}

/// Mode machines, and the ports that require them.
#[derive(Drop)]
pub struct Modes {
    pub machines: Seq<MachinePlan>,
    pub mode_ports: Seq<ModePortPlan>,
}

/// All of a plan but its runnables and their lists.
#[derive(Drop)]
pub struct Pieces {
    pub items: Items,
    pub services: Services,
    pub modes: Modes,
    pub events: Seq<EventPlan>,
}

fn names_of(alloc: Global, instances: &[Instance]) -> Result<Seq<Text>, Memory>
    ensures { IfOk result (λ names. names ≡ map (λ i. i.path) instances.now) }
{
    let mut names = Vec::new(alloc);
    for instance in instances {
        names.push(Text::new(alloc, instance.path.bytes())?)?;
    }
    Ok(Seq::of(names))
}

/// The names, elements and groups of a plan.
pub fn items_of(alloc: Global, source: &Source<'_>) -> Result<Items, Memory>
    ensures { IfOk result (λ items. AreItems source.now.d.now source.now.f.now items) }
{
    let groups = groups_over(alloc, source)?;
    let plans = element_plans(alloc, source, &groups)?;
    let lists = group_lists(alloc, source, &groups)?;
    let names = names_of(alloc, source.f.instances.items())?;
    let elements = Seq::of(plans);
    Ok(Items {
        names,
        elements,
        groups: lists,
    })
}

fn points_of(
    alloc: Global,
    source: &Source<'_>,
    callings: &Callings,
) -> Result<Seq<PointPlan>, Memory>
    requires { callings.now ≡ all_callings source.now.d.now source.now.f.now }
    ensures { IfOk result (λ list. list ≡ points source.now.d.now source.now.f.now) }
{
    let list = point_plans(alloc, source, callings.items())?;
    Ok(Seq::of(list))
}

fn servers_of(
    alloc: Global,
    source: &Source<'_>,
    mapped: &[bool],
) -> Result<Seq<ServerPlan>, Memory>
    requires { mapped.now ≡ map (is_mapped source.now.d.now source.now.f.now) (events_of source.now.d.now source.now.f.now) }
    ensures { IfOk result (λ list. list ≡ servers source.now.d.now source.now.f.now) }
{
    let list = server_plans(alloc, source, mapped)?;
    Ok(Seq::of(list))
}

fn areas_of(alloc: Global, source: &Source<'_>) -> Result<Seq<AreaPlan>, Memory>
    ensures { IfOk result (λ list. list ≡ areas source.now.d.now source.now.f.now) }
{
    let list = areas_of_plan(alloc, source.d, source.f)?;
    Ok(Seq::of(list))
}

/// The points, servers and areas of a plan. `mapped` tells of each numbered event whether it is mapped.
pub fn services_of(
    alloc: Global,
    source: &Source<'_>,
    callings: &Callings,
    mapped: &[bool],
) -> Result<Services, Memory>
    requires calls { callings.now ≡ all_callings source.now.d.now source.now.f.now }
    requires mapping { mapped.now ≡ map (is_mapped source.now.d.now source.now.f.now) (events_of source.now.d.now source.now.f.now) }
    ensures { IfOk result (λ services. AreServices source.now.d.now source.now.f.now services) }
{
    let points = points_of(alloc, source, callings)?;
    let servers = servers_of(alloc, source, mapped)?;
    let areas = areas_of(alloc, source)?;
    Ok(Services {
        points,
        servers,
        areas,
    })
}

/// The mode machines and mode ports of a plan.
pub fn modes_of(alloc: Global, source: &Source<'_>) -> Result<Modes, Memory>
    ensures { IfOk result (λ modes. AreModes source.now.d.now source.now.f.now modes) }
{
    let machine_list = machine_plans(alloc, source)?;
    let port_list = mode_port_plans(alloc, source)?;
    let machines = Seq::of(machine_list);
    let mode_ports = Seq::of(port_list);
    Ok(Modes {
        machines,
        mode_ports,
    })
}

fn events_of(
    alloc: Global,
    source: &Source<'_>,
    callings: &Callings,
) -> Result<Seq<EventPlan>, Memory>
    requires { callings.now ≡ all_callings source.now.d.now source.now.f.now }
    ensures { IfOk result (λ list. list ≡ events source.now.d.now source.now.f.now) }
{
    let list = event_plans(alloc, source, callings)?;
    Ok(Seq::of(list))
}

/// All of a plan but its runnables and their lists. `mapped` tells of each numbered event whether it is mapped.
pub fn pieces_of(
    alloc: Global,
    source: &Source<'_>,
    callings: &Callings,
    mapped: &[bool],
) -> Result<Pieces, Memory>
    requires calls { callings.now ≡ all_callings source.now.d.now source.now.f.now }
    requires mapping { mapped.now ≡ map (is_mapped source.now.d.now source.now.f.now) (events_of source.now.d.now source.now.f.now) }
    ensures { IfOk result (λ pieces. ArePieces source.now.d.now source.now.f.now pieces) }
{
    let items = items_of(alloc, source)?;
    let services = services_of(alloc, source, callings, mapped)?;
    let modes = modes_of(alloc, source)?;
    let events = events_of(alloc, source, callings)?;
    Ok(Pieces {
        items,
        services,
        modes,
        events,
    })
}
