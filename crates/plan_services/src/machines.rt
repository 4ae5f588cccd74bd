//! Mode machines, and the ports that require them.

ghost use Rattle.std.specs.Prelude.{◌≡◌, [], IfOk, Some, map, option_copied};
ghost use Rattle.std.specs.Option.{option_map_or, unwrap_or};
ghost use Rattle.plan_definitions.specs.Modes.{group_at, group_in, machine_at, machines, mode_port_at, mode_ports};
ghost use Rattle.plan_services.specs.Users.{AreUsers};

use crate::users::Users;
use bus_semantics::{MachinePlan, ModePortPlan};
use description_types::{Description, InterfaceKind, ModeGroup};
use plan_definitions::Site;
use plan_numbers::{Source, interface_of, item_text};
use rte_text::{Memory, Seq, Text};
use std::alloc::Global;

fn copy_texts(alloc: Global, texts: &[Text]) -> Result<Seq<Text>, Memory>
    ensures { IfOk result (λ copies. copies ≡ texts.now) }
{
    let mut copies = Vec::new(alloc);
    for text in texts {
        copies.push(Text::new(alloc, text.bytes())?)?;
    }
    Ok(Seq::of(copies))
}

fn group_in<'a>(d: &'a Description, kind: &InterfaceKind) -> Option<&'a ModeGroup>
    ensures { option_copied result ≡ group_in d.now kind.now }
{
    match kind {
        InterfaceKind::ModeSwitch(element) => {
            d.types.mode_groups.items().get(element.of_type as usize)
        }
        _ => None,
    }
}

fn group_at<'a>(source: &Source<'a>, owner: Option<u32>, port: u32) -> Option<&'a ModeGroup>
    ensures { option_copied result ≡ group_at source.now.d.now source.now.f.now owner port }
{
    let kind = interface_of(source.d, source.f, owner, port)?;
    group_in(source.d, kind)
}

fn modes_at(
    alloc: Global,
    source: &Source<'_>,
    owner: Option<u32>,
    port: u32,
) -> Result<Seq<Text>, Memory>
    ensures { IfOk result (λ modes. modes ≡ option_map_or (λ g. g.modes) (group_at source.now.d.now source.now.f.now owner port) []) }
{
    match group_at(source, owner, port) {
        Some(group) => copy_texts(alloc, group.modes.items()),
        None => Ok(Seq::of(Vec::new(alloc))),
    }
}

fn initial_at(source: &Source<'_>, owner: Option<u32>, port: u32) -> u32
    ensures { result ≡ option_map_or (λ g. g.initial_mode) (group_at source.now.d.now source.now.f.now owner port) 0 }
{
    match group_at(source, owner, port) {
        Some(group) => group.initial_mode,
        None => 0,
    }
}

fn machine_at(
    alloc: Global,
    source: &Source<'_>,
    users: &Users,
    owner: Option<u32>,
    port: u32,
) -> Result<MachinePlan, Memory>
    requires { AreUsers source.now.d.now source.now.f.now users.now }
    ensures { IfOk result (λ machine. machine ≡ machine_at source.now.d.now source.now.f.now owner port) }
{
    let name = item_text(alloc, source.d, source.f, owner, port, 0)?;
    let modes = modes_at(alloc, source, owner, port)?;
    Ok(MachinePlan {
        instance: owner,
        name,
        modes,
        initial: initial_at(source, owner, port),
        queue: source.queue_length_of(owner, port, 0),
        waits: users.wait(source, source.machine_number(owner, port, 0)),
    })
}

fn machines_at(
    alloc: Global,
    source: &Source<'_>,
    users: &Users,
    sites: &[Site],
) -> Result<Vec<MachinePlan>, Memory>
    requires { AreUsers source.now.d.now source.now.f.now users.now }
    ensures { IfOk result (λ list. list.items ≡ map (λ s. machine_at source.now.d.now source.now.f.now s.owner (unwrap_or s.port 0)) sites.now) }
{
    let mut list = Vec::new(alloc);
    for site in sites {
        list.push(machine_at(alloc, source, users, site.owner, site.port.unwrap_or(0))?)?;
    }
    Ok(list)
}

/// The mode machines of a plan: the mode elements that instances and the environment provide. A machine makes asynchronous mode
/// switches exactly if instances require it and all their mode elements say that they support these.
pub fn machine_plans(alloc: Global, source: &Source<'_>) -> Result<Vec<MachinePlan>, Memory>
    ensures { IfOk result (λ list. list.items ≡ machines source.now.d.now source.now.f.now) }
{
    let users = Users::new(alloc, source)?;
    let plans = machines_at(alloc, source, &users, source.lists.machines.as_slice());
    drop(users);
    plans
}

fn mode_port_at(
    alloc: Global,
    source: &Source<'_>,
    owner: Option<u32>,
    port: u32,
) -> Result<ModePortPlan, Memory>
    ensures { IfOk result (λ found. found ≡ mode_port_at source.now.d.now source.now.f.now owner port) }
{
    let name = item_text(alloc, source.d, source.f, owner, port, 0)?;
    Ok(ModePortPlan {
        instance: owner,
        name,
        machine: source.machine_for(owner, port),
    })
}

fn mode_ports_at(
    alloc: Global,
    source: &Source<'_>,
    sites: &[Site],
) -> Result<Vec<ModePortPlan>, Memory>
    ensures { IfOk result (λ list. list.items ≡ map (λ s. mode_port_at source.now.d.now source.now.f.now s.owner (unwrap_or s.port 0)) sites.now) }
{
    let mut list = Vec::new(alloc);
    for site in sites {
        list.push(mode_port_at(alloc, source, site.owner, site.port.unwrap_or(0))?)?;
    }
    Ok(list)
}

/// The required mode elements of a plan that have a machine.
pub fn mode_port_plans(alloc: Global, source: &Source<'_>) -> Result<Vec<ModePortPlan>, Memory>
    ensures { IfOk result (λ list. list.items ≡ mode_ports source.now.d.now source.now.f.now) }
{
    mode_ports_at(alloc, source, source.lists.mode_ports.as_slice())
}
