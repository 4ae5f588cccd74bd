//! All that a plan numbers, listed and numbered.

ghost use Rattle.std.specs.Prelude.{◌≡◌, IfOk};
ghost use Rattle.plan_definitions.specs.Common.{keys_of, areas_of, events_of, runnables_of, HasFewThings};
ghost use Rattle.plan_numbers.specs.Listed.{AreAmong, AreLists, AreNumbers, AreShort, ArePairs};

use crate::all_sites::sites;
use crate::joined::Joined;
use crate::kinds::{elements_among, machines_among, mode_ports_among, numbers_of, servers_among};
use crate::numbers::{Key, Numbers};
use crate::parts::{Pair, numbered_areas, numbered_events, numbered_runnables};
use description_types::{Description, Flat};
use plan_definitions::Site;
use rte_text::Memory;
use std::alloc::Global;

/// The sites of a plan by kind, each list in the order of the plan.
#[derive(Drop)]
pub struct Lists {
    /// Data elements and variables.
    pub elements: Vec<Site>,
    pub servers: Vec<Site>,
    pub machines: Vec<Site>,
    /// The required mode elements that have a machine.
    pub mode_ports: Vec<Site>,
}

/// The numbers of those that are found by hash.
#[derive(Drop)]
pub struct SiteNumbers {
    pub servers: Numbers<Key>,
    pub machines: Numbers<Key>,
    pub mode_ports: Numbers<Key>,
}

/// The numbers of what instances have besides.
#[derive(Drop)]
pub struct PairNumbers {
    pub runnables: Numbers<Pair>,
    pub events: Numbers<Pair>,
    pub areas: Numbers<Pair>,
}

/// All numbers that are found by hash.
#[derive(Drop)]
pub struct AllNumbers {
    pub sites: SiteNumbers,
    pub pairs: PairNumbers,
}

fn lists_among(alloc: Global, joined: &Joined<'_>, sites: &[Site]) -> Result<Lists, Memory>
    ensures { IfOk result (λ lists. AreAmong joined.now sites.now lists) }
{
    let elements = elements_among(alloc, sites)?;
    let servers = servers_among(alloc, sites)?;
    let machines = machines_among(alloc, sites)?;
    let mode_ports = mode_ports_among(alloc, joined, sites)?;
    Ok(Lists {
        elements,
        servers,
        machines,
        mode_ports,
    })
}

/// The lists of a description.
pub fn lists_of(alloc: Global, d: &Description, f: &Flat, joined: &Joined) -> Result<Lists, Memory>
    requires joined { joined.now ≡ f.now.joins }
    requires few { HasFewThings d.now f.now }
    ensures { IfOk result (λ lists. AreLists d.now f.now lists) }
{
    let all = sites(alloc, d, f)?;
    lists_among(alloc, joined, all.as_slice())
}

/// The numbers of sites whose servers and machines are numbered.
fn with_mode_ports(
    alloc: Global,
    lists: &Lists,
    servers: Numbers<Key>,
    machines: Numbers<Key>,
) -> Result<SiteNumbers, Memory>
    requires short { AreShort lists.now }
    requires servers { servers ≡ keys_of lists.now.servers.items }
    requires machines { machines ≡ keys_of lists.now.machines.items }
    ensures { IfOk result (λ numbers. AreNumbers lists.now numbers) }
{
    match numbers_of(alloc, lists.mode_ports.as_slice()) {
        Ok(mode_ports) => Ok(SiteNumbers {
            servers,
            machines,
            mode_ports,
        }),
        Err(memory) => {
            drop(servers);
            drop(machines);
            Err(memory)
        }
    }
}

/// The numbers of what these lists hold.
pub fn site_numbers(alloc: Global, lists: &Lists) -> Result<SiteNumbers, Memory>
    requires { AreShort lists.now }
    ensures { IfOk result (λ numbers. AreNumbers lists.now numbers) }
{
    let servers = numbers_of(alloc, lists.servers.as_slice())?;
    match numbers_of(alloc, lists.machines.as_slice()) {
        Ok(machines) => with_mode_ports(alloc, lists, servers, machines),
        Err(memory) => {
            drop(servers);
            Err(memory)
        }
    }
}

fn runnable_numbers(alloc: Global, d: &Description, f: &Flat) -> Result<Numbers<Pair>, Memory>
    requires { HasFewThings d.now f.now }
    ensures { IfOk result (λ numbers. numbers ≡ runnables_of d.now f.now) }
{
    let list = numbered_runnables(alloc, d, f)?;
    Numbers::of(alloc, list.as_slice())
}

fn event_numbers(alloc: Global, d: &Description, f: &Flat) -> Result<Numbers<Pair>, Memory>
    requires { HasFewThings d.now f.now }
    ensures { IfOk result (λ numbers. numbers ≡ events_of d.now f.now) }
{
    let list = numbered_events(alloc, d, f)?;
    Numbers::of(alloc, list.as_slice())
}

fn area_numbers(alloc: Global, d: &Description, f: &Flat) -> Result<Numbers<Pair>, Memory>
    requires { HasFewThings d.now f.now }
    ensures { IfOk result (λ numbers. numbers ≡ areas_of d.now f.now) }
{
    let list = numbered_areas(alloc, d, f)?;
    Numbers::of(alloc, list.as_slice())
}

/// The numbers of a description whose runnables and events are numbered.
fn with_areas(
    alloc: Global,
    d: &Description,
    f: &Flat,
    runnables: Numbers<Pair>,
    events: Numbers<Pair>,
) -> Result<PairNumbers, Memory>
    requires runnables { runnables ≡ runnables_of d.now f.now }
    requires events { events ≡ events_of d.now f.now }
    requires few { HasFewThings d.now f.now }
    ensures { IfOk result (λ numbers. ArePairs d.now f.now numbers) }
{
    match area_numbers(alloc, d, f) {
        Ok(areas) => Ok(PairNumbers {
            runnables,
            events,
            areas,
        }),
        Err(memory) => {
            drop(runnables);
            drop(events);
            Err(memory)
        }
    }
}

/// The numbers of the runnables, events and areas of a description.
pub fn pair_numbers(alloc: Global, d: &Description, f: &Flat) -> Result<PairNumbers, Memory>
    requires { HasFewThings d.now f.now }
    ensures { IfOk result (λ numbers. ArePairs d.now f.now numbers) }
{
    let runnables = runnable_numbers(alloc, d, f)?;
    match event_numbers(alloc, d, f) {
        Ok(events) => with_areas(alloc, d, f, runnables, events),
        Err(memory) => {
            drop(runnables);
            Err(memory)
        }
    }
}

/// The numbers of what these lists hold, and of the runnables, events and areas of a description.
pub fn all_numbers(
    alloc: Global,
    d: &Description,
    f: &Flat,
    lists: &Lists,
) -> Result<AllNumbers, Memory>
    requires short { AreShort lists.now }
    requires few { HasFewThings d.now f.now }
    ensures sites { IfOk result (λ numbers. AreNumbers lists.now numbers.sites) }
    ensures pairs { IfOk result (λ numbers. ArePairs d.now f.now numbers.pairs) }
{
    let sites = site_numbers(alloc, lists)?;
    match pair_numbers(alloc, d, f) {
        Ok(pairs) => Ok(AllNumbers { sites, pairs }),
        Err(memory) => {
            drop(sites);
            Err(memory)
        }
    }
}
