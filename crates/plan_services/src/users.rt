//! Who requires mode machines.

ghost use Rattle.std.specs.Prelude.{◌≡◌, ℕ, IfOk, filter, map, nat_eq};
ghost use Rattle.std.specs.List.{list_any};
ghost use Rattle.indexmap.specs.IndexSet.{contains};
ghost use Rattle.plan_definitions.specs.Common.{mode_ports_of, machine_required, supports_asynchronous, waits_of};
ghost use Rattle.plan_services.specs.Users.{AreUsers, is_refusal, is_use};

use indexmap::IndexSet;
use plan_definitions::Site;
use plan_numbers::Source;
use rte_text::Memory;
use std::alloc::Global;

/// The machines that an instance requires, and those of which a mode element of an instance does not support an asynchronous mode
/// switch.
#[derive(Drop)]
pub struct Users {
    pub used: IndexSet<u32>,
    pub refused: IndexSet<u32>,
}

fn machine_required(source: &Source<'_>, site: Site) -> u32
    ensures { result ≡ machine_required source.now.d.now source.now.f.now site }
{
    source.machine_for(site.owner, site.port.unwrap_or(0))
}

fn supports_asynchronous(source: &Source<'_>, site: Site) -> bool
    ensures { result ≡ supports_asynchronous source.now.d.now source.now.f.now site }
{
    match source.com_spec_of(site.owner, site.port.unwrap_or(0), 0) {
        Some(spec) => spec.supports_asynchronous_mode_switch,
        None => false,
    }
}

/// Whether a mode element of an instance does not support an asynchronous mode switch.
fn is_refusal(source: &Source<'_>, site: Site) -> bool
    ensures { result ≡ is_refusal source.now.d.now source.now.f.now site }
{
    site.owner.is_some() && !supports_asynchronous(source, site)
}

/// The machines that instances require.
fn used(alloc: Global, source: &Source<'_>, sites: &[Site]) -> Result<IndexSet<u32>, Memory>
    ensures { IfOk result (λ set. (n : ℕ) → contains nat_eq set n ≡ list_any (nat_eq n) (map (machine_required source.now.d.now source.now.f.now) (filter is_use sites.now))) }
{
    let mut set = IndexSet::new(alloc);
    for site in sites {
        if site.owner.is_some() {
            set.insert(machine_required(source, *site))?;
        }
    }
    Ok(set)
}

/// The machines of the mode elements among these sites that do not support to switch asynchronously.
fn refused(alloc: Global, source: &Source<'_>, sites: &[Site]) -> Result<IndexSet<u32>, Memory>
    ensures { IfOk result (λ set. (n : ℕ) → contains nat_eq set n ≡ list_any (nat_eq n) (map (machine_required source.now.d.now source.now.f.now) (filter (is_refusal source.now.d.now source.now.f.now) sites.now))) }
{
    let mut set = IndexSet::new(alloc);
    for site in sites {
        if is_refusal(source, *site) {
            set.insert(machine_required(source, *site))?;
        }
    }
    Ok(set)
}

impl Users {
    /// The users of the machines of a plan. The only error is that there is no memory.
    pub fn new(alloc: Global, source: &Source<'_>) -> Result<Users, Memory>
        ensures { IfOk result (AreUsers source.now.d.now source.now.f.now) }
    {
        let sites = source.lists.mode_ports.as_slice();
        let used = used(alloc, source, sites)?;
        let refused = refused(alloc, source, sites)?;
        Ok(Users { used, refused })
    }

    /// Whether the machine waits, between Close and Exit, for what the next mode disables.
    pub fn wait(&self, source: &Source<'_>, machine: u32) -> bool
        requires { AreUsers source.now.d.now source.now.f.now self.now }
        ensures { result ≡ waits_of source.now.d.now source.now.f.now machine }
    {
        !self.used.contains(&machine) || self.refused.contains(&machine)
    }
}
