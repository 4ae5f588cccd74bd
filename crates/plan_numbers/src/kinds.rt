//! The sites of each kind.

ghost use Rattle.std.specs.Prelude.{◌≡◌, ◌<◌, ◌^◌, ◌&&◌, IfOk, filter, length, map};
ghost use Rattle.plan_definitions.specs.Common.{end_of, is_element, is_machine, is_mode_port, is_server, keys_of, has_machine};

use crate::joined::Joined;
use crate::numbers::{Key, Numbers};
use description_types::End;
use plan_definitions::{Site, SiteKind};
use rte_text::Memory;
use std::alloc::Global;

fn is_element(kind: SiteKind) -> bool
    ensures { result ≡ is_element kind }
{
    matches!(kind, SiteKind::Element(_) | SiteKind::Variable)
}

fn is_server(kind: SiteKind) -> bool
    ensures { result ≡ is_server kind }
{
    matches!(kind, SiteKind::Server)
}

fn is_machine(kind: SiteKind) -> bool
    ensures { result ≡ is_machine kind }
{
    matches!(kind, SiteKind::Machine)
}

fn is_mode_port(kind: SiteKind) -> bool
    ensures { result ≡ is_mode_port kind }
{
    matches!(kind, SiteKind::ModePort)
}

/// The data elements and variables.
pub fn elements_among(alloc: Global, sites: &[Site]) -> Result<Vec<Site>, Memory>
    ensures { IfOk result (λ list. list.items ≡ filter (λ s. is_element s.kind) sites.now) }
{
    sites
        .iter()
        .filter(|s| is_element(s.kind))
        .copied()
        .collect(alloc)
}

/// The servers.
pub fn servers_among(alloc: Global, sites: &[Site]) -> Result<Vec<Site>, Memory>
    ensures { IfOk result (λ list. list.items ≡ filter (λ s. is_server s.kind) sites.now) }
{
    sites
        .iter()
        .filter(|s| is_server(s.kind))
        .copied()
        .collect(alloc)
}

/// The mode machines.
pub fn machines_among(alloc: Global, sites: &[Site]) -> Result<Vec<Site>, Memory>
    ensures { IfOk result (λ list. list.items ≡ filter (λ s. is_machine s.kind) sites.now) }
{
    sites
        .iter()
        .filter(|s| is_machine(s.kind))
        .copied()
        .collect(alloc)
}

/// The end of a site. A variable has none.
pub fn end_of(site: Site) -> Option<End>
    ensures { result ≡ end_of site }
{
    let port = site.port?;
    Some(End {
        instance: site.owner,
        port,
        element: site.item,
    })
}

fn has_machine(joined: &Joined<'_>, site: Site) -> bool
    ensures { result ≡ has_machine joined.now site }
{
    match end_of(site) {
        Some(end) => joined.provider_of(end).is_some(),
        None => false,
    }
}

/// The required mode elements that have a machine.
pub fn mode_ports_among(
    alloc: Global,
    joined: &Joined<'_>,
    sites: &[Site],
) -> Result<Vec<Site>, Memory>
    ensures { IfOk result (λ list. list.items ≡ filter (has_machine joined.now) (filter (λ s. is_mode_port s.kind) sites.now)) }
{
    let required = sites.iter().filter(|s| is_mode_port(s.kind));
    required
        .filter(|s| has_machine(joined, **s))
        .copied()
        .collect(alloc)
}

fn keys_of(alloc: Global, sites: &[Site]) -> Result<Vec<Key>, Memory>
    ensures { IfOk result (λ keys. keys.items ≡ keys_of sites.now) }
{
    let mut keys = Vec::with_capacity(alloc, sites.len())?;
    for site in sites {
        keys.push((site.owner, site.port, site.item))?;
    }
    Ok(keys)
}

/// The numbers of sites.
pub fn numbers_of(alloc: Global, sites: &[Site]) -> Result<Numbers<Key>, Memory>
    requires { length sites.now < 2 ^ 32 }
    ensures { IfOk result (λ numbers. numbers ≡ keys_of sites.now) }
{
    let keys = keys_of(alloc, sites)?;
    Numbers::of(alloc, keys.as_slice())
}
