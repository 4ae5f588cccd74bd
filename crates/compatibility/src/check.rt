//! The checks, and what they refuse.

ghost use Rattle.std.specs.Prelude.{◌≡◌, Some};
ghost use Rattle.plan_definitions.specs.Telling.{Tells};
ghost use Rattle.plan_definitions.specs.JoinRefusals.{of_connectors, of_root_ports, of_items, number_of, port_refusal, item_refusal, refusal};

use crate::places::in_composition;
use description_types::{Description, Flat};
use join_search::{Search, end_text, incompatible, root_client};
use plan_definitions::JoinRule;
use rte_text::{Refusal, Refused, Text};
use std::alloc::Global;

fn refused(rule: u16, place: Text) -> Result<(), Refused>
    ensures { Tells (Some (rule, place)) result }
{
    Err(Refused::Rule(Refusal { rule, place }))
}

fn check_connectors(alloc: Global, d: &Description) -> Result<(), Refused>
    ensures { Tells (of_connectors d.now) result }
{
    match incompatible(alloc, d)? {
        None => Ok(()),
        Some((composition, connector)) => {
            let place = in_composition(alloc, composition, "/connectors/", connector)?;
            refused(12, place)
        }
    }
}

fn check_root_ports(alloc: Global, d: &Description) -> Result<(), Refused>
    ensures { Tells (of_root_ports d.now) result }
{
    match root_client(d) {
        None => Ok(()),
        Some(port) => {
            let place = in_composition(alloc, d.root as usize, "/ports/", port)?;
            refused(13, place)
        }
    }
}

fn check_ports(alloc: Global, d: &Description) -> Result<(), Refused>
    ensures { Tells (port_refusal d.now) result }
{
    check_connectors(alloc, d)?;
    check_root_ports(alloc, d)
}

fn number_of(rule: JoinRule) -> u16
    ensures { result ≡ number_of rule }
{
    match rule {
        JoinRule::Services => 14,
        JoinRule::Groups => 15,
    }
}

fn check_rule(
    alloc: Global,
    search: &Search,
    rule: JoinRule,
    d: &Description,
    f: &Flat,
) -> Result<(), Refused>
    requires description { search.now.d.now ≡ d.now }
    requires flat { search.now.f.now ≡ f.now }
    ensures { Tells (of_items rule d.now f.now) result }
{
    match search.first_broken(rule) {
        None => Ok(()),
        Some(item) => {
            let place = end_text(alloc, d, f, &item)?;
            refused(number_of(rule), place)
        }
    }
}

fn check_among(alloc: Global, search: &Search, d: &Description, f: &Flat) -> Result<(), Refused>
    requires description { search.now.d.now ≡ d.now }
    requires flat { search.now.f.now ≡ f.now }
    ensures { Tells (item_refusal d.now f.now) result }
{
    check_rule(alloc, search, JoinRule::Services, d, f)?;
    check_rule(alloc, search, JoinRule::Groups, d, f)
}

fn check_items(alloc: Global, d: &Description, f: &Flat) -> Result<(), Refused>
    ensures { Tells (item_refusal d.now f.now) result }
{
    let search = Search::new(alloc, d, f)?;
    let checked = check_among(alloc, &search, d, f);
    drop(search);
    checked
}

/// Whether what a description joins may be joined: the ports of each connector are compatible (12), the environment serves no
/// operation (13), each required operation and mode element has at most one provided one and each required mode element of an
/// instance has one (14), and no group has more than one provided and more than one required data element (15). An error of
/// `Rule` names the least of these that is broken and its first place: `/compositions/N/connectors/M` (12) and
/// `/compositions/N/ports/K` (13) in the order of the document, the name of the required item, as `b/r0.i.v` or `env.p.o` (14
/// and 15), by instance, port and item, the environment last.
///
/// `f` is the description made flat. An error of `Memory` may come at any time.
pub fn check_joins(alloc: Global, d: &Description, f: &Flat) -> Result<(), Refused>
    ensures { Tells (refusal d.now f.now) result }
{
    check_ports(alloc, d)?;
    check_items(alloc, d, f)
}
