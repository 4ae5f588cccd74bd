//! The data elements and variables of a plan.

ghost use Rattle.std.specs.Prelude.{◌≡◌, [], ◌∷◌, ◌++◌, IfOk, None, OnOk, Some, false, map, option_and_then, option_copied, slice_get};
ghost use Rattle.plan_definitions.specs.Common.{elem_seen, element_of, elements, group_of, is_provided};
ghost use Rattle.plan_elements.specs.Grouped.{AreGroups};
ghost use Rattle.plan_elements.specs.Ends.{joined_at};

use crate::groups::Groups;
use crate::said::{given_by, init_of, limits_of, never_received_by, queue_by, words_of};
use crate::types::{declared_in, kind_declared, type_at, type_declared, variable_at};
use bus_semantics::{ElemKind, ElemPlan, InitValue};
use description_types::{DataType, Variable};
use plan_definitions::{Site, SiteKind};
use plan_numbers::{Source, interface_at, port_of, text_at, variable_name};
use rte_text::{Memory, Seq, Text};
use rte_value::Word;
use std::alloc::Global;

fn is_provided(kind: SiteKind) -> bool
    ensures { result ≡ is_provided kind }
{
    matches!(kind, SiteKind::Element(true))
}

/// The group of an element, and whether a join has it as an end.
#[derive(Clone, Copy)]
struct Links {
    group: u32,
    joined: bool,
}

/// The plan of an item of a port.
fn item_plan(
    alloc: Global,
    source: &Source<'_>,
    links: Links,
    site: Site,
    port: u32,
) -> Result<ElemPlan, Memory>
    requires joined { links.joined ≡ joined_at source.now.f.now.joins site }
    requires port { site.port ≡ Some port }
    ensures { IfOk result (λ e. elem_seen e ≡ element_of source.now.d.now source.now.f.now links.group site) }
{
    let declaring = port_of(source.d, source.f, site.owner, port);
    let interface = interface_at(source.d, declaring);
    let declared = declared_in(interface, site.item);
    let spec = source.com_spec_of(site.owner, port, site.item);
    let kind = kind_declared(declared);
    let found = type_declared(source, declared);
    let init = init_of(given_by(site.kind, kind, spec), found);
    Ok(ElemPlan {
        instance: site.owner,
        name: text_at(alloc, declaring, interface, site.item)?,
        kind,
        provided: is_provided(site.kind),
        joined: links.joined,
        group: links.group,
        limits: limits_of(found),
        words: words_of(found),
        init: InitValue::new(alloc, init)?,
        never_received: never_received_by(site.kind, kind, spec),
        queue_length: queue_by(site.kind, kind, spec),
    })
}

fn type_of_variable(source: &Source<'_>, variable: Option<&Variable>) -> Option<DataType>
    ensures { result ≡ option_and_then (λ v. slice_get source.now.d.now.types.data_types v.of_type) (option_copied variable.entry) }
{
    type_at(source, variable?.of_type)
}

fn given_to_variable(variable: Option<&Variable>) -> Option<&Seq<Word>>
    ensures { option_copied result ≡ option_and_then (λ v. v.init_value) (option_copied variable.entry) }
{
    variable?.init_value.as_ref()
}

/// The plan of a variable.
fn variable_plan(
    alloc: Global,
    source: &Source<'_>,
    links: Links,
    site: Site,
) -> Result<ElemPlan, Memory>
    requires joined { links.joined ≡ joined_at source.now.f.now.joins site }
    requires port { site.port ≡ None }
    ensures { IfOk result (λ e. elem_seen e ≡ element_of source.now.d.now source.now.f.now links.group site) }
{
    let variable = variable_at(source, site.owner, site.item);
    let found = type_of_variable(source, variable);
    let init = init_of(given_to_variable(variable), found);
    let name = variable_name(source.d, source.f, site.owner, site.item);
    Ok(ElemPlan {
        instance: site.owner,
        name: Text::new(alloc, name)?,
        kind: ElemKind::Variable,
        provided: is_provided(site.kind),
        joined: links.joined,
        group: links.group,
        limits: limits_of(found),
        words: words_of(found),
        init: InitValue::new(alloc, init)?,
        never_received: false,
        queue_length: 1,
    })
}

fn push_element(
    list: &mut Vec<ElemPlan>,
    alloc: Global,
    source: &Source<'_>,
    links: Links,
    site: Site,
) -> Result<(), Memory>
    requires { links.joined ≡ joined_at source.now.f.now.joins site }
    ensures { OnOk result (map elem_seen list.new.items ≡ map elem_seen list.old.items ++ element_of source.now.d.now source.now.f.now links.group site ∷ []) }
{
    let plan = match site.port {
        None => variable_plan(alloc, source, links, site)?,
        Some(port) => item_plan(alloc, source, links, site, port)?,
    };
    list.push(plan)?;
    Ok(())
}

fn elements_at(
    alloc: Global,
    source: &Source<'_>,
    groups: &[u32],
    joined: &[bool],
    sites: &[Site],
) -> Result<Vec<ElemPlan>, Memory>
    requires groups { groups.now ≡ map (group_of source.now.d.now source.now.f.now) sites.now }
    requires joined { joined.now ≡ map (joined_at source.now.f.now.joins) sites.now }
    ensures { IfOk result (λ list. map elem_seen list.items ≡ map (λ s. element_of source.now.d.now source.now.f.now (group_of source.now.d.now source.now.f.now s) s) sites.now) }
{
    let mut list = Vec::with_capacity(alloc, sites.len())?;
    for number in 0..sites.len() {
        let links = Links {
            group: groups[number],
            joined: joined[number],
        };
        push_element(&mut list, alloc, source, links, sites[number])?;
    }
    Ok(list)
}

/// The data elements and variables of a plan, each with its group. Each has what holds before any write.
pub fn element_plans(
    alloc: Global,
    source: &Source<'_>,
    groups: &Groups,
) -> Result<Vec<ElemPlan>, Memory>
    requires { AreGroups source.now.d.now source.now.f.now groups.now }
    ensures { IfOk result (λ list. map elem_seen list.items ≡ elements source.now.d.now source.now.f.now) }
{
    elements_at(
        alloc,
        source,
        groups.numbers.as_slice(),
        groups.joined.as_slice(),
        source.lists.elements.as_slice(),
    )
}
