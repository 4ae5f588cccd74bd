//! Which elements of two nodes are linked.

ghost use Rattle.std.specs.Prelude.{◌≡◌, ◌&&◌, ◌++◌, IfOk, OnOk, is_none, true};
ghost use Rattle.bus_semantics.specs.Common.{list_all, plan_of, IsSound};
ghost use Rattle.std.specs.Option.{option_to_list};
ghost use Rattle.bus_semantics.specs.declared.script.Mapping.{Mapping};
ghost use Rattle.script_reading.specs.declared.forms.Form.TheVariants.{Receive};
ghost use Rattle.script_reading.specs.Numbers.{HasFewNumbers};
ghost use Rattle.script_reading.specs.Offers.{is_for};
ghost use Rattle.signal_link.specs.Links.{AreOfWords, is_link};
ghost use Rattle.pair_run.specs.Linked.{is_alike, link_of, linked_to, links_of};

use crate::Memory;
use bus_semantics::{BusPlan, ElemKind, ElemPlan};
use script_reading::{Environment, Form};
use signal_link::LinkElem;
use std::alloc::Global;

/// Whether values of the one are values of the other.
fn is_alike(elem: &ElemPlan, other: &ElemPlan) -> bool
    ensures { result ≡ is_alike elem.now other.now }
{
    elem.limits == other.limits && elem.words == other.words
}

/// Whether the environment receives from the element.
fn is_received(elem: &ElemPlan) -> bool
    ensures { result ≡ (is_none elem.now.instance && is_for Receive elem.now) }
{
    elem.instance.is_none() && matches!(elem.kind, ElemKind::Queued) && !elem.provided
}

/// The link of an element of the first node to the element of the second that was found by its name, if they are alike.
fn linked_to(number: u32, elem: &ElemPlan, plan: &BusPlan, found: Option<u32>) -> Option<LinkElem>
    ensures { result ≡ linked_to (plan_of plan.now) number elem.now found }
{
    let in_elem = found?;
    let other = plan.elements.items().get(in_elem as usize)?;
    if !is_alike(elem, other) {
        return None;
    }
    Some(LinkElem {
        out_elem: number,
        in_elem,
        words: elem.words,
        limits: elem.limits,
    })
}

/// The link of an element of the first node, if it has one, into this environment.
fn link_of(number: u32, elem: &ElemPlan, into: &Environment) -> Option<LinkElem>
    ensures { result ≡ link_of (plan_of into.now.plan.now) number elem.now }
{
    if !is_received(elem) {
        return None;
    }
    let found = into.find(Form::Send, elem.name.bytes());
    linked_to(number, elem, into.plan, found)
}

/// Appends the link, if there is one.
fn push_link(links: &mut Vec<LinkElem>, link: Option<LinkElem>) -> Result<(), Memory>
    ensures { OnOk result (links.new.items ≡ links.old.items ++ option_to_list link) }
{
    if let Some(link) = link {
        links.push(link)?;
    }
    Ok(())
}

/// The links of two nodes: a queued element of an outer P-port of the first, and one of an outer R-port of the second of the same name
/// of port and element, with the same limits and as many words. They stand in the declared order of the first node. The only error is
/// that there is no memory.
pub fn make_links(alloc: Global, a: &BusPlan, b: &BusPlan) -> Result<Vec<LinkElem>, Memory>
    requires sound_one { (m : Mapping) × IsSound (plan_of a.now) m }
    requires sound_two { (m : Mapping) × IsSound (plan_of b.now) m }
    requires few_one { HasFewNumbers (plan_of a.now) }
    requires few_two { HasFewNumbers (plan_of b.now) }
    ensures links { IfOk result (λ links. links.items ≡ links_of (plan_of a.now) (plan_of b.now)) }
    ensures fit { IfOk result (λ links. list_all is_link links.items ≡ true) }
    ensures of_words { IfOk result (λ links. AreOfWords links.items) }
{
    let into = Environment::of(alloc, b)?;
    let mut links = Vec::new(alloc);
    for (number, elem) in a.elements.items().iter().enumerate() {
        push_link(&mut links, link_of(number as u32, elem, &into))?;
    }
    Ok(links)
}
