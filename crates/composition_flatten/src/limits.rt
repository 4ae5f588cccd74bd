//! The limits of a description, and what it is within them.

ghost use Rattle.std.specs.Prelude.{◌≡◌, ◌↔◌, IfOk, IfSome, IfNone, IsTrue, map};
ghost use Rattle.composition_tables.specs.Counts.{IsCounted};
ghost use Rattle.end_search.specs.Matching.{HasFewItems};
ghost use Rattle.description_types.specs.Flattening.{KeepsLimits};
ghost use Rattle.description_types.specs.Growing.{IsPastLimit};
ghost use Rattle.description_types.specs.Instances.{names_env};
ghost use Rattle.description_types.specs.Joined.{IsJoined};
ghost use Rattle.composition_flatten.specs.Joins.{instance_of, end_of, join_of};
ghost use Rattle.composition_tables.specs.Trees.{IsTree};
ghost use Rattle.composition_flatten.specs.Within.{IsWithin, AreJoins, KeepsCounts};

use crate::listing::list_instances;
use crate::whole::add_links;
use composition_tables::counts::{DEPTH_LIMIT, count_below, count_levels};
use composition_tables::delegations::delegations;
use composition_tables::depth::is_too_deep;
use composition_tables::gathering::{no_links, put_in_order};
use composition_tables::links::{Item, LINK_LIMIT, Link};
use composition_tables::prototypes::prototypes_of;
use composition_tables::starts::start_levels;
use composition_tables::tree::{Owner, Tree};
use description_types::{Description, End, Instance, Join};
use rte_text::Memory;
use std::alloc::Global;

/// The greatest number of instances.
const INSTANCE_LIMIT: u32 = 1_024;

/// What a description within the limits is.
#[derive(Drop)]
pub struct Within {
    pub instances: Vec<Instance>,
    pub joins: Vec<Join>,
}

fn names_env(d: &Description) -> bool
    ensures { result ≡ names_env d.now }
{
    prototypes_of(d, d.root as usize).iter().any(|prototype| prototype.short_name.bytes()
        == "env".as_bytes())
}

fn instance_of(owner: Owner) -> Option<u32>
    ensures { result ≡ instance_of owner }
{
    match owner {
        Owner::Instance(number) => Some(number),
        Owner::Environment => None,
    }
}

fn end_of(item: Item) -> End
    ensures { result ≡ end_of item }
{
    End {
        instance: instance_of(item.owner),
        port: item.port,
        element: item.element,
    }
}

fn join_of(link: Link) -> Join
    ensures { result ≡ join_of link }
{
    Join {
        provided: end_of(link.provided),
        required: end_of(link.required),
    }
}

fn joins_of(alloc: Global, links: &[Link]) -> Result<Vec<Join>, Memory>
    ensures { IfOk result (λ joins. joins.items ≡ map join_of links.now) }
{
    let mut joins = Vec::with_capacity(alloc, links.len())?;
    for link in links {
        joins.push(join_of(*link))?;
    }
    Ok(joins)
}

fn tree_of<'a>(alloc: Global, d: &'a Description, levels: Vec<Vec<u32>>) -> Result<Tree<'a>, Memory>
    requires { IsCounted d.now levels.items }
    ensures is_tree { IfOk result (λ tree. IsTree tree) }
    ensures same { IfOk result (λ tree. tree.d.now ≡ d.now) }
{
    let starts = start_levels(alloc, d, levels.as_slice())?;
    let delegations = delegations(alloc, d)?;
    Ok(Tree {
        d,
        levels,
        starts,
        delegations,
    })
}

/// Whether the instances of the root are few enough, none too deep, and none of its prototypes is named as the environment.
fn keeps_counts(alloc: Global, d: &Description, levels: &[Vec<u32>]) -> Result<bool, Memory>
    requires { IsCounted d.now levels.now }
    ensures { IfOk result (λ answer. IsTrue answer ↔ KeepsCounts d.now) }
{
    if count_below(levels, DEPTH_LIMIT, d.root) > INSTANCE_LIMIT {
        return Ok(false);
    }
    if names_env(d) {
        return Ok(false);
    }
    let is_deep = is_too_deep(alloc, d)?;
    Ok(!is_deep)
}

/// The joins in order, or none if there are more than the limit.
fn joins_within(alloc: Global, tree: &Tree) -> Result<Option<Vec<Join>>, Memory>
    requires is_tree { IsTree tree.now }
    requires counts { KeepsCounts tree.now.d.now }
    requires few { HasFewItems tree.now.d.now }
    ensures none { IfOk result (λ found. IfNone found (IsPastLimit (IsJoined tree.now.d.now))) }
    ensures some { IfOk result (λ found. IfSome found (λ joins. AreJoins tree.now.d.now joins.items)) }
{
    let mut links = no_links(alloc);
    let is_full = add_links(alloc, tree, &mut links)?;
    if is_full {
        return Ok(None);
    }
    put_in_order(&mut links)?;
    if links.list.len() > LINK_LIMIT {
        return Ok(None);
    }
    let joins = joins_of(alloc, links.list.as_slice())?;
    Ok(Some(joins))
}

/// The joins of a description with few enough instances, in order, or none if there are more than the limit.
fn joins_over(
    alloc: Global,
    d: &Description,
    levels: Vec<Vec<u32>>,
) -> Result<Option<Vec<Join>>, Memory>
    requires counted { IsCounted d.now levels.items }
    requires counts { KeepsCounts d.now }
    requires few { HasFewItems d.now }
    ensures none { IfOk result (λ found. IfNone found (IsPastLimit (IsJoined d.now))) }
    ensures some { IfOk result (λ found. IfSome found (λ joins. AreJoins d.now joins.items)) }
{
    let tree = tree_of(alloc, d, levels)?;
    let joins = joins_within(alloc, &tree)?;
    Ok(joins)
}

/// The instances and the joins of a description that keeps the limits.
pub fn parts_within(alloc: Global, d: &Description) -> Result<Option<Within>, Memory>
    requires { HasFewItems d.now }
    ensures none { IfOk result (λ found. IfNone found (¬ KeepsLimits d.now)) }
    ensures some { IfOk result (λ found. IfSome found (IsWithin d.now)) }
{
    let levels = count_levels(alloc, d)?;
    if !keeps_counts(alloc, d, levels.as_slice())? {
        return Ok(None);
    }
    let instances = list_instances(alloc, d, levels.as_slice())?;
    match joins_over(alloc, d, levels)? {
        Some(joins) => Ok(Some(Within { instances, joins })),
        None => Ok(None),
    }
}
