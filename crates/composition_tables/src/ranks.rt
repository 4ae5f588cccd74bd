//! Ranks of compositions, by which most are seen not to contain themselves.

ghost use Rattle.std.specs.Prelude.{◌≡◌, ◌<◌, ℕ, length, true, slice_index};
ghost use Rattle.std.specs.Bool.{OnTrue};
ghost use Rattle.std.specs.List.{list_all};
ghost use Rattle.description_types.specs.Paths.{prototypes_of};
ghost use Rattle.composition_tables.specs.Ranks.{ranks_within, ranks_below, IsRanking};

use crate::prototypes::prototypes_of;
use crate::reach::declared_composition;
use description_types::{Description, Prototype};
use rte_text::Memory;
use std::alloc::Global;

fn rank(ranks: &[u32], composition: usize) -> u32
    ensures { result ≡ slice_index ranks.now composition }
{
    ranks.get(composition).copied().unwrap_or(0)
}

fn ranks_within(d: &Description, ranks: &[u32], prototype: &Prototype, highest: u32) -> bool
    ensures { result ≡ ranks_within d.now ranks.now highest prototype.now }
{
    match declared_composition(d, prototype) {
        Some(held) => rank(ranks, held) <= highest,
        None => true,
    }
}

fn ranks_below(d: &Description, ranks: &[u32], prototype: &Prototype, limit: u32) -> bool
    ensures { result ≡ ranks_below d.now ranks.now limit prototype.now }
{
    match declared_composition(d, prototype) {
        Some(held) => rank(ranks, held) < limit,
        None => true,
    }
}

/// Whether the compositions that a composition holds rank below it.
pub fn stands_above(d: &Description, ranks: &[u32], composition: usize) -> bool
    ensures { result ≡ list_all (ranks_below d.now ranks.now (slice_index ranks.now composition)) (prototypes_of d.now composition) }
{
    let limit = rank(ranks, composition);
    prototypes_of(d, composition)
        .iter()
        .all(|prototype| ranks_below(d, ranks, prototype, limit))
}

fn holds_none_above(d: &Description, ranks: &[u32], composition: usize) -> bool
    ensures { result ≡ list_all (ranks_within d.now ranks.now (slice_index ranks.now composition)) (prototypes_of d.now composition) }
{
    let highest = rank(ranks, composition);
    prototypes_of(d, composition)
        .iter()
        .all(|prototype| ranks_within(d, ranks, prototype, highest))
}

/// Whether no composition holds one that ranks above it.
pub fn is_ranking(d: &Description, ranks: &[u32]) -> bool
    ensures { OnTrue result (IsRanking d.now ranks.now) }
{
    for composition in 0..d.compositions.len() {
        if !holds_none_above(d, ranks, composition) {
            return false;
        }
    }
    true
}

/// Ranks for the compositions: compositions that contain each other have one rank, and each other one that a composition
/// holds ranks below it. No answer rests on these ranks: whether they are so is looked at, and they only spare a search from
/// each composition.
pub fn ranks_of(alloc: Global, d: &Description) -> Result<Vec<u32>, Memory> {
    let held = held_lists(alloc, d)?;
    let holders = turned(alloc, held.as_slice())?;
    let order = left_order(alloc, held.as_slice())?;
    let mut ranks = vec![in alloc; 0u32; held.len()]?;
    let mut rank = u32::MAX;
    for composition in order.iter().rev() {
        if give_rank(alloc, holders.as_slice(), *composition, rank, &mut ranks)? {
            rank = rank.saturating_sub(1);
        }
    }
    Ok(ranks)
}

/// For each composition the declared ones that it holds, one for each prototype.
fn held_lists(alloc: Global, d: &Description) -> Result<Vec<Vec<usize>>, Memory> {
    let mut lists = Vec::new(alloc);
    for composition in d.compositions.items() {
        lists.push(held_list(alloc, d, composition.prototypes.items())?)?;
    }
    Ok(lists)
}

fn held_list(
    alloc: Global,
    d: &Description,
    prototypes: &[Prototype],
) -> Result<Vec<usize>, Memory> {
    let mut list = Vec::new(alloc);
    for prototype in prototypes {
        if let Some(held) = declared_composition(d, prototype) {
            list.push(held)?;
        }
    }
    Ok(list)
}

/// For each composition those that hold it.
fn turned(alloc: Global, lists: &[Vec<usize>]) -> Result<Vec<Vec<usize>>, Memory> {
    let mut holders = Vec::new(alloc);
    for _ in lists {
        holders.push(Vec::new(alloc))?;
    }
    for (holder, list) in lists.iter().enumerate() {
        add_holder(list.as_slice(), holder, &mut holders)?;
    }
    Ok(holders)
}

fn add_holder(held: &[usize], holder: usize, holders: &mut Vec<Vec<usize>>) -> Result<(), Memory> {
    for composition in held {
        if let Some(list) = holders.get_mut(*composition) {
            list.push(holder)?;
        }
    }
    Ok(())
}

/// Whether a composition was not seen before; now it is.
fn is_new(seen: &mut Vec<bool>, composition: usize) -> bool {
    match seen.get_mut(composition) {
        Some(mark) => {
            let is_new = !*mark;
            *mark = true;
            is_new
        }
        None => false,
    }
}

/// The compositions in the order in which a search, which goes from each to those that it holds, leaves them for the last
/// time.
fn left_order(alloc: Global, held: &[Vec<usize>]) -> Result<Vec<usize>, Memory> {
    let mut seen = vec![in alloc; false; held.len()]?;
    let mut order = Vec::new(alloc);
    for composition in 0..held.len() {
        if is_new(&mut seen, composition) {
            search_from(alloc, held, composition, &mut seen, &mut order)?;
        }
    }
    Ok(order)
}

fn search_from(
    alloc: Global,
    held: &[Vec<usize>],
    composition: usize,
    seen: &mut Vec<bool>,
    order: &mut Vec<usize>,
) -> Result<(), Memory> {
    let mut path = Vec::new(alloc);
    path.push((composition, 0usize))?;
    for _ in 0..u64::MAX {
        match path.pop() {
            Some((last, next)) => go_on(held, last, next, &mut path, seen, order)?,
            None => break,
        }
    }
    Ok(())
}

fn held_at(held: &[Vec<usize>], composition: usize, place: usize) -> Option<usize> {
    match held.get(composition) {
        Some(list) => list.get(place).copied(),
        None => None,
    }
}

/// Goes from the last composition of a path to the next one that it holds, or leaves it where there is none.
fn go_on(
    held: &[Vec<usize>],
    last: usize,
    next: usize,
    path: &mut Vec<(usize, usize)>,
    seen: &mut Vec<bool>,
    order: &mut Vec<usize>,
) -> Result<(), Memory> {
    match held_at(held, last, next) {
        Some(further) => {
            path.push((last, next.saturating_add(1)))?;
            if is_new(seen, further) {
                path.push((further, 0))?;
            }
            Ok(())
        }
        None => {
            order.push(last)?;
            Ok(())
        }
    }
}

/// Gives a rank to a composition that has none, and to those from which it can be reached and that have none. The answer is
/// whether it had none.
fn give_rank(
    alloc: Global,
    holders: &[Vec<usize>],
    composition: usize,
    rank: u32,
    ranks: &mut Vec<u32>,
) -> Result<bool, Memory> {
    if !is_ranked_now(ranks, composition, rank) {
        return Ok(false);
    }
    let mut ranked = Vec::new(alloc);
    ranked.push(composition)?;
    for _ in 0..u64::MAX {
        let Some(last) = ranked.pop() else {
            break;
        };
        if let Some(list) = holders.get(last) {
            rank_all(list.as_slice(), rank, ranks, &mut ranked)?;
        }
    }
    Ok(true)
}

fn rank_all(
    compositions: &[usize],
    rank: u32,
    ranks: &mut Vec<u32>,
    ranked: &mut Vec<usize>,
) -> Result<(), Memory> {
    for composition in compositions {
        if is_ranked_now(ranks, *composition, rank) {
            ranked.push(*composition)?;
        }
    }
    Ok(())
}

/// Gives a composition this rank, if it has none. The answer is whether it had none.
fn is_ranked_now(ranks: &mut Vec<u32>, composition: usize, rank: u32) -> bool {
    match ranks.get_mut(composition) {
        Some(place) => {
            let is_free = *place == 0;
            if is_free {
                *place = rank;
            }
            is_free
        }
        None => false,
    }
}
