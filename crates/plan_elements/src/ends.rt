//! The ends of joins: their numbers, and which elements they are.

ghost use Rattle.std.specs.Prelude.{◌≡◌, ℕ, ◌<◌, ◌^◌, ◌||◌, IfOk, Some, false, length, nat_eq, replicate};
ghost use Rattle.bus_semantics.specs.Common.{position_from, option_eq, unwrap_or};
ghost use Rattle.plan_definitions.specs.Common.{own_number, end_key, keys_of, same_key, elements_of};
ghost use Rattle.plan_elements.specs.Ends.{AreJoined, has_at, mark_at, pairs_of, stands_at};

use description_types::{End, Join};
use plan_numbers::{Source, position};
use rte_text::Memory;
use std::alloc::Global;

/// What the joins say of the elements.
#[derive(Drop)]
pub struct Ends {
    /// The numbers of the ends of each join, the provided one first.
    pub pairs: Vec<(u32, u32)>,
    /// Whether a join has the element as an end, for each by its number.
    pub joined: Vec<bool>,
}

fn mark(marks: &mut Vec<bool>, place: Option<usize>)
    ensures length { length marks.new.items ≡ length marks.old.items }
    ensures marks { (n : ℕ) → n < length marks.old.items → mark_at marks.new.items n ≡ (option_eq nat_eq place (Some n) || mark_at marks.old.items n) }
{
    let Some(place) = place else {
        return;
    };
    if let Some(mark) = marks.get_mut(place) {
        *mark = true;
    }
}

fn place_of(source: &Source<'_>, end: End) -> Option<usize>
    ensures { result ≡ position_from (same_key (end_key end)) 0 (keys_of (elements_of source.now.d.now source.now.f.now)) }
{
    source.element_place(end.instance, Some(end.port), end.element)
}

/// The number of a place, 0 of none.
fn number_of(place: Option<usize>) -> u32
    requires { (p : ℕ) → place ≡ Some p → p < 2 ^ 32 }
    ensures { result ≡ unwrap_or place 0 }
{
    match place {
        Some(place) => position(place),
        None => 0,
    }
}

/// Marks an end if it is an element. Returns its number, 0 if it is none.
fn mark_end(marks: &mut Vec<bool>, source: &Source<'_>, end: End) -> u32
    ensures number { result ≡ own_number (keys_of (elements_of source.now.d.now source.now.f.now)) end }
    ensures length { length marks.new.items ≡ length marks.old.items }
    ensures marks { (n : ℕ) → n < length marks.old.items → mark_at marks.new.items n ≡ (stands_at (keys_of (elements_of source.now.d.now source.now.f.now)) end n || mark_at marks.old.items n) }
{
    let place = place_of(source, end);
    mark(marks, place);
    number_of(place)
}

/// Marks the ends of a join. Returns their numbers, that of the provided one first.
#[tactic(auto, using(crate::proofs::Joining::ends_marked))]
fn mark_ends(marks: &mut Vec<bool>, source: &Source<'_>, join: Join) -> (u32, u32)
    ensures numbers { result ≡ (own_number (keys_of (elements_of source.now.d.now source.now.f.now)) join.provided, own_number (keys_of (elements_of source.now.d.now source.now.f.now)) join.required) }
    ensures length { length marks.new.items ≡ length marks.old.items }
    ensures marks { (n : ℕ) → n < length marks.old.items → mark_at marks.new.items n ≡ (has_at (keys_of (elements_of source.now.d.now source.now.f.now)) n join || mark_at marks.old.items n) }
{
    let provided = mark_end(marks, source, join.provided);
    let required = mark_end(marks, source, join.required);
    (provided, required)
}

fn no_marks(alloc: Global, count: usize) -> Result<Vec<bool>, Memory>
    ensures { IfOk result (λ marks. marks.items ≡ replicate count false) }
{
    let mut marks = Vec::new(alloc);
    marks.resize(count, false)?;
    Ok(marks)
}

/// What the joins of a description say of its elements. Each end is looked up once.
pub fn ends_of(alloc: Global, source: &Source<'_>) -> Result<Ends, Memory>
    ensures pairs { IfOk result (λ ends. ends.pairs.items ≡ pairs_of (keys_of (elements_of source.now.d.now source.now.f.now)) source.now.f.now.joins) }
    ensures joined { IfOk result (λ ends. AreJoined source.now.d.now source.now.f.now ends.joined.items) }
{
    let mut joined = no_marks(alloc, source.lists.elements.len())?;
    let mut pairs = Vec::with_capacity(alloc, source.f.joins.len())?;
    for join in source.f.joins.items() {
        let numbers = mark_ends(&mut joined, source, *join);
        pairs.push(numbers)?;
    }
    Ok(Ends { pairs, joined })
}
