//! Compositions that contain themselves.

ghost use Rattle.std.specs.Prelude.{◌≡◌, ◌<◌, ◌↔◌, ℕ, [], ◌∷◌, IfOk, IsTrue, length};
ghost use Rattle.std.specs.List.{list_any};
ghost use Rattle.description_types.specs.Paths.{prototypes_of, is_composition, ContainsItself};
ghost use Rattle.composition_tables.specs.Ranks.{IsRanking};
ghost use Rattle.std.specs.Bool.{OnTrue};
ghost use Rattle.description_types.specs.Firsts.{IsFirst};

use crate::prototypes::holds;
use crate::ranks::{is_ranking, ranks_of, stands_above};
use crate::reach::reached;
use description_types::Description;
use indexmap::IndexSet;
use rte_text::Memory;
use std::alloc::Global;

fn is_held_by_any(d: &Description, holders: &[usize], held: usize) -> bool
    ensures { result ≡ list_any (λ h. list_any (λ p. is_composition held p.of_type) (prototypes_of d.now h)) holders.now }
{
    holders.iter().any(|holder| holds(d, *holder, held))
}

fn set_of(alloc: Global, composition: usize) -> Result<IndexSet<usize>, Memory>
    ensures { IfOk result (λ set. set.keys ≡ composition ∷ []) }
{
    let mut set = IndexSet::new(alloc);
    set.insert(composition)?;
    Ok(set)
}

fn contains_itself(alloc: Global, d: &Description, composition: usize) -> Result<bool, Memory>
    requires { composition < length d.now.compositions }
    ensures { IfOk result (λ answer. IsTrue answer ↔ ContainsItself d.now composition) }
{
    let starts = set_of(alloc, composition)?;
    let below = reached(d, starts)?;
    Ok(is_held_by_any(d, below.as_slice(), composition))
}

/// Whether a composition contains itself, directly or through others. If the ranks are right, its rank may show at once
/// that it does not.
fn is_in_itself(
    alloc: Global,
    d: &Description,
    ranks: &[u32],
    are_ranks: bool,
    composition: usize,
) -> Result<bool, Memory>
    requires declared { composition < length d.now.compositions }
    requires ranked { OnTrue are_ranks (IsRanking d.now ranks.now) }
    ensures { IfOk result (λ answer. IsTrue answer ↔ ContainsItself d.now composition) }
{
    if are_ranks && stands_above(d, ranks, composition) {
        return Ok(false);
    }
    contains_itself(alloc, d, composition)
}

/// The first composition that contains itself, directly or through others. None exactly if none does.
pub fn first_in_itself(alloc: Global, d: &Description) -> Result<Option<usize>, Memory>
    ensures { IfOk result (λ first. IsFirst (ContainsItself d.now) (length d.now.compositions) first) }
{
    let ranks = ranks_of(alloc, d)?;
    let are_ranks = is_ranking(d, ranks.as_slice());
    for composition in 0..d.compositions.len() {
        if is_in_itself(alloc, d, ranks.as_slice(), are_ranks, composition)? {
            return Ok(Some(composition));
        }
    }
    Ok(None)
}
