//! The clause that an entry breaks which is not what the bus answers.

ghost use Rattle.std.specs.Prelude.{◌≡◌, false, None, Some};
ghost use Rattle.bus_semantics.specs.Common.{Plan, wanted_by, Noted, Past, Answers, broken_answer, is_start};
ghost use Rattle.trace_objects.specs.declared.came.Came.TheVariants.{Nothing};
ghost use Rattle.trace_objects.specs.Clauses.{broken_by, clause_of, names_foreign, start_clause};

use crate::came::Came;
use bus_semantics::{Actor, Deed, Entry};

/// Of a deed that is no start one clause speaks at most: an entry with it that is not what the bus answers breaks that one. What
/// the bus answers breaks none.
pub fn one_clause_speaks()
    ensures answered { (p : Plan) (h : Past) (n : Noted) → Answers p h n → broken_answer p h n ≡ None }
    ensures spoken { (p : Plan) (h : Past) (n : Noted) → is_start (wanted_by 0 n.entry.deed) ≡ false → (Answers p h n → ⊥) →
        broken_answer p h n ≡ Some (clause_of n.entry.deed) }
{}

/// The clause that speaks of a deed, by the number that `check` prints.
fn clause_of(deed: &Deed) -> u8
    ensures { result ≡ clause_of deed.now }
{
    match deed {
        Deed::Fetch { .. } | Deed::FetchAll { .. } | Deed::Read { .. } | Deed::IsUpdated { .. } =>
            7,
        Deed::Send { .. } | Deed::Receive { .. } => 8,
        Deed::Ask { .. } | Deed::Answer { .. } | Deed::TakeResult { .. } => 9,
        Deed::Enter { .. } => 10,
        Deed::Switch { .. } | Deed::Mode { .. } | Deed::Phase(_) => 11,
        Deed::Admit { .. } => 12,
        Deed::Tick
        | Deed::Start { .. }
        | Deed::Write { .. }
        | Deed::Invalidate { .. }
        | Deed::Return { .. }
        | Deed::Leave { .. }
        | Deed::Publish { .. }
        | Deed::PublishAll { .. }
        | Deed::End => 13,
    }
}

/// Whether the start of a direct activation names another point than its key's.
fn names_foreign(actor: &Actor, point: Option<u32>) -> bool
    ensures { result ≡ names_foreign actor.now point }
{
    let Actor::Act(key) = actor else {
        return false;
    };
    match (key.point, point) {
        (Some(own), Some(point)) => own != point,
        _ => false,
    }
}

/// The clause that a start breaks where none by its event may come: that on calls, if it names another point than its key's, or else
/// that its event is not due.
fn start_clause(actor: &Actor, point: Option<u32>) -> u8
    ensures { result ≡ start_clause actor.now point Nothing }
{
    if names_foreign(actor, point) { 9 } else { 13 }
}

/// The clause that an entry breaks, by what may come of its wish, if it is not that.
pub(crate) fn broken_by(entry: &Entry, came: Came) -> Option<u8>
    ensures { result ≡ broken_by entry.now came }
{
    match (came, entry.deed) {
        (Came::Itself, _) => None,
        (Came::Another, Deed::Start { .. }) => Some(9),
        (Came::Nothing, Deed::Start { point, .. }) => { Some(start_clause(&entry.actor, point)) }
        (_, deed) => Some(clause_of(&deed)),
    }
}
