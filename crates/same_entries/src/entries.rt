//! Entries.

ghost use Rattle.std.specs.Prelude.{◌≡◌, IsTrue, ◌↔◌};
ghost use Rattle.rte_value.specs.Values.{same_number};
ghost use Rattle.same_entries.specs.Sames.{same_maker};

use crate::deeds::same_deed;
use bus_semantics::{Actor, Entry};

/// Whether both are the same number, or both none.
pub(crate) fn same_number(one: Option<u32>, other: Option<u32>) -> bool
    ensures { result ≡ same_number one other }
{
    match (one, other) {
        (None, None) => true,
        (Some(one), Some(other)) => one == other,
        _ => false,
    }
}

/// Whether both actors are the same.
fn same_maker(one: Actor, other: Actor) -> bool
    ensures { result ≡ same_maker one other }
{
    match (one, other) {
        (Actor::Env, Actor::Env) => true,
        (Actor::Machine(one), Actor::Machine(other)) => one == other,
        (Actor::Act(one), Actor::Act(other)) => {
            one.runnable == other.runnable && same_number(one.point, other.point)
        }
        _ => false,
    }
}

/// Whether both entries are the same: made by the same actor, with the same deed and the same answer.
pub fn same_entry(one: &Entry, other: &Entry) -> bool
    ensures { IsTrue result ↔ (one.now ≡ other.now) }
{
    same_maker(one.actor, other.actor) && same_deed(&one.deed, &other.deed)
}
