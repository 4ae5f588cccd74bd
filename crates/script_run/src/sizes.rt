//! How large what an entry holds is. By the types of the code it is small enough, so nothing is done here.

ghost use Rattle.std.specs.Prelude.{◌≡◌, true};
ghost use Rattle.bus_semantics.specs.Common.{list_all, are_words, is_sized, is_sized_actor};
ghost use Rattle.script_run.specs.Sizes.{is_sized_entry, is_sized_stamped};

use bus_semantics::{Actor, Deed, Entry, Stamped};
use rte_value::{Step, Value};

/// The numbers of an actor have 32 bits.
fn actor_is_sized(actor: Actor)
    ensures { is_sized_actor actor ≡ true }
{}

/// Each word has 64 bits.
fn are_words(value: &Value) -> bool
    ensures words { result ≡ are_words value.now }
    ensures always { result ≡ true }
{
    value
        .words()
        .iter()
        .all(|word| i64::MIN <= *word && *word <= i64::MAX)
}

/// The deed's numbers have 32 bits, its codes are bytes, and its words have 64 bits.
fn deed_is_sized(deed: Deed)
    ensures { is_sized deed ≡ true }
{
    match deed {
        Deed::Start { value, .. }
        | Deed::Fetch { value, .. }
        | Deed::Write { value, .. }
        | Deed::Publish { value, .. }
        | Deed::FetchAll { value, .. }
        | Deed::PublishAll { value, .. }
        | Deed::Read { value, .. }
        | Deed::Send { value, .. }
        | Deed::Receive { value, .. }
        | Deed::Ask { value, .. }
        | Deed::Answer { value, .. }
        | Deed::TakeResult { value, .. }
        | Deed::Return { value, .. } => {
            are_words(&value);
        }
        Deed::Phase(Step::Close(_)) => {}
        Deed::Phase(_) => {}
        _ => {}
    }
}

/// An entry has the sizes of its types.
pub(crate) fn entry_is_sized(entry: &Entry)
    ensures { is_sized_entry entry.now ≡ true }
{
    actor_is_sized(entry.actor);
    deed_is_sized(entry.deed);
}

/// Each of these entries has the sizes of its types.
pub(crate) fn entries_are_sized(entries: &[Stamped])
    ensures { list_all is_sized_stamped entries.now ≡ true }
{
    for stamped in entries {
        entry_is_sized(&stamped.entry);
    }
}
