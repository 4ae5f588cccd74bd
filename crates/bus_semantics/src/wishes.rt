//! What an entry asked for.

ghost use Rattle.std.specs.Prelude.{◌≡◌, unwrap_or};
ghost use Rattle.bus_semantics.specs.Wanted.{wanted_by, wanted_of};

use crate::entries::{Deed, Entry, Wish};

/// The wish of an entry: its deed without what the bus answered. `event` is the event that started the activation; an Admit
/// and an End name it, and event 0 if it is None.
pub fn wish_of(e: &Entry, event: Option<u32>) -> Wish
    ensures { wanted_of result ≡ wanted_by (unwrap_or event 0) e.now.deed }
{
    let by = event.unwrap_or(0);
    match e.deed {
        Deed::Tick => Wish::Tick,
        Deed::Start { event, .. } => Wish::Start { event },
        Deed::Admit { .. } => Wish::Admit { event: by },
        Deed::Fetch { elem, .. } => Wish::Fetch { elem },
        Deed::Write { elem, value } => Wish::Write { elem, value },
        Deed::Read { elem, .. } => Wish::Read { elem },
        Deed::Invalidate { elem } => Wish::Invalidate { elem },
        Deed::IsUpdated { elem, .. } => Wish::IsUpdated { elem },
        Deed::Send { elem, value, .. } => Wish::Send { elem, value },
        Deed::Receive { elem, .. } => Wish::Receive { elem },
        Deed::Ask { point, value, .. } => Wish::Ask { point, value },
        Deed::Answer { point, .. } => Wish::Answer { point },
        Deed::TakeResult { point, .. } => Wish::TakeResult { point },
        Deed::Return { code, value } => Wish::Return { code, value },
        Deed::Enter { area } => Wish::Enter { area },
        Deed::Leave { area } => Wish::Leave { area },
        Deed::Switch { machine, mode, .. } => Wish::Switch { machine, mode },
        Deed::Mode { port, .. } => Wish::Mode { port },
        Deed::Phase(_) => Wish::Phase,
        Deed::Publish { elem, value } => Wish::Publish { elem, value },
        Deed::FetchAll { list, .. } => Wish::FetchAll { list },
        Deed::PublishAll {
            list,
            written,
            value,
        } => Wish::PublishAll {
            list,
            written,
            value,
        },
        Deed::End => Wish::End { event: by },
    }
}
