//! Entries and wishes.

ghost use Rattle.std.specs.Prelude.{◌≡◌, unwrap_or};
ghost use Rattle.bus_semantics.specs.Wanted.{same_wanted, wanted_by, wanted_of};
ghost use Rattle.same_entries.specs.Sames.{gives};

use bus_semantics::{Deed, Entry, Wish};

/// Whether a deed and a wish give the bus the same, of those that give it a value.
fn gives(deed: &Deed, wish: &Wish) -> bool
    ensures { result ≡ gives deed.now (wanted_of wish.now) }
{
    match (deed, wish) {
        (Deed::Write { elem: a, value: v }, Wish::Write { elem: b, value: w })
        | (Deed::Publish { elem: a, value: v }, Wish::Publish { elem: b, value: w }) => {
            *a == *b && *v == *w
        }
        (
            Deed::Send {
                elem: a,
                value: v,
                ..
            },
            Wish::Send { elem: b, value: w },
        )
        | (
            Deed::Ask {
                point: a,
                value: v,
                ..
            },
            Wish::Ask { point: b, value: w },
        ) => *a == *b && *v == *w,
        (Deed::Return { code: c, value: v }, Wish::Return { code: d, value: w }) => {
            *c == *d && *v == *w
        }
        (
            Deed::PublishAll {
                list: a,
                written: m,
                value: v,
            },
            Wish::PublishAll {
                list: b,
                written: n,
                value: w,
            },
        ) => *a == *b && *m == *n && *v == *w,
        _ => false,
    }
}

/// Whether an entry is what a wish asks for: whether `wish_of` makes a wish of it that is the same. `event` is the event that started the
/// activation; an Admit and an End name it, and event 0 if it is None.
pub fn is_wish_of(entry: &Entry, event: Option<u32>, wish: &Wish) -> bool
    ensures { result ≡ same_wanted (wanted_by (unwrap_or event 0) entry.now.deed) (wanted_of wish.now) }
{
    match (&entry.deed, wish) {
        (Deed::Tick, Wish::Tick) | (Deed::Phase(_), Wish::Phase) => true,
        (Deed::Admit { .. }, Wish::Admit { event: b }) | (Deed::End, Wish::End { event: b }) => {
            event.unwrap_or(0) == *b
        }
        (Deed::Start { event: a, .. }, Wish::Start { event: b })
        | (Deed::Fetch { elem: a, .. }, Wish::Fetch { elem: b })
        | (Deed::FetchAll { list: a, .. }, Wish::FetchAll { list: b })
        | (Deed::Read { elem: a, .. }, Wish::Read { elem: b })
        | (Deed::Invalidate { elem: a }, Wish::Invalidate { elem: b })
        | (Deed::IsUpdated { elem: a, .. }, Wish::IsUpdated { elem: b })
        | (Deed::Receive { elem: a, .. }, Wish::Receive { elem: b })
        | (Deed::Answer { point: a, .. }, Wish::Answer { point: b })
        | (Deed::TakeResult { point: a, .. }, Wish::TakeResult { point: b })
        | (Deed::Enter { area: a }, Wish::Enter { area: b })
        | (Deed::Leave { area: a }, Wish::Leave { area: b })
        | (Deed::Mode { port: a, .. }, Wish::Mode { port: b }) => *a == *b,
        (
            Deed::Switch {
                machine: a,
                mode: m,
                ..
            },
            Wish::Switch {
                machine: b,
                mode: n,
            },
        ) => *a == *b && *m == *n,
        (Deed::Write { .. }, Wish::Write { .. })
        | (Deed::Send { .. }, Wish::Send { .. })
        | (Deed::Ask { .. }, Wish::Ask { .. })
        | (Deed::Return { .. }, Wish::Return { .. })
        | (Deed::Publish { .. }, Wish::Publish { .. })
        | (Deed::PublishAll { .. }, Wish::PublishAll { .. }) => gives(&entry.deed, wish),
        _ => false,
    }
}
