//! Wishes.

ghost use Rattle.std.specs.Prelude.{◌≡◌};
ghost use Rattle.bus_semantics.specs.Wanted.{same_wanted, wanted_of};
ghost use Rattle.same_entries.specs.Sames.{same_given};

use bus_semantics::Wish;

/// Whether both wishes are the same, of those that give the bus a value.
fn same_given(one: &Wish, other: &Wish) -> bool
    ensures { result ≡ same_given (wanted_of one.now) (wanted_of other.now) }
{
    match (one, other) {
        (Wish::Write { elem: a, value: v }, Wish::Write { elem: b, value: w })
        | (Wish::Send { elem: a, value: v }, Wish::Send { elem: b, value: w })
        | (Wish::Ask { point: a, value: v }, Wish::Ask { point: b, value: w })
        | (Wish::Publish { elem: a, value: v }, Wish::Publish { elem: b, value: w }) => {
            *a == *b && *v == *w
        }
        (Wish::Return { code: a, value: v }, Wish::Return { code: b, value: w }) => {
            *a == *b && *v == *w
        }
        (
            Wish::PublishAll {
                list: a,
                written: m,
                value: v,
            },
            Wish::PublishAll {
                list: b,
                written: n,
                value: w,
            },
        ) => *a == *b && *m == *n && *v == *w,
        _ => false,
    }
}

/// Whether both wishes are the same.
pub fn same_wish(one: &Wish, other: &Wish) -> bool
    ensures { result ≡ same_wanted (wanted_of one.now) (wanted_of other.now) }
{
    match (one, other) {
        (Wish::Tick, Wish::Tick) | (Wish::Phase, Wish::Phase) => true,
        (Wish::Start { event: a }, Wish::Start { event: b })
        | (Wish::Admit { event: a }, Wish::Admit { event: b })
        | (Wish::End { event: a }, Wish::End { event: b })
        | (Wish::Fetch { elem: a }, Wish::Fetch { elem: b })
        | (Wish::FetchAll { list: a }, Wish::FetchAll { list: b })
        | (Wish::Read { elem: a }, Wish::Read { elem: b })
        | (Wish::Invalidate { elem: a }, Wish::Invalidate { elem: b })
        | (Wish::IsUpdated { elem: a }, Wish::IsUpdated { elem: b })
        | (Wish::Receive { elem: a }, Wish::Receive { elem: b })
        | (Wish::Answer { point: a }, Wish::Answer { point: b })
        | (Wish::TakeResult { point: a }, Wish::TakeResult { point: b })
        | (Wish::Enter { area: a }, Wish::Enter { area: b })
        | (Wish::Leave { area: a }, Wish::Leave { area: b })
        | (Wish::Mode { port: a }, Wish::Mode { port: b }) => *a == *b,
        (
            Wish::Switch {
                machine: a,
                mode: m,
            },
            Wish::Switch {
                machine: b,
                mode: n,
            },
        ) => { *a == *b && *m == *n }
        _ => same_given(one, other),
    }
}
