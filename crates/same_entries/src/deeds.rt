//! Deeds.

ghost use Rattle.std.specs.Prelude.{◌≡◌, None, Some, MatchOption};
ghost use Rattle.same_entries.specs.Sames.{answer, same_answer, same_answered, same_deed, same_listed, same_step};

use crate::entries::same_number;
use bus_semantics::Deed;
use rte_value::{Code, Step, Value};

/// Whether both phases are the same.
fn same_step(one: Step, other: Step) -> bool
    ensures { result ≡ same_step one other }
{
    match (one, other) {
        (Step::Close(a), Step::Close(b)) => a == b,
        (Step::Exit, Step::Exit)
        | (Step::Transition, Step::Transition)
        | (Step::Entry, Step::Entry)
        | (Step::Stable, Step::Stable) => true,
        _ => false,
    }
}

/// The code and the value of a deed that carries both.
fn answer(deed: &Deed) -> Option<(Code, &Value)>
    ensures { MatchOption result (answer deed.now ≡ None) (λ found. answer deed.now ≡ Some (found.0, found.1.now)) }
{
    match deed {
        Deed::Read { code, value, .. }
        | Deed::Send { code, value, .. }
        | Deed::Receive { code, value, .. }
        | Deed::Ask { code, value, .. }
        | Deed::Answer { code, value, .. }
        | Deed::TakeResult { code, value, .. }
        | Deed::Return { code, value } => Some((*code, value)),
        _ => None,
    }
}

/// Whether both deeds carry the same code and the same value.
fn same_answer(one: &Deed, other: &Deed) -> bool
    ensures { result ≡ same_answer (answer one.now) (answer other.now) }
{
    match (answer(one), answer(other)) {
        (Some((c, v)), Some((d, w))) => c == d && *v == *w,
        _ => false,
    }
}

/// Whether both deeds are the same, of those on coherent lists.
fn same_listed(one: &Deed, other: &Deed) -> bool
    ensures { result ≡ same_listed one.now other.now }
{
    match (one, other) {
        (Deed::FetchAll { list: a, value: v }, Deed::FetchAll { list: b, value: w }) => {
            *a == *b && *v == *w
        }
        (
            Deed::PublishAll {
                list: a,
                written: m,
                value: v,
            },
            Deed::PublishAll {
                list: b,
                written: n,
                value: w,
            },
        ) => *a == *b && *m == *n && *v == *w,
        _ => false,
    }
}

/// Whether both deeds are the same, of starts, those that carry a code and a value, and those on coherent lists.
fn same_answered(one: &Deed, other: &Deed) -> bool
    ensures { result ≡ same_answered one.now other.now }
{
    match (one, other) {
        (
            Deed::Start {
                event: a,
                point: q,
                value: v,
            },
            Deed::Start {
                event: b,
                point: r,
                value: w,
            },
        ) => *a == *b && same_number(*q, *r) && *v == *w,
        (Deed::Read { elem: a, .. }, Deed::Read { elem: b, .. })
        | (Deed::Send { elem: a, .. }, Deed::Send { elem: b, .. })
        | (Deed::Receive { elem: a, .. }, Deed::Receive { elem: b, .. })
        | (Deed::Ask { point: a, .. }, Deed::Ask { point: b, .. })
        | (Deed::Answer { point: a, .. }, Deed::Answer { point: b, .. })
        | (Deed::TakeResult { point: a, .. }, Deed::TakeResult { point: b, .. }) => {
            *a == *b && same_answer(one, other)
        }
        (Deed::Return { .. }, Deed::Return { .. }) => same_answer(one, other),
        _ => same_listed(one, other),
    }
}

/// Whether both deeds are the same.
pub(crate) fn same_deed(one: &Deed, other: &Deed) -> bool
    ensures { result ≡ same_deed one.now other.now }
{
    match (one, other) {
        (Deed::Tick, Deed::Tick) | (Deed::End, Deed::End) => true,
        (Deed::Admit { yes: y }, Deed::Admit { yes: z }) => *y == *z,
        (Deed::Fetch { elem: a, value: v }, Deed::Fetch { elem: b, value: w })
        | (Deed::Write { elem: a, value: v }, Deed::Write { elem: b, value: w })
        | (Deed::Publish { elem: a, value: v }, Deed::Publish { elem: b, value: w }) => {
            *a == *b && *v == *w
        }
        (Deed::Invalidate { elem: a }, Deed::Invalidate { elem: b })
        | (Deed::Enter { area: a }, Deed::Enter { area: b })
        | (Deed::Leave { area: a }, Deed::Leave { area: b }) => *a == *b,
        (Deed::IsUpdated { elem: a, yes: y }, Deed::IsUpdated { elem: b, yes: z }) => {
            *a == *b && *y == *z
        }
        (
            Deed::Switch {
                machine: a,
                mode: m,
                code: c,
            },
            Deed::Switch {
                machine: b,
                mode: n,
                code: d,
            },
        ) => *a == *b && *m == *n && *c == *d,
        (Deed::Mode { port: a, mode: m }, Deed::Mode { port: b, mode: n }) => *a == *b && *m == *n,
        (Deed::Phase(a), Deed::Phase(b)) => same_step(*a, *b),
        _ => same_answered(one, other),
    }
}
