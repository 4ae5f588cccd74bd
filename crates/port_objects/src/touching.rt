//! The object that an entry touches.

ghost use Rattle.std.specs.Prelude.{◌≡◌, ◌+◌, ℕ, IfSome, Some, option_and_then};
ghost use Rattle.bus_semantics.specs.declared.entries.Actor.{Actor};
ghost use Rattle.bus_semantics.specs.Common.{Plan, plan_of, wanted_of, first_machine, object_of, touched_by, IsObject};

use bus_semantics::{BusPlan, Deed, Entry, Wish, object_of};
use rte_value::Value;

/// The object that an entry touches, if it touches one. `event` is the one that started the activation, for an admission and an
/// end; without it they touch none. The object has to be one of the plan's, as it is if the plan is sound and the entry fits.
pub fn touched_object(p: &BusPlan, entry: &Entry, event: Option<u32>) -> Option<u32>
    requires within { IfSome (touched_by (plan_of p.now) (record { entry = entry.now; event = event })) (IsObject (plan_of p.now)) }
    ensures { result ≡ touched_by (plan_of p.now) (record { entry = entry.now; event = event }) }
{
    match &entry.deed {
        Deed::Fetch { elem, .. }
        | Deed::Write { elem, .. }
        | Deed::Read { elem, .. }
        | Deed::Invalidate { elem }
        | Deed::IsUpdated { elem, .. }
        | Deed::Send { elem, .. }
        | Deed::Receive { elem, .. }
        | Deed::Publish { elem, .. } => p.bundle_of(*elem),
        Deed::Start { event, .. } => object_of(p, &entry.actor, &Wish::Start { event: *event }),
        Deed::Ask { point, .. } | Deed::Answer { point, .. } | Deed::TakeResult { point, .. } => {
            object_of(p, &entry.actor, &Wish::Answer { point: *point })
        }
        Deed::End => match event {
            Some(event) => object_of(p, &entry.actor, &Wish::End { event }),
            None => None,
        },
        _ => touched_by_wish(p, entry, event),
    }
}

/// The machine whose object has this number, if it is one's. Numbers behind the machines give one that there is not.
pub fn machine_of(p: &BusPlan, object: u32) -> Option<usize>
    ensures { (machine : ℕ) → object ≡ first_machine (plan_of p.now) + machine → result ≡ Some machine }
{
    let server = (object as usize).checked_sub(p.bundles.len())?;
    let area = server.checked_sub(p.servers.len())?;
    area.checked_sub(p.areas.len())
}

/// The object that an entry touches, found by a wish. (Apart from the rest, since room for a wish is taken at each call.)
#[inline(never)]
fn touched_by_wish(p: &BusPlan, entry: &Entry, event: Option<u32>) -> Option<u32>
    requires within { IfSome (touched_by (plan_of p.now) (record { entry = entry.now; event = event })) (IsObject (plan_of p.now)) }
    ensures { result ≡ touched_by (plan_of p.now) (record { entry = entry.now; event = event }) }
{
    match bare_wish(&entry.deed, event) {
        Some(wish) => object_of(p, &entry.actor, &wish),
        None => None,
    }
}

/// A wish without a value by which an actor touches what it touches by a deed. None for an admission and an end without their
/// event.
fn bare_wish(deed: &Deed, event: Option<u32>) -> Option<Wish>
    ensures { (p : Plan) (a : Actor) → touched_by p (record { entry = record { actor = a; deed = deed.now }; event = event }) ≡ option_and_then (λ wish. object_of p a (wanted_of wish)) result }
{
    let wish = match deed {
        Deed::Tick => Wish::Tick,
        Deed::Start { event, .. } => Wish::Start { event: *event },
        Deed::Admit { .. } => Wish::Admit { event: event? },
        Deed::End => Wish::End { event: event? },
        Deed::Fetch { elem, .. }
        | Deed::Write { elem, .. }
        | Deed::Read { elem, .. }
        | Deed::Invalidate { elem }
        | Deed::IsUpdated { elem, .. }
        | Deed::Send { elem, .. }
        | Deed::Receive { elem, .. }
        | Deed::Publish { elem, .. } => Wish::Fetch { elem: *elem },
        Deed::FetchAll { list, .. } | Deed::PublishAll { list, .. } => {
            Wish::FetchAll { list: *list }
        }
        Deed::Ask { point, .. } | Deed::Answer { point, .. } | Deed::TakeResult { point, .. } => {
            Wish::Answer { point: *point }
        }
        Deed::Return { .. } => Wish::Return {
            code: 0,
            value: Value::empty(),
        },
        Deed::Enter { area } | Deed::Leave { area } => Wish::Enter { area: *area },
        Deed::Switch { machine, .. } => Wish::Switch {
            machine: *machine,
            mode: 0,
        },
        Deed::Mode { port, .. } => Wish::Mode { port: *port },
        Deed::Phase(_) => Wish::Phase,
    };
    Some(wish)
}
