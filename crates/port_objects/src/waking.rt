//! Which starts an object allows, which entries can make one come, and which starts the last entry can have made come.

ghost use Rattle.std.specs.Prelude.{◌≡◌, ℕ, true, false, None, Some, unwrap_or};
ghost use Rattle.bus_semantics.specs.Common.{ActKey, wish_fits, object_of, to_hear, wanted_by, Plan, Noted};
ghost use Rattle.bus_semantics.specs.declared.entries.Actor.TheVariants.{Act};
ghost use Rattle.object_kinds.specs.Kinds.{IsPlainStart};
ghost use Rattle.port_objects.specs.Kept.{Kept};
ghost use Rattle.port_objects.specs.Leading.{lead};
ghost use Rattle.port_objects.specs.Objects.{kept_of};
ghost use Rattle.port_objects.specs.Waking.{heard_in, may_hear_in, may_start_in, wakes, woken_in};

use crate::object::Object;
use bus_semantics::Deed;

/// Whether a start by an event may come on an object, for an activation that serves no single point (SWS_RTE: activation of
/// runnables). It changes nothing.
pub fn may_start(object: &Object, event: u32) -> bool
    ensures { result ≡ may_start_in (kept_of object.now) event }
{
    match object {
        Object::Unqueued(group) => group.may_start(event),
        Object::Bundle(bundle) => bundle.may_start(event),
        Object::Queued(group) => group.may_start(event),
        Object::Server(server) => server.may_start(event),
        Object::Area(_) => false,
        Object::Machine(machine) => machine.may_start(event),
        Object::Clock(ticks) => ticks.may_start(event),
    }
}

/// The events, by number, that the last entry which can make a start come made pending on an object (SWS_RTE: activation of
/// runnables): DataReceivedEvents of a group or a bundle, OperationInvokedEvents and AsynchronousServerCallReturnsEvents of a server,
/// SwcModeSwitchEvents and ModeSwitchedAckEvents of a machine, TimingEvents of the clock, none of an area. Each start that the last entry
/// made come is by one of them; no clause says that there are no others among them. It changes nothing.
pub fn woken(object: &Object) -> &[u32]
    ensures { result.now ≡ woken_in object.now }
{
    match object {
        Object::Unqueued(group) => group.woken(),
        Object::Bundle(bundle) => bundle.woken(),
        Object::Queued(group) => group.woken(),
        Object::Server(server) => server.woken(),
        Object::Area(_) => &[],
        Object::Machine(machine) => machine.woken(),
        Object::Clock(ticks) => ticks.woken(),
    }
}

/// The point to which the last Return on an object went (SWS_RTE: Rte_Call): if the last entry made an Answer come, it is at this one.
pub fn heard(object: &Object) -> Option<u32>
    ensures { result ≡ heard_in object.now }
{
    match object {
        Object::Server(server) => server.heard(),
        _ => None,
    }
}

/// Whether an entry of a deed can make a start come (SWS_RTE: activation of runnables): new data, a tick, a request, what ends one, and
/// what moves a machine on.
pub fn wakes(deed: &Deed) -> bool
    ensures { result ≡ wakes deed.now }
{
    match deed {
        Deed::Write { .. }
        | Deed::Publish { .. }
        | Deed::PublishAll { .. }
        | Deed::Send { .. }
        | Deed::Tick
        | Deed::Ask { .. }
        | Deed::Return { .. }
        | Deed::Phase(_)
        | Deed::End => true,
        _ => false,
    }
}

/// If an object allows no plain start by an event, no such start leads on.
pub fn held_starts_lead_nowhere()
    ensures { (p : Plan) (object : ℕ) (k : Kept) (event : ℕ) (n : Noted) → may_start_in k event ≡ false → IsPlainStart event n → lead p object k n ≡ None }
{
    data_objects::starts_go_by_flags();
    queue_objects::starts_go_by_flags();
    server_objects::starts_go_by_flags();
    area_objects::starts_go_by_flags();
    machine_objects::starts_go_by_flags();
    clock_objects::starts_go_by_flags();
    bundle_objects::starts_go_by_flags();
}

/// An entry that cannot make a start come leaves each start that an object does not allow so.
pub fn other_entries_wake_nothing()
    ensures { (p : Plan) (object : ℕ) (before after : Kept) (n : Noted) → lead p object before n ≡ Some after →
        wakes n.entry.deed ≡ false → (event : ℕ) → may_start_in before event ≡ false → may_start_in after event ≡ false }
{
    data_objects::other_entries_wake_nothing();
    queue_objects::other_entries_wake_nothing();
    server_objects::other_entries_wake_nothing();
    area_objects::other_entries_wake_nothing();
    machine_objects::other_entries_wake_nothing();
    clock_objects::other_entries_wake_nothing();
    bundle_objects::other_entries_wake_nothing();
}

/// An Answer at a point comes exactly if its object allows it (SWS_RTE: Rte_Call): if not, none leads on; and if none of an activation
/// for which it fits leads on, the object does not allow it.
pub fn answers_go_by_flags()
    ensures held { (p : Plan) (object : ℕ) (k : Kept) (n : Noted) (point : ℕ) → wanted_by (unwrap_or n.event 0) n.entry.deed ≡ to_hear point → may_hear_in k point ≡ false → lead p object k n ≡ None }
    ensures comes { (p : Plan) (object point : ℕ) (k : Kept) (a : ActKey) → wish_fits p (Act a) (to_hear point) ≡ true → object_of p (Act a) (to_hear point) ≡ Some object
        → ((n : Noted) → n.entry.actor ≡ Act a → wanted_by (unwrap_or n.event 0) n.entry.deed ≡ to_hear point → lead p object k n ≡ None) → may_hear_in k point ≡ false }
{}
