//! Whether a bus is at rest if no activation runs: the phases and starts of tasks that may come are tried.

ghost use Rattle.std.specs.Prelude.{◌≡◌, ◌<◌, ℕ, length, true, false, is_some, slice_get, Some};
ghost use Rattle.bus_semantics.specs.declared.script.Mapping.{Mapping};
ghost use Rattle.bus_semantics.specs.Common.{plan_of, queue_of, runnable_of_event, wanted_of, History, object_of, wish_fits, asks_its_own, IsLegal, IsSound, IsAtRest, none_runs};
ghost use Rattle.place_set.specs.Places.{NoneBetween};
ghost use Rattle.port_objects.specs.declared.object.Object.{Object};
ghost use Rattle.port_objects.specs.Objects.{ArePlans};
ghost use Rattle.trace_objects.specs.Standing.{ObjectsStand};
ghost use Rattle.trace_objects.specs.Resting.{Begins, Comes, IsPaused, Rests, Starts};
ghost use Rattle.trace_objects.specs.Unrest.{AreAmong, is_mapped, IsHeldBack, PhasesAmong, StartHeld, StartsAmong};

use crate::unrest::Unrest;
use bus_semantics::{Actor, BusPlan, EventKind, Wish};
use history_laws::{
    legal_histories_part_into_objects, running_activations_go_on, unjoined_points_return_nothing,
    what_comes_may_follow,
};
use place_set::PlaceSet;
use port_objects::{
    Acted, Object, act, held_starts_lead_nowhere, leads_miss_nothing, object_of,
    sound_plans_have_objects,
};
use rte_value::ActKey;

/// Whether an entry of a start or of a phase may come. If one may, it is made, and what the objects keep then is of no use.
fn comes(p: &BusPlan, objects: &mut Vec<Object>, who: &Actor, wish: &Wish) -> bool
    requires sound { (m : Mapping) × IsSound (plan_of p.now) m }
    requires planned { ArePlans (plan_of p.now) objects.old.items }
    requires fits { wish_fits (plan_of p.now) who.now (wanted_of wish.now) ≡ true }
    requires own { asks_its_own (plan_of p.now) who.now (wanted_of wish.now) ≡ true }
    ensures planned { ArePlans (plan_of p.now) objects.new.items }
    ensures same { result ≡ false → objects.new.items ≡ objects.old.items }
    ensures held { result ≡ false → (i : ℕ) (o : Object) → object_of (plan_of p.now) who.now (wanted_of wish.now) ≡ Some i → slice_get objects.old.items i ≡ Some o →
        IsHeldBack (plan_of p.now) i who.now (wanted_of wish.now) o }
    ensures comes { (m : Mapping) (h : History) → IsSound (plan_of p.now) m → IsLegal (plan_of p.now) h → ObjectsStand (plan_of p.now) h objects.old.items →
        Begins (plan_of p.now) h who.now (wanted_of wish.now) → Comes (plan_of p.now) h (who.now, wanted_of wish.now) result }
{
    sound_plans_have_objects();
    legal_histories_part_into_objects();
    what_comes_may_follow();
    unjoined_points_return_nothing();
    match object_of(p, who, wish) {
        Some(object) => match act(p, &mut objects[object as usize], who, wish) {
            Acted::Done(_) => true,
            Acted::NotYet(_) => false,
        },
        None => false,
    }
}

/// Whether no phase of these machines may come. Those of which none may are no longer among them.
fn no_phase_comes(p: &BusPlan, objects: &mut Vec<Object>, machines: &mut PlaceSet) -> bool
    requires sound { (m : Mapping) × IsSound (plan_of p.now) m }
    requires planned { ArePlans (plan_of p.now) objects.old.items }
    requires among { PhasesAmong (plan_of p.now) objects.old.items machines.old }
    ensures planned { ArePlans (plan_of p.now) objects.new.items }
    ensures same { result ≡ true → objects.new.items ≡ objects.old.items }
    ensures awake { result ≡ false → (m : Mapping) (h : History) → IsPaused (plan_of p.now) m h objects.old.items → IsAtRest (plan_of p.now) m h → ⊥ }
    ensures among { result ≡ true → PhasesAmong (plan_of p.now) objects.old.items machines.new }
    ensures none { result ≡ true → NoneBetween machines.new 0 (length machines.new) }
{
    let mut from = 0;
    while let Some(machine) = machines.next(from) {
        if comes(p, objects, &Actor::Machine(machine as u32), &Wish::Phase) {
            return false;
        }
        machines.remove(machine);
        from = machine + 1;
    }
    true
}

/// The runnable of an event.
fn runnable_of(p: &BusPlan, event: u32) -> Option<u32>
    ensures { result ≡ runnable_of_event (plan_of p.now) event }
{
    match p.events.items().get(event as usize) {
        Some(event) => Some(event.runnable),
        None => None,
    }
}

/// Whether a server has a queue.
fn has_queue(p: &BusPlan, server: u32) -> bool
    ensures { result ≡ is_some (queue_of (plan_of p.now) server) }
{
    match p.servers.items().get(server as usize) {
        Some(server) => server.queue.is_some(),
        None => false,
    }
}

/// Whether an event is in a task: a server's is only if it has a queue.
fn is_mapped(p: &BusPlan, event: u32) -> bool
    ensures { result ≡ is_mapped (plan_of p.now) event }
{
    match p.kind_of(event) {
        EventKind::Invoked(server) => has_queue(p, server),
        _ => true,
    }
}

/// Whether a start by an event of a task may come.
fn start_comes(p: &BusPlan, objects: &mut Vec<Object>, event: u32) -> bool
    requires sound { (m : Mapping) × IsSound (plan_of p.now) m }
    requires planned { ArePlans (plan_of p.now) objects.old.items }
    requires there { event < length (plan_of p.now).events }
    requires mapped { is_mapped (plan_of p.now) event ≡ true }
    ensures planned { ArePlans (plan_of p.now) objects.new.items }
    ensures same { result ≡ false → objects.new.items ≡ objects.old.items }
    ensures held { result ≡ false → StartHeld (plan_of p.now) objects.old.items event }
    ensures starts { (m : Mapping) (h : History) → IsPaused (plan_of p.now) m h objects.old.items → Starts (plan_of p.now) h event result }
{
    let Some(runnable) = runnable_of(p, event) else {
        return false;
    };
    running_activations_go_on();
    let key = ActKey {
        runnable,
        point: None,
    };
    comes(p, objects, &Actor::Act(key), &Wish::Start { event })
}

/// Whether an event is in a task and a start by it may come.
fn mapped_start_comes(p: &BusPlan, objects: &mut Vec<Object>, event: u32) -> bool
    requires sound { (m : Mapping) × IsSound (plan_of p.now) m }
    requires planned { ArePlans (plan_of p.now) objects.old.items }
    requires there { event < length (plan_of p.now).events }
    ensures planned { ArePlans (plan_of p.now) objects.new.items }
    ensures same { result ≡ false → objects.new.items ≡ objects.old.items }
    ensures held { result ≡ false → is_mapped (plan_of p.now) event ≡ true → StartHeld (plan_of p.now) objects.old.items event }
    ensures awake { result ≡ true → (m : Mapping) (h : History) → IsPaused (plan_of p.now) m h objects.old.items → IsAtRest (plan_of p.now) m h → ⊥ }
{
    running_activations_go_on();
    is_mapped(p, event) && start_comes(p, objects, event)
}

/// Whether no start by these events may come. Those by which none may, and those that are in no task, are no longer among them.
fn no_start_comes(p: &BusPlan, objects: &mut Vec<Object>, events: &mut PlaceSet) -> bool
    requires sound { (m : Mapping) × IsSound (plan_of p.now) m }
    requires planned { ArePlans (plan_of p.now) objects.old.items }
    requires among { StartsAmong (plan_of p.now) objects.old.items events.old }
    ensures planned { ArePlans (plan_of p.now) objects.new.items }
    ensures same { result ≡ true → objects.new.items ≡ objects.old.items }
    ensures awake { result ≡ false → (m : Mapping) (h : History) → IsPaused (plan_of p.now) m h objects.old.items → IsAtRest (plan_of p.now) m h → ⊥ }
    ensures among { result ≡ true → StartsAmong (plan_of p.now) objects.old.items events.new }
    ensures none { result ≡ true → NoneBetween events.new 0 (length events.new) }
{
    let mut from = 0;
    while let Some(event) = events.next(from) {
        if mapped_start_comes(p, objects, event as u32) {
            return false;
        }
        events.remove(event);
        from = event + 1;
    }
    true
}

/// Whether a bus is at rest if no activation runs: after a legal history for which the objects stand, no phase of a machine may
/// come and no start by an event of a task. Only what is among `unrest` is tried, each on its object; what does not come is among it no
/// longer, so that the next call tries only what entries made come since. If none comes, the objects have not changed; if one does, what
/// they keep then is of no use. It takes no memory.
pub fn may_rest(p: &BusPlan, objects: &mut Vec<Object>, unrest: &mut Unrest) -> bool
    requires sound { (m : Mapping) × IsSound (plan_of p.now) m }
    requires planned { ArePlans (plan_of p.now) objects.old.items }
    requires among { AreAmong (plan_of p.now) objects.old.items unrest.old }
    ensures planned { ArePlans (plan_of p.now) objects.new.items }
    ensures same { result ≡ true → objects.new.items ≡ objects.old.items }
    ensures among { result ≡ true → AreAmong (plan_of p.now) objects.new.items unrest.new }
    ensures rest { (m : Mapping) (h : History) → IsSound (plan_of p.now) m → IsLegal (plan_of p.now) h → none_runs (plan_of p.now) h ≡ true →
        ObjectsStand (plan_of p.now) h objects.old.items → Rests (plan_of p.now) m h result }
{
    running_activations_go_on();
    legal_histories_part_into_objects();
    unjoined_points_return_nothing();
    sound_plans_have_objects();
    held_starts_lead_nowhere();
    leads_miss_nothing();
    no_phase_comes(p, objects, &mut unrest.machines)
        && no_start_comes(p, objects, &mut unrest.events)
}
