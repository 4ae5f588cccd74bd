//! What may come of its own along a trace, if no activation runs: starts by events of tasks, and phases of machines.

ghost use Rattle.std.specs.Prelude.{◌≡◌, ◌<◌, ℕ, List, length, true, false, IfOk, slice_index_or, slice_get, set, Some};
ghost use Rattle.bus_semantics.specs.Common.{Contains, plan_of};
ghost use Rattle.port_objects.specs.declared.object.Object.{Object};
ghost use Rattle.trace_objects.specs.Unrest.{AreAmong, IsLed, PhasesAmong, StartsAmong};

use bus_semantics::{BusPlan, Deed};
use place_set::PlaceSet;
use port_objects::{Object, machine_of, other_entries_wake_nothing, wakes, woken};
use rte_text::Memory;
use std::alloc::Global;

/// What may come of its own along a trace: the events of tasks by which a start may come (SWS_RTE: activation of runnables), and the
/// machines of which a phase may. What is not among these is held by its object; what is among these may be held too. It takes no
/// memory once it is made.
#[derive(Drop)]
pub struct Unrest {
    /// By the number of the event.
    pub(crate) events: PlaceSet,
    /// By the number of the machine.
    pub(crate) machines: PlaceSet,
}

/// Puts these numbers into a set of numbers below `len`.
fn insert_all(numbers: &[u32], len: usize, set: &mut PlaceSet)
    requires { len ≡ length set.old }
    ensures count { length set.new ≡ length set.old }
    ensures kept { (n : ℕ) → slice_index_or set.new n false ≡ false → slice_index_or set.old n false ≡ false }
    ensures inserted { (n : ℕ) → n < length set.old → Contains numbers.now n → slice_index_or set.new n false ≡ true }
{
    for number in numbers {
        let place = *number as usize;
        if place < len {
            set.insert(place);
        }
    }
}

/// Puts the starts that an entry made come on this object among the others.
fn note_starts(p: &BusPlan, object: &Object, deed: &Deed, events: &mut PlaceSet)
    requires { length events.old ≡ length (plan_of p.now).events }
    ensures { (number : ℕ) (before : Object) (objects : List Object) → IsLed (plan_of p.now) number before object.now deed.now → slice_get objects number ≡ Some before →
        StartsAmong (plan_of p.now) objects events.old → StartsAmong (plan_of p.now) (set objects number object.now) events.new }
{
    other_entries_wake_nothing();
    if wakes(deed) {
        insert_all(woken(object), p.events.len(), events);
    }
}

/// Puts the machine whose object has this number, if it is one's, among the others.
fn note_phase(p: &BusPlan, object: u32, machines: &mut PlaceSet)
    requires { length machines.old ≡ length (plan_of p.now).machines }
    ensures { (now : Object) (objects : List Object) → PhasesAmong (plan_of p.now) objects machines.old →
        PhasesAmong (plan_of p.now) (set objects object now) machines.new }
{
    if let Some(machine) = machine_of(p, object) {
        if machine < p.machines.len() {
            machines.insert(machine);
        }
    }
}

impl Unrest {
    /// All events and all machines of a plan. An error says that there was no memory.
    pub fn new(alloc: Global, p: &BusPlan) -> Result<Unrest, Memory>
        ensures { IfOk result (λ unrest. (objects : List Object) → AreAmong (plan_of p.now) objects unrest) }
    {
        let events = PlaceSet::full(alloc, p.events.len())?;
        let machines = PlaceSet::full(alloc, p.machines.len())?;
        Ok(Unrest { events, machines })
    }

    /// Puts what an entry of this deed may have made come, on the object of this number, among the others. The object keeps already what
    /// it keeps after the entry.
    pub(crate) fn note(&mut self, p: &BusPlan, number: u32, object: &Object, deed: &Deed)
        requires { (objects : List Object) × AreAmong (plan_of p.now) objects self.old }
        ensures { (before : Object) (objects : List Object) → IsLed (plan_of p.now) number before object.now deed.now → slice_get objects number ≡ Some before →
            AreAmong (plan_of p.now) objects self.old → AreAmong (plan_of p.now) (set objects number object.now) self.new }
    {
        note_starts(p, object, deed, &mut self.events);
        note_phase(p, number, &mut self.machines);
    }
}
