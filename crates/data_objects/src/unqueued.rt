//! A group of joined unqueued data elements.

ghost use Rattle.std.specs.Prelude.{◌≡◌, ◌<◌, ◌≤◌, ◌+◌, ◌⊎◌, ℕ, count_by, false, length, not, IfOk, slice_get, Some, is_some};
ghost use Rattle.bus_semantics.specs.Common.{Contains, vec_capacity};
ghost use Rattle.data_objects.specs.Flags.{IsOfClear};
ghost use Rattle.data_objects.specs.KeptValues.{fresh, after_write, after_invalidation, after_read, after_start, value_for};

use crate::Memory;
use crate::flags::Flags;
use object_kinds::only_word;
use rte_value::Value;
use std::alloc::Global;
use std::marker::Model;

/// What joined unqueued data elements keep: the last value, and who has not seen it yet (SWS_RTE: explicit and implicit
/// communication by `standard` elements).
///
/// A receiver is a position in the list of initial values, an event one in the list of events. Only `new` takes memory.
#[derive(Drop)]
pub struct Unqueued {
    inits: Vec<Value>,
    events: Vec<u32>,
    stored: Option<Value>,
    invalid: bool,
    updated: Flags,
    due: Flags,
}

impl Model for Unqueued {
    ghost use Rattle.std.specs.Prelude.{◌≡◌, length};
    ghost use Rattle.data_objects.specs.KeptValues.{Kept};

    ghost Value = { Kept };

    ghost view = { λ u. record { inits = u.inits.items; events = u.events.items; stored = u.stored; invalid = u.invalid; updated = u.updated; due = u.due } };

    ghost invariant = { λ u. (length u.updated ≡ length u.inits.items) × (length u.due ≡ length u.events.items) };
}

/// Keeps a value in the place of what is there. One of one word is made anew there, for less than it takes to copy the room of 16.
fn keep(stored: &mut Option<Value>, value: &Value)
    ensures { stored.new ≡ Some value.now }
{
    match only_word(value) {
        Some(word) => *stored = Some(Value::of_word(word)),
        None => *stored = Some(*value),
    }
}

impl Unqueued {
    /// A group to which nothing has happened, with the initial value of each receiver and, for each DataReceivedEvent, its
    /// receiver. The only error is that there is no memory for the flags.
    pub fn new(alloc: Global, inits: Vec<Value>, events: Vec<u32>) -> Result<Unqueued, Memory>
        ensures { IfOk result (λ u. u ≡ fresh inits.items events.items) }
    {
        let updated = Flags::all_clear(alloc, inits.len())?;
        let due = Flags::all_clear(alloc, events.len())?;
        Ok(Unqueued {
            inits,
            events,
            stored: None,
            invalid: false,
            updated,
            due,
        })
    }

    /// Stores a value that a provider writes (Rte_Write, Rte_IrvWrite). The call costs as much as there are receivers not updated
    /// and events not pending.
    pub fn write(&mut self, value: &Value)
        ensures kept { self.new ≡ after_write value.now self.old }
    {
        keep(&mut self.stored, value);
        self.invalid = false;
        self.updated.set_all();
        self.due.set_all();
    }

    /// Stores a value that a provider wrote implicitly, at the end of its activation (Rte_IWrite, Rte_IrvIWrite).
    pub fn publish(&mut self, value: &Value)
        ensures kept { self.new ≡ after_write value.now self.old }
    {
        self.write(value);
    }

    /// Stores a value as `write` does. The list is cleared, and then has the names of the events that were not pending before, and
    /// no others; each event has a name, at its place in the list of names.
    pub fn write_and_tell(&mut self, value: &Value, names: &[u32], woken: &mut Vec<u32>)
        requires named { length names.now ≡ length self.old.events }
        requires room { length self.old.events ≤ vec_capacity woken.old }
        ensures kept { self.new ≡ after_write value.now self.old }
        ensures woken { (event name : ℕ) → slice_get self.old.due event ≡ Some false → slice_get names.now event ≡ Some name → Contains woken.new.items name }
        ensures only { (name : ℕ) → Contains woken.new.items name → IsOfClear self.old.due names.now name }
        ensures capacity { vec_capacity woken.new ≡ vec_capacity woken.old }
    {
        keep(&mut self.stored, value);
        self.invalid = false;
        self.updated.set_all();
        woken.clear();
        self.due.set_and_tell(names, woken);
    }

    /// Stores a value as `publish` does. What is woken is as after `write_and_tell`.
    pub fn publish_and_tell(&mut self, value: &Value, names: &[u32], woken: &mut Vec<u32>)
        requires named { length names.now ≡ length self.old.events }
        requires room { length self.old.events ≤ vec_capacity woken.old }
        ensures kept { self.new ≡ after_write value.now self.old }
        ensures woken { (event name : ℕ) → slice_get self.old.due event ≡ Some false → slice_get names.now event ≡ Some name → Contains woken.new.items name }
        ensures only { (name : ℕ) → Contains woken.new.items name → IsOfClear self.old.due names.now name }
        ensures capacity { vec_capacity woken.new ≡ vec_capacity woken.old }
    {
        self.write_and_tell(value, names, woken)
    }

    /// Stores a value as `publish` does, and appends the names of the events that were not pending before to those in the list.
    pub fn publish_and_add(&mut self, value: &Value, names: &[u32], woken: &mut Vec<u32>)
        requires named { length names.now ≡ length self.old.events }
        requires room { length woken.old.items + count_by not self.old.due ≤ vec_capacity woken.old }
        ensures kept { self.new ≡ after_write value.now self.old }
        ensures woken { (event name : ℕ) → slice_get self.old.due event ≡ Some false → slice_get names.now event ≡ Some name → Contains woken.new.items name }
        ensures stayed { (name : ℕ) → Contains woken.old.items name → Contains woken.new.items name }
        ensures only { (name : ℕ) → Contains woken.new.items name → Contains woken.old.items name ⊎ IsOfClear self.old.due names.now name }
        ensures room { length woken.new.items + count_by not self.new.due ≤ length woken.old.items + count_by not self.old.due }
        ensures capacity { vec_capacity woken.new ≡ vec_capacity woken.old }
    {
        keep(&mut self.stored, value);
        self.invalid = false;
        self.updated.set_all();
        self.due.set_and_tell(names, woken);
    }

    /// The value of a receiver, where it lies: the last one that was written or published, else the receiver's initial value.
    pub fn value(&self, receiver: u32) -> &Value
        requires { receiver < length self.now.inits }
        ensures { Some result.now ≡ value_for receiver self.now }
    {
        match &self.stored {
            Some(value) => value,
            None => &self.inits[receiver as usize],
        }
    }

    /// Whether something was written or published.
    pub fn is_written(&self) -> bool
        ensures { result ≡ is_some self.now.stored }
    {
        self.stored.is_some()
    }

    /// Whether the last write, publication or invalidation is an invalidation.
    pub fn is_invalid(&self) -> bool
        ensures { result ≡ self.now.invalid }
    {
        self.invalid
    }

    /// Marks the group as invalid (Rte_Invalidate). No value, update flag or pending event changes.
    pub fn invalidate(&mut self)
        ensures { self.new ≡ after_invalidation self.old }
    {
        self.invalid = true;
    }

    /// A receiver has read its value, so its update flag is cleared (Rte_Read, Rte_IrvRead).
    pub fn note_read(&mut self, receiver: u32)
        requires { receiver < length self.old.inits }
        ensures { self.new ≡ after_read receiver self.old }
    {
        self.updated.clear(receiver as usize);
    }

    /// The value of a receiver, for an activation that reads implicitly (Rte_IRead, Rte_IrvIRead). It clears no update flag.
    pub fn fetch(&self, receiver: u32) -> Value
        requires { receiver < length self.now.inits }
        ensures { Some result ≡ value_for receiver self.now }
    {
        *self.value(receiver)
    }

    /// Whether something was written or published since the receiver's last read (Rte_IsUpdated).
    pub fn is_updated(&self, receiver: u32) -> bool
        requires { receiver < length self.now.inits }
        ensures { Some result ≡ slice_get self.now.updated receiver }
    {
        self.updated.is_set(receiver as usize)
    }

    /// Whether the event is pending.
    pub fn is_due(&self, event: u32) -> bool
        requires { event < length self.now.events }
        ensures { Some result ≡ slice_get self.now.due event }
    {
        self.due.is_set(event as usize)
    }

    /// Whether the event was pending; then it is no longer.
    pub fn start(&mut self, event: u32) -> bool
        requires { event < length self.old.events }
        ensures pending { Some result ≡ slice_get self.old.due event }
        ensures kept { self.new ≡ after_start event self.old }
    {
        let is_pending = self.due.is_set(event as usize);
        self.due.clear(event as usize);
        is_pending
    }
}
