//! The clock with the plan's events that wait for it.

ghost use Rattle.std.specs.Prelude.{◌≡◌, ℕ, true, false, is_some, unwrap_or};
ghost use Rattle.bus_semantics.specs.Common.{Contains, Plan, to_start, to_tick, wanted_of};
ghost use Rattle.bus_semantics.specs.declared.entries.Actor.{Actor};
ghost use Rattle.bus_semantics.specs.declared.entries.Deed.TheVariants.{Tick};
ghost use Rattle.object_kinds.specs.declared.acted.Shown.{Shown};
ghost use Rattle.object_kinds.specs.declared.acted.Acted.TheVariants.{Done};
ghost use Rattle.object_kinds.specs.declared.acted.Filled.TheVariants as filled;
ghost use Rattle.object_kinds.specs.Kinds.{IsAnswerOf, acted};
ghost use Rattle.clock_objects.specs.Kept.{may_start};
ghost use Rattle.clock_objects.specs.Leading.{after_start, after_tick, lead, why_held};
ghost use Rattle.clock_objects.specs.Plans.{IsOfPlan};

use bus_semantics::{Actor, Deed, Entry, Wish};
use object_kinds::{Filled, Shown, find};
use rte_value::Value;
use std::marker::Model;
use tick_events::Clock;

/// The clock, and by number the plan's TimingEvents and InitEvents, each in rising order. `woken` has the TimingEvents that
/// the last tick made pending, also by number, and room for all.
#[derive(Drop)]
pub struct Ticks {
    pub(crate) timings: Vec<u32>,
    pub(crate) inits: Vec<u32>,
    pub(crate) clock: Clock,
    pub(crate) woken: Vec<u32>,
}

impl Model for Ticks {
    ghost use Rattle.std.specs.Prelude.{◌≡◌, ◌≤◌, length, true};
    ghost use Rattle.std.specs.Vec.{vec_capacity};
    ghost use Rattle.object_kinds.specs.Rising.{is_rising};
    ghost use Rattle.clock_objects.specs.Kept.{TicksState};

    ghost Value = { TicksState };

    ghost view = { λ t. record { kept = record { timings = t.timings.items; inits = t.inits.items; clock = t.clock }; woken = t.woken.items } };

    ghost invariant = { λ t. (is_rising t.timings.items ≡ true) × (is_rising t.inits.items ≡ true) × (length t.clock.timers ≡ length t.timings.items)
        × (length t.clock.unstarted ≡ length t.inits.items) × (length t.timings.items ≤ vec_capacity t.woken) };
}

impl Ticks {
    /// Fills in the entry of a wish on the clock, if one may come: a tick, or the start by a TimingEvent or InitEvent. It takes no memory.
    /// `NotYet` changes nothing of the clock.
    pub fn act(&mut self, who: &Actor, wish: &Wish, out: &mut Entry) -> Filled
        requires planned { (p : Plan) × (object : ℕ) × IsOfPlan p object self.old.kept }
        ensures planned { (p : Plan) (object : ℕ) → IsOfPlan p object self.old.kept → IsOfPlan p object self.new.kept }
        ensures answer { (p : Plan) (object : ℕ) → IsOfPlan p object self.old.kept → IsAnswerOf p lead may_start why_held who.now (wanted_of wish.now) self.old.kept self.new.kept (acted result out.new) }
        ensures same { (shown : Shown) → result ≡ filled.NotYet shown → self.new ≡ self.old }
        ensures told { (event : ℕ) → may_start self.old.kept event ≡ false → may_start self.new.kept event ≡ true → Contains self.new.woken event }
        ensures only { (event : ℕ) → wanted_of wish.now ≡ to_tick → Contains self.new.woken event → (may_start self.old.kept event ≡ false) × (may_start self.new.kept event ≡ true) }
    {
        match wish {
            Wish::Tick => {
                self.tick();
                *out = Entry {
                    actor: *who,
                    deed: Deed::Tick,
                };
                Filled::Done
            }
            Wish::Start { event } => self.start(who, *event, out),
            _ => Filled::NotYet(Shown::Unmatched),
        }
    }

    /// A tick of the clock (SWS_RTE: TimingEvent): what a wish of it makes, without the entry. It takes no memory.
    pub fn tick(&mut self)
        ensures answer { (p : Plan) (a : Actor) →
            IsAnswerOf p lead may_start why_held a to_tick self.old.kept self.new.kept (Done (record { actor = a; deed = Tick })) }
        ensures planned { (p : Plan) (object : ℕ) → IsOfPlan p object self.old.kept → IsOfPlan p object self.new.kept }
        ensures kept { self.new.kept ≡ after_tick self.old.kept }
        ensures told { (event : ℕ) → may_start self.old.kept event ≡ false → may_start self.new.kept event ≡ true → Contains self.new.woken event }
        ensures only { (event : ℕ) → Contains self.new.woken event → (may_start self.old.kept event ≡ false) × (may_start self.new.kept event ≡ true) }
    {
        self.clock
            .tick_and_tell(self.timings.as_slice(), &mut self.woken);
    }

    /// The start by an event for the actor, if it is pending.
    fn start(&mut self, who: &Actor, event: u32, out: &mut Entry) -> Filled
        ensures answer { (p : Plan) (object : ℕ) → IsOfPlan p object self.old.kept → IsAnswerOf p lead may_start why_held who.now (to_start event) self.old.kept self.new.kept (acted result out.new) }
        ensures kept { self.new.kept ≡ unwrap_or (after_start self.old.kept event) self.old.kept }
        ensures same { (shown : Shown) → result ≡ filled.NotYet shown → self.new ≡ self.old }
    {
        if self.take_start(event) {
            *out = Entry {
                actor: *who,
                deed: Deed::Start {
                    event,
                    point: None,
                    value: Value::empty(),
                },
            };
            Filled::Done
        } else {
            Filled::NotYet(Shown::NotDue(event))
        }
    }

    /// Whether a start by an event was pending; then it is no longer.
    fn take_start(&mut self, event: u32) -> bool
        ensures pending { result ≡ is_some (after_start self.old.kept event) }
        ensures kept { self.new.kept ≡ unwrap_or (after_start self.old.kept event) self.old.kept }
        ensures woken { self.new.woken ≡ self.old.woken }
    {
        match find(self.timings.as_slice(), event) {
            Some(place) => self.clock.start_timing(place),
            None => match find(self.inits.as_slice(), event) {
                Some(place) => self.clock.start_init(place),
                None => false,
            },
        }
    }

    /// Whether a start by an event is pending.
    pub fn may_start(&self, event: u32) -> bool
        ensures { result ≡ may_start self.now.kept event }
    {
        match find(self.timings.as_slice(), event) {
            Some(place) => self.clock.is_timing_due(place),
            None => match find(self.inits.as_slice(), event) {
                Some(place) => self.clock.is_init_due(place),
                None => false,
            },
        }
    }

    /// The events that the last tick made pending, by number: exactly those. A start changes nothing of them.
    pub fn woken(&self) -> &[u32]
        ensures { result.now ≡ self.now.woken }
    {
        self.woken.as_slice()
    }
}
