//! A mode machine with the plan's events that it starts or disables.

ghost use Rattle.std.specs.Prelude.{◌≡◌, ℕ, true, false, None, Some, slice_index_or};
ghost use Rattle.bus_semantics.specs.Common.{Contains, Plan, to_switch, to_see_mode, to_move_on, to_start, to_admit, to_end, wanted_of};
ghost use Rattle.object_kinds.specs.declared.acted.Shown.{Shown};
ghost use Rattle.object_kinds.specs.declared.acted.Filled.TheVariants as filled;
ghost use Rattle.object_kinds.specs.Common.{place, IsAnswerOf, acted};
ghost use Rattle.machine_objects.specs.Acting.{IsActed, IsEnded, IsTaken, admission_by};
ghost use Rattle.machine_objects.specs.Kept.{may_move, may_start};
ghost use Rattle.machine_objects.specs.Leading.{ended_at, lead, started_at, why_held, wakes};
ghost use Rattle.machine_objects.specs.Plans.{IsAskedOf, IsOfPlan};

use bus_semantics::{Actor, Deed, Entry, Wish};
use mode_machine::{Admitted, Advanced, Machine};
use object_kinds::{Filled, Shown, find};
use rte_value::Value;
use std::marker::Model;

/// A mode machine: by number the plan's SwcModeSwitchEvents and ModeSwitchedAckEvents of it and the events that it disables, each in
/// rising order and none both a switch and an acknowledgement event. `woken` has those of the events that the last phase or end made
/// pending, and room for all.
#[derive(Drop)]
pub struct MachineObject {
    pub(crate) owed: Vec<u32>,
    pub(crate) acks: Vec<u32>,
    pub(crate) disabled: Vec<u32>,
    pub(crate) machine: Machine,
    pub(crate) woken: Vec<u32>,
}

impl Model for MachineObject {
    ghost use Rattle.std.specs.Prelude.{◌≡◌, ◌≤◌, ◌+◌, length, true, is_none};
    ghost use Rattle.std.specs.List.{list_all};
    ghost use Rattle.std.specs.Vec.{vec_capacity};
    ghost use Rattle.object_kinds.specs.Layout.{place};
    ghost use Rattle.object_kinds.specs.Rising.{is_rising};
    ghost use Rattle.machine_objects.specs.Kept.{MachineState};

    ghost Value = { MachineState };

    ghost view = { λ o. record { kept = record { owed = o.owed.items; acks = o.acks.items; disabled = o.disabled.items; machine = o.machine }; woken = o.woken.items } };

    ghost invariant = { λ o. (is_rising o.owed.items ≡ true) × (is_rising o.acks.items ≡ true) × (is_rising o.disabled.items ≡ true) × (list_all (λ e. is_none (place e o.acks.items)) o.owed.items ≡ true) × (length o.machine.owed ≡ length o.owed.items) × (length o.machine.acks ≡ length o.acks.items) × (length o.machine.disablings ≡ length o.disabled.items) × (length o.owed.items + length o.acks.items ≤ vec_capacity o.woken) };
}

impl MachineObject {
    /// Fills in the entry of a wish on the machine, if one may come (SWS_RTE: Rte_Switch, Rte_Mode, mode switch procedure,
    /// SwcModeSwitchEvent, ModeSwitchedAckEvent, ModeDisablingDependency). The wish fits its actor and touches the machine. It takes no
    /// memory. `NotYet` changes nothing of the machine; for a phase it names the event of the plan that forbids it. Every entry but a phase
    /// or an end leaves the list of woken events as it was.
    pub fn act(&mut self, who: &Actor, wish: &Wish, out: &mut Entry) -> Filled
        ensures planned { (p : Plan) (object : ℕ) → IsAskedOf p object who.now (wanted_of wish.now) self.old.kept → IsOfPlan p object self.new.kept }
        ensures answer { (p : Plan) (object : ℕ) → IsAskedOf p object who.now (wanted_of wish.now) self.old.kept → IsAnswerOf p lead may_start why_held who.now (wanted_of wish.now) self.old.kept self.new.kept (acted result out.new) }
        ensures same { (shown : Shown) → result ≡ filled.NotYet shown → self.new ≡ self.old }
        ensures told { (event : ℕ) → may_start self.old.kept event ≡ false → may_start self.new.kept event ≡ true → Contains self.new.woken event }
        ensures only { result ≡ filled.Done → wakes out.new.deed ≡ true → (event : ℕ) → Contains self.new.woken event → (may_start self.old.kept event ≡ false) × (may_start self.new.kept event ≡ true) }
        ensures left { result ≡ filled.Done → wakes out.new.deed ≡ false → self.new.woken ≡ self.old.woken }
    {
        self.act_by_wish(who, wish, out)
    }

    /// Fills in the entry of a wish, by what it wants.
    fn act_by_wish(&mut self, who: &Actor, wish: &Wish, out: &mut Entry) -> Filled
        ensures { IsActed who.now (wanted_of wish.now) self.old self.new (acted result out.new) }
    {
        match wish {
            Wish::Switch { machine, mode } => self.switch(who, *machine, *mode, out),
            Wish::Mode { port } => self.see_mode(who, *port, out),
            Wish::Phase => self.move_on(who, out),
            Wish::Start { event } => self.start(who, *event, out),
            Wish::Admit { event } => self.admit(who, *event, out),
            Wish::End { event } => self.end(who, *event, out),
            _ => Filled::NotYet(Shown::Unmatched),
        }
    }

    /// Asks for a switch to a mode.
    fn switch(&mut self, who: &Actor, machine: u32, mode: u32, out: &mut Entry) -> Filled
        ensures { IsActed who.now (to_switch machine mode) self.old self.new (acted result out.new) }
    {
        let code = self.machine.switch(mode);
        *out = Entry {
            actor: *who,
            deed: Deed::Switch {
                machine,
                mode,
                code,
            },
        };
        Filled::Done
    }

    /// The mode at a port.
    fn see_mode(&self, who: &Actor, port: u32, out: &mut Entry) -> Filled
        ensures { IsActed who.now (to_see_mode port) self.now self.now (acted result out.new) }
    {
        *out = Entry {
            actor: *who,
            deed: Deed::Mode {
                port,
                mode: self.machine.mode(),
            },
        };
        Filled::Done
    }

    /// Makes the next phase, if it may come.
    fn move_on(&mut self, who: &Actor, out: &mut Entry) -> Filled
        ensures { IsActed who.now to_move_on self.old self.new (acted result out.new) }
    {
        match self.machine.advance(self.owed.as_slice(), self.acks.as_slice(), &mut self.woken) {
            Advanced::Did(step) => {
                *out = Entry {
                    actor: *who,
                    deed: Deed::Phase(step),
                };
                Filled::Done
            }
            Advanced::NoSwitch => Filled::NotYet(Shown::NoSwitch),
            Advanced::Running(place) => {
                Filled::NotYet(Shown::Running(event_at(self.disabled.as_slice(), place)))
            }
            Advanced::Owed(place) => {
                Filled::NotYet(Shown::Owed(event_at(self.owed.as_slice(), place)))
            }
        }
    }

    /// The start by an event, if it is due and no activation by it runs.
    fn start(&mut self, who: &Actor, event: u32, out: &mut Entry) -> Filled
        ensures { IsActed who.now (to_start event) self.old self.new (acted result out.new) }
    {
        if self.take_start(event) {
            *out = Entry {
                actor: *who,
                deed: Deed::Start {
                    event,
                    point: None,
                    value: Value::empty(),
                },
            };
            Filled::Done
        } else {
            Filled::NotYet(Shown::NotDue(event))
        }
    }

    /// Whether a start by an event could come; then it is no longer pending.
    fn take_start(&mut self, event: u32) -> bool
        ensures { IsTaken result self.old self.new (started_at self.old.kept.machine (place event self.old.kept.owed) (place event self.old.kept.acks)) }
    {
        match find(self.owed.as_slice(), event) {
            Some(place) => self.machine.start_owed(place),
            None => self.take_ack(event),
        }
    }

    /// Whether an acknowledgement event was pending; then it is no longer.
    fn take_ack(&mut self, event: u32) -> bool
        ensures { IsTaken result self.old self.new (started_at self.old.kept.machine None (place event self.old.kept.acks)) }
    {
        match find(self.acks.as_slice(), event) {
            Some(place) => self.machine.start_ack(place),
            None => false,
        }
    }

    /// Admits the activation by an event that modes may disable, or drops it, unless an admitted one runs.
    fn admit(&mut self, who: &Actor, event: u32, out: &mut Entry) -> Filled
        ensures { IsActed who.now (to_admit event) self.old self.new (acted result out.new) }
    {
        match find(self.disabled.as_slice(), event) {
            Some(place) => admission(who, self.machine.admit(place), out),
            None => Filled::NotYet(Shown::Unmatched),
        }
    }

    /// Ends the activation by an event, if one runs.
    fn end(&mut self, who: &Actor, event: u32, out: &mut Entry) -> Filled
        ensures { IsActed who.now (to_end event) self.old self.new (acted result out.new) }
    {
        if self.take_end(event) {
            *out = Entry {
                actor: *who,
                deed: Deed::End,
            };
            Filled::Done
        } else {
            Filled::NotYet(Shown::Unmatched)
        }
    }

    /// Whether an activation by an event ran; then it has ended.
    fn take_end(&mut self, event: u32) -> bool
        ensures { IsEnded result self.old self.new (ended_at self.old.kept.machine (place event self.old.kept.owed) (place event self.old.kept.disabled)) }
    {
        match find(self.owed.as_slice(), event) {
            Some(place) => self.end_owed(place, event),
            None => self.end_disabled(event),
        }
    }

    /// Whether an activation by the mode switch event at a place ran; then it has ended, and the event is told if it is due again.
    fn end_owed(&mut self, at: u32, event: u32) -> bool
        requires { place event self.old.kept.owed ≡ Some at }
        ensures { IsEnded result self.old self.new (ended_at self.old.kept.machine (Some at) None) }
    {
        let has_ended = self.machine.end_owed(at);
        if has_ended {
            self.woken.clear();
            if self.machine.is_due(at) {
                self.woken.push_reserved(event);
            }
        }
        has_ended
    }

    /// Whether an admitted activation by an event that modes may disable ran; then it has ended.
    fn end_disabled(&mut self, event: u32) -> bool
        ensures { IsEnded result self.old self.new (ended_at self.old.kept.machine None (place event self.old.kept.disabled)) }
    {
        let has_ended = match find(self.disabled.as_slice(), event) {
            Some(place) => self.machine.end_admitted(place),
            None => false,
        };
        if has_ended {
            self.woken.clear();
        }
        has_ended
    }

    /// Whether a start by an event may come: it is due, and no activation by it runs that a phase owes.
    pub fn may_start(&self, event: u32) -> bool
        ensures { result ≡ may_start self.now.kept event }
    {
        if let Some(place) = find(self.owed.as_slice(), event) {
            return self.machine.is_due(place);
        }
        match find(self.acks.as_slice(), event) {
            Some(place) => self.machine.is_ack_due(place),
            None => false,
        }
    }

    /// Whether a phase may come.
    pub fn may_move(&self) -> bool
        ensures { result ≡ may_move self.now.kept }
    {
        self.machine.may_advance()
    }

    /// The events that the last phase or end made pending, by number: each that it made pending, and no other.
    pub fn woken(&self) -> &[u32]
        ensures { result.now ≡ self.now.woken }
    {
        self.woken.as_slice()
    }
}

/// The event at a place, 0 past the end.
fn event_at(events: &[u32], place: u32) -> u32
    ensures { result ≡ slice_index_or events.now place 0 }
{
    match events.get(place as usize) {
        Some(event) => *event,
        None => 0,
    }
}

/// Fills in the entry of an admission, if it may come.
fn admission(who: &Actor, admitted: Admitted, out: &mut Entry) -> Filled
    ensures { acted result out.new ≡ admission_by who.now admitted }
{
    match admitted {
        Admitted::Yes => {
            *out = Entry {
                actor: *who,
                deed: Deed::Admit { yes: true },
            };
            Filled::Done
        }
        Admitted::No => {
            *out = Entry {
                actor: *who,
                deed: Deed::Admit { yes: false },
            };
            Filled::Done
        }
        Admitted::Runs => Filled::NotYet(Shown::Unmatched),
    }
}
