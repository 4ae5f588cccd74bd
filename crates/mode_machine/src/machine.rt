//! A mode machine.

ghost use Rattle.std.specs.Prelude.{◌≡◌, ◌<◌, ◌≤◌, ◌+◌, ◌^◌, ◌⊎◌, ◌&&◌, ℕ, IfOk, IfSome, None, Some, false, if◌then◌else◌, length, map, replicate, set, slice_get, true};
ghost use Rattle.std.specs.List.{Contains};
ghost use Rattle.std.specs.Vec.{vec_capacity};
ghost use Rattle.mode_machine.specs.Disabling.{modes_in};
ghost use Rattle.mode_machine.specs.Kept.{IsAcknowledged, IsStartable, is_disabled, is_phase, is_stable, next_after, unless_owed, unless_running, after_admit, after_advance};
ghost use Rattle.mode_machine.specs.Kept.{after_end_admitted, after_owed, after_step, after_switch, answer_to_admit, answer_to_advance, answer_to_switch, dependency_at, fresh, is_acked};
ghost use Rattle.mode_machine.specs.Kept.{mode_of, owed_at, with_acks};
ghost use Rattle.mode_machine.specs.Owed.{after_end, after_owed_start, may_start};

use crate::Memory;
use crate::disabling::{Admitted, Disablings};
use crate::owed::ModeEvent;
use crate::telling::tell_acks;
use crate::tracked::TrackedEvents;
use circular_buffer::HeapCircularBuffer;
use rte_value::{Code, Step};
use std::alloc::Global;
use std::marker::Model;

/// RTE_E_OK.
const OK: Code = 0;

/// RTE_E_LIMIT: a switch was not accepted.
const LIMIT: Code = 130;

/// What an attempt to go on comes to.
#[derive(Clone, Copy)]
pub enum Advanced {
    /// The machine made this phase.
    Did(Step),
    /// The machine is stable, and no accepted switch waits.
    NoSwitch,
    /// An admitted activation runs by this event, the least one, which the next mode disables.
    Running(u32),
    /// The last phase owes this event, the least one, and it has not started and ended.
    Owed(u32),
}

/// What a mode machine keeps (SWS_RTE, mode switch procedure). Modes are numbers from 0.
///
/// A mode switch event is a position in the list of moments, an acknowledgement event one of that many, and an event that modes
/// disable one in the list of disablings. Only `new` takes memory.
#[derive(Drop)]
pub struct Machine {
    modes: u32,
    waits: bool,
    stage: Step,
    settled: u32,
    next: u32,
    was_stable: bool,
    unbegun: HeapCircularBuffer<u32>,
    owed: TrackedEvents,
    acks: Vec<bool>,
    disablings: Disablings,
}

impl Model for Machine {
    ghost use Rattle.mode_machine.specs.Kept.{Kept};
    ghost use Rattle.mode_machine.specs.Tracked.{AreTied};

    ghost Value = { Kept };

    ghost view = { λ m. record { modes = m.modes; queue = m.unbegun.capacity; waits = m.waits; stage = m.stage; settled = m.settled; next = m.next; was_stable = m.was_stable; unbegun = m.unbegun.items; owed = m.owed.events; acks = m.acks.items; disablings = m.disablings.events } };

    ghost invariant = { λ m. AreTied m.owed m.disablings m.stage m.settled m.next };
}

/// Sets all flags.
fn set_all(flags: &mut [bool])
    ensures { flags.new ≡ replicate (length flags.old) true }
{
    for flag in flags.iter_mut() {
        *flag = true;
    }
}

impl Machine {
    /// A machine in Entry of its initial mode: how many modes it has, the initial one, how many switches may wait, when each mode
    /// switch event occurs, how many acknowledgement events there are, the modes that disable each event that has some, and
    /// whether Exit waits for activations that the next mode disables. The only error is that there is no memory. At first it owes
    /// the on-entry events of that mode. No other call answers out of memory, by its type; that none takes any is read in the
    /// code.
    pub fn new(
        alloc: Global,
        modes: u32,
        initial: u32,
        queue: u32,
        owed: Vec<ModeEvent>,
        acks: u32,
        disablings: Vec<Vec<u32>>,
        waits: bool,
    ) -> Result<Machine, Memory>
        requires few_events { length owed.items ≤ 2 ^ 32 }
        requires few_disablings { length disablings.items ≤ 2 ^ 32 }
        ensures { IfOk result (λ m. m ≡ fresh modes initial queue owed.items acks (map modes_in disablings.items) waits) }
    {
        Ok(Machine {
            modes,
            waits,
            stage: Step::Entry,
            settled: initial,
            next: initial,
            was_stable: false,
            unbegun: HeapCircularBuffer::with_capacity(alloc, queue as usize)?,
            owed: TrackedEvents::entered(alloc, &owed, initial)?,
            acks: vec![in alloc; false; acks as usize]?,
            disablings: Disablings::new(alloc, disablings, initial)?,
        })
    }

    /// Asks for a switch to a mode (Rte_Switch). 130 RTE_E_LIMIT exactly if as many accepted switches have not begun as may
    /// wait, else 0.
    pub fn switch(&mut self, mode: u32) -> Code
        ensures answer { result ≡ answer_to_switch self.old }
        ensures kept { self.new ≡ after_switch mode self.old }
    {
        match self.unbegun.try_push_back(mode) {
            Ok(()) => OK,
            Err(_) => LIMIT,
        }
    }

    /// The mode if the machine is stable, else the number of modes (Rte_Mode).
    pub fn mode(&self) -> u32
        ensures { result ≡ mode_of self.now }
    {
        match self.stage {
            Step::Stable => self.settled,
            _ => self.modes,
        }
    }

    /// The phase that may come, or why none may.
    fn next_phase(&self) -> Advanced
        ensures { result ≡ answer_to_advance self.now }
    {
        match self.stage {
            Step::Stable => match self.unbegun.front() {
                Some(mode) => Advanced::Did(Step::Close(*mode)),
                None => Advanced::NoSwitch,
            },
            Step::Close(_) => unless_running(self.disablings.first_held(), self.waits),
            Step::Exit => unless_owed(self.owed.first_left(), Step::Transition),
            Step::Transition => unless_owed(self.owed.first_left(), Step::Entry),
            Step::Entry => unless_owed(self.owed.first_left(), Step::Stable),
        }
    }

    /// Whether a phase may come.
    pub fn may_advance(&self) -> bool
        ensures { result ≡ is_phase (answer_to_advance self.now) }
    {
        matches!(self.next_phase(), Advanced::Did(_))
    }

    /// Makes a phase that may come.
    fn make(&mut self, step: Step)
        requires { answer_to_advance self.old ≡ Advanced.Did step }
        ensures { self.new ≡ after_step step self.old }
    {
        match step {
            Step::Close(mode) => {
                self.owed.owe(step, self.settled, mode);
                self.disablings.watch(mode);
                self.unbegun.pop_front();
                self.next = mode;
                self.stage = step;
            }
            Step::Stable => self.settle(),
            Step::Exit | Step::Transition | Step::Entry => {
                self.owed.owe(step, self.settled, self.next);
                self.stage = step;
            }
        }
    }

    /// Ends a switch. The acknowledgement events become due, but not at the first Stable.
    fn settle(&mut self)
        requires { answer_to_advance self.old ≡ Advanced.Did Step.Stable }
        ensures { self.new ≡ after_step Step.Stable self.old }
    {
        self.owed.owe(Step::Stable, self.settled, self.next);
        if self.was_stable {
            set_all(&mut self.acks);
        }
        self.settled = self.next;
        self.was_stable = true;
        self.stage = Step::Stable;
    }

    /// The mode to which the switch goes in a phase.
    fn next_after(&self, step: Step) -> u32
        ensures { result ≡ next_after step self.now }
    {
        match step {
            Step::Close(mode) => mode,
            Step::Exit | Step::Transition | Step::Entry | Step::Stable => self.next,
        }
    }

    /// Whether a phase makes the acknowledgement events due.
    fn acknowledges(&self, step: Step) -> bool
        ensures { result ≡ (is_stable step && self.now.was_stable) }
    {
        match step {
            Step::Stable => self.was_stable,
            Step::Close(_) | Step::Exit | Step::Transition | Step::Entry => false,
        }
    }

    /// Appends the names of the mode switch events by which a phase makes a start possible, and of the acknowledgement events that it
    /// makes pending.
    fn tell(&self, step: Step, names: &[u32], ack_names: &[u32], told: &mut Vec<u32>)
        requires comes { answer_to_advance self.now ≡ Advanced.Did step }
        requires named { length names.now ≡ length self.now.owed }
        requires acks_named { length ack_names.now ≡ length self.now.acks }
        requires room { length told.old.items + (length self.now.owed + length self.now.acks) ≤ vec_capacity told.old }
        ensures owed { (event name : ℕ) → may_start (owed_at event self.now) ≡ false → may_start (owed_at event (after_step step self.now)) ≡ true → slice_get names.now event ≡ Some name → Contains told.new.items name }
        ensures acks { (event name : ℕ) → is_acked event self.now ≡ false → is_acked event (after_step step self.now) ≡ true → slice_get ack_names.now event ≡ Some name → Contains told.new.items name }
        ensures only { (name : ℕ) → Contains told.new.items name → Contains told.old.items name ⊎ (IsStartable names.now self.now (after_step step self.now) name ⊎ IsAcknowledged ack_names.now self.now (after_step step self.now) name) }
        ensures capacity { vec_capacity told.new ≡ vec_capacity told.old }
    {
        let next = self.next_after(step);
        self.owed.tell(step, self.settled, next, names, told);
        if self.acknowledges(step) {
            tell_acks(&self.acks, ack_names, told);
        }
    }

    /// Makes the next phase, if it may come (mode switch procedure). The list then has the names of the mode switch events by
    /// which a start became possible and of the acknowledgement events that became pending, and no others; each of these events has
    /// a name, at its place in its list of names. A phase goes through the events that it owes and those that the last one owed, a
    /// Close through the activations that run, and a Stable through the acknowledgement events. If none may come nothing
    /// changes. The phases are Close, Exit, Transition, Entry and Stable. If none may come the answer says why: no accepted switch
    /// waits, or the least event that forbids the phase. A machine that does not wait for activations takes Exit after Close
    /// whatever runs. Each Stable but the first makes the acknowledgement events pending.
    pub fn advance(&mut self, names: &[u32], ack_names: &[u32], woken: &mut Vec<u32>) -> Advanced
        requires named { length names.now ≡ length self.old.owed }
        requires acks_named { length ack_names.now ≡ length self.old.acks }
        requires room { length self.old.owed + length self.old.acks ≤ vec_capacity woken.old }
        ensures answer { result ≡ answer_to_advance self.old }
        ensures kept { self.new ≡ after_advance result self.old }
        ensures woken { (event name : ℕ) → may_start (owed_at event self.old) ≡ false → may_start (owed_at event self.new) ≡ true → slice_get names.now event ≡ Some name → Contains woken.new.items name }
        ensures acked { (event name : ℕ) → is_acked event self.old ≡ false → is_acked event self.new ≡ true → slice_get ack_names.now event ≡ Some name → Contains woken.new.items name }
        ensures only { is_phase result ≡ true → (name : ℕ) → Contains woken.new.items name → IsStartable names.now self.old self.new name ⊎ IsAcknowledged ack_names.now self.old self.new name }
        ensures left { is_phase result ≡ false → woken.new ≡ woken.old }
        ensures capacity { vec_capacity woken.new ≡ vec_capacity woken.old }
    {
        let advanced = self.next_phase();
        if let Advanced::Did(step) = advanced {
            woken.clear();
            self.tell(step, names, ack_names, woken);
            self.make(step);
        }
        advanced
    }

    /// Whether a start by a mode switch event may come: it is due and does not run.
    pub fn is_due(&self, event: u32) -> bool
        requires { event < length self.now.owed }
        ensures { result ≡ may_start (owed_at event self.now) }
    {
        self.owed.may_start(event as usize)
    }

    /// Starts an activation by a mode switch event. True exactly if the event is due and does not run; else nothing changes.
    pub fn start_owed(&mut self, event: u32) -> bool
        requires { event < length self.old.owed }
        ensures answer { result ≡ may_start (owed_at event self.old) }
        ensures kept { self.new ≡ after_owed event after_owed_start self.old }
    {
        let may_start = self.owed.may_start(event as usize);
        self.owed.start(event as usize);
        may_start
    }

    /// Ends the activation by a mode switch event. True exactly if it runs; else nothing changes. What a phase owes is done
    /// when an activation ends that was started by the event after the phase.
    pub fn end_owed(&mut self, event: u32) -> bool
        requires { event < length self.old.owed }
        ensures answer { result ≡ (owed_at event self.old).running }
        ensures kept { self.new ≡ after_owed event after_end self.old }
    {
        let is_running = self.owed.is_running(event as usize);
        self.owed.end(event as usize);
        is_running
    }

    /// Whether an acknowledgement event is pending.
    pub fn is_ack_due(&self, event: u32) -> bool
        requires { event < length self.now.acks }
        ensures { Some result ≡ slice_get self.now.acks event }
    {
        self.acks[event as usize]
    }

    /// Whether an acknowledgement event was pending; then it is no longer.
    pub fn start_ack(&mut self, event: u32) -> bool
        requires { event < length self.old.acks }
        ensures pending { Some result ≡ slice_get self.old.acks event }
        ensures kept { self.new ≡ with_acks (set self.old.acks event false) self.old }
    {
        let is_pending = self.acks[event as usize];
        self.acks[event as usize] = false;
        is_pending
    }

    /// Whether a mode disables an event now.
    fn is_disabled(&self, event: u32) -> bool
        requires { event < length self.now.disablings }
        ensures { result ≡ is_disabled self.now (dependency_at event self.now).modes }
    {
        let by_settled = self.disablings.disables(self.settled, event as usize);
        match self.stage {
            Step::Stable => by_settled,
            _ => by_settled || self.disablings.disables(self.next, event as usize),
        }
    }

    /// Admits an activation by an event that modes may disable, or drops it. Runs exactly if an admitted activation by it
    /// runs; then nothing changes. It is admitted exactly if none runs and the event is not disabled. One that is not admitted is
    /// not remembered.
    pub fn admit(&mut self, event: u32) -> Admitted
        requires { event < length self.old.disablings }
        ensures answer { result ≡ answer_to_admit event self.old }
        ensures kept { self.new ≡ after_admit event self.old }
    {
        if self.disablings.runs(event as usize) {
            return Admitted::Runs;
        }
        if self.is_disabled(event) {
            return Admitted::No;
        }
        self.disablings.begin(event as usize);
        Admitted::Yes
    }

    /// Ends the admitted activation by an event that modes may disable. True exactly if one runs; else nothing changes.
    pub fn end_admitted(&mut self, event: u32) -> bool
        requires { event < length self.old.disablings }
        ensures answer { result ≡ (dependency_at event self.old).admitted }
        ensures kept { self.new ≡ after_end_admitted event self.old }
    {
        let runs = self.disablings.runs(event as usize);
        self.disablings.end(event as usize);
        runs
    }
}

/// The phase, unless the last one owes an event that is left.
fn unless_owed(left: Option<usize>, step: Step) -> Advanced
    requires { IfSome left (λ event. event < 2 ^ 32) }
    ensures { result ≡ unless_owed left step }
{
    match left {
        Some(event) => Advanced::Owed(event as u32),
        None => Advanced::Did(step),
    }
}

/// Exit, unless the machine waits for an admitted activation that the next mode disables.
fn unless_running(held: Option<usize>, waits: bool) -> Advanced
    requires { IfSome held (λ event. event < 2 ^ 32) }
    ensures { result ≡ unless_running (if waits then held else None) }
{
    match held {
        Some(event) if waits => Advanced::Running(event as u32),
        _ => Advanced::Did(Step::Exit),
    }
}
