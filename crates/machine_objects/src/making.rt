//! A machine of a plan, made.

ghost use Rattle.std.specs.Prelude.{◌≡◌, ◌<◌, ◌≤◌, ◌+◌, ◌^◌, ◌++◌, [], ◌∷◌, IfOk, OnOk, if◌then◌else◌, filter, length, map};
ghost use Rattle.bus_semantics.specs.Common.{plan_of, kind_of, first_machine, modes_of, initial_of, waits_of};
ghost use Rattle.mode_machine.specs.Disabling.{modes_in};
ghost use Rattle.mode_machine.specs.Kept as machines;
ghost use Rattle.machine_objects.specs.Kept.{opening};
ghost use Rattle.machine_objects.specs.Layout.{IsMachine, disabling_modes, machine_events, may_disable, moment_at, places_of, waits_for_end, waits_for_phase};
ghost use Rattle.machine_objects.specs.Plans.{IsOfPlan};

use crate::Memory;
use crate::events::{disabling_modes, is_ack_event, is_switch_event, may_disable, moment_at};
use crate::machine_object::MachineObject;
use bus_semantics::BusPlan;
use mode_machine::{Machine, ModeEvent};
use std::alloc::Global;

impl MachineObject {
    /// The machine of this number, which starts or disables these events of the plan. It is in Entry of its initial mode, and
    /// nothing has happened to it yet. The only error is that there is no memory for it; no later call takes any.
    pub fn new(
        alloc: Global,
        p: &BusPlan,
        machine: u32,
        events: &[u32],
    ) -> Result<MachineObject, Memory>
        requires machine { IsMachine (plan_of p.now) (first_machine (plan_of p.now) + machine) }
        requires mattering { events.now ≡ machine_events (plan_of p.now) machine }
        requires few_events { length p.now.events < 2 ^ 32 }
        ensures kept { IfOk result (λ o. o.kept ≡ opening (plan_of p.now) machine) }
        ensures planned { IfOk result (λ o. IsOfPlan (plan_of p.now) (first_machine (plan_of p.now) + machine) o.kept) }
    {
        let owed = switch_events(alloc, p, machine, events)?;
        let acks = ack_events(alloc, p, machine, events)?;
        let disabled = disabled_events(alloc, p, machine, events)?;
        let made = make_machine(
            alloc,
            p,
            machine,
            owed.as_slice(),
            acks.len() as u32,
            disabled.as_slice(),
        )?;
        let woken = Vec::with_capacity(alloc, owed.len() + acks.len())?;
        Ok(MachineObject {
            owed,
            acks,
            disabled,
            machine: made,
            woken,
        })
    }
}

/// Appends an event if it passes.
fn push_where(events: &mut Vec<u32>, event: u32, passes: bool) -> Result<(), Memory>
    ensures { OnOk result (events.new.items ≡ (if passes then events.old.items ++ event ∷ [] else events.old.items)) }
{
    if passes {
        events.push(event)?;
    }
    Ok(())
}

/// The events among some that are SwcModeSwitchEvents of a machine.
fn switch_events(
    alloc: Global,
    p: &BusPlan,
    machine: u32,
    events: &[u32],
) -> Result<Vec<u32>, Memory>
    ensures { IfOk result (λ picked. picked.items ≡ filter (λ e. waits_for_phase machine (kind_of (plan_of p.now) e)) events.now) }
{
    let mut picked = Vec::new(alloc);
    for event in events {
        push_where(&mut picked, *event, is_switch_event(p, machine, *event))?;
    }
    Ok(picked)
}

/// The events among some that are ModeSwitchedAckEvents of a machine.
fn ack_events(alloc: Global, p: &BusPlan, machine: u32, events: &[u32]) -> Result<Vec<u32>, Memory>
    ensures { IfOk result (λ picked. picked.items ≡ filter (λ e. waits_for_end machine (kind_of (plan_of p.now) e)) events.now) }
{
    let mut picked = Vec::new(alloc);
    for event in events {
        push_where(&mut picked, *event, is_ack_event(p, machine, *event))?;
    }
    Ok(picked)
}

/// The events among some that a machine disables.
fn disabled_events(
    alloc: Global,
    p: &BusPlan,
    machine: u32,
    events: &[u32],
) -> Result<Vec<u32>, Memory>
    ensures { IfOk result (λ picked. picked.items ≡ filter (may_disable (plan_of p.now) machine) events.now) }
{
    let mut picked = Vec::new(alloc);
    for event in events {
        push_where(&mut picked, *event, may_disable(p, machine, *event))?;
    }
    Ok(picked)
}

/// When each of these events occurs.
fn moments_of(alloc: Global, p: &BusPlan, events: &[u32]) -> Result<Vec<ModeEvent>, Memory>
    ensures { IfOk result (λ moments. moments.items ≡ map (moment_at (plan_of p.now)) events.now) }
{
    let mut moments = Vec::new(alloc);
    for event in events {
        moments.push(moment_at(p, *event))?;
    }
    Ok(moments)
}

/// The modes in which each of these events is disabled.
fn disablings_of(alloc: Global, p: &BusPlan, events: &[u32]) -> Result<Vec<Vec<u32>>, Memory>
    ensures { IfOk result (λ disablings. map modes_in disablings.items ≡ map (disabling_modes (plan_of p.now)) events.now) }
{
    let mut disablings = Vec::new(alloc);
    for event in events {
        disablings.push(disabling_modes(alloc, p, *event)?)?;
    }
    Ok(disablings)
}

/// The machine itself, with its events by place.
fn make_machine(
    alloc: Global,
    p: &BusPlan,
    machine: u32,
    owed: &[u32],
    acks: u32,
    disabled: &[u32],
) -> Result<Machine, Memory>
    requires machine { machine < length p.now.machines }
    requires few_modes { modes_of (plan_of p.now) machine < 2 ^ 32 }
    requires few_owed { length owed.now ≤ 2 ^ 32 }
    requires few_disabled { length disabled.now ≤ 2 ^ 32 }
    ensures { IfOk result (λ made. made ≡ machines.fresh (modes_of (plan_of p.now) machine) (initial_of (plan_of p.now) machine) (places_of (plan_of p.now) machine) (map (moment_at (plan_of p.now)) owed.now) acks (map (disabling_modes (plan_of p.now)) disabled.now) (waits_of (plan_of p.now) machine)) }
{
    let moments = moments_of(alloc, p, owed)?;
    let disablings = disablings_of(alloc, p, disabled)?;
    let plan = &p.machines.items()[machine as usize];
    Machine::new(
        alloc,
        plan.modes.len() as u32,
        plan.initial,
        plan.queue,
        moments,
        acks,
        disablings,
        plan.waits,
    )
}
