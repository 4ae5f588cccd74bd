//! The events of the clock.

ghost use Rattle.std.specs.Prelude.{◌≡◌, ◌<◌, ◌^◌, ◌++◌, [], ◌∷◌, length, map, IfOk, OnOk, if◌then◌else◌};
ghost use Rattle.bus_semantics.specs.Plan.{plan_of, kind_of};
ghost use Rattle.object_kinds.specs.Layout.{events_of};
ghost use Rattle.clock_objects.specs.Layout.{is_timing, is_init, period_in};

use crate::Memory;
use bus_semantics::{BusPlan, EventKind};
use std::alloc::Global;

/// The period of a TimingEvent; 0 for another event.
fn period_at(p: &BusPlan, event: u32) -> u64
    ensures { result ≡ period_in (kind_of (plan_of p.now) event) }
{
    match p.kind_of(event) {
        EventKind::Timing(period) => period,
        _ => 0,
    }
}

/// Whether an event is a TimingEvent.
fn is_timing(p: &BusPlan, event: u32) -> bool
    ensures { result ≡ is_timing (kind_of (plan_of p.now) event) }
{
    match p.kind_of(event) {
        EventKind::Timing(_) => true,
        _ => false,
    }
}

/// Whether an event is an InitEvent.
fn is_init(p: &BusPlan, event: u32) -> bool
    ensures { result ≡ is_init (kind_of (plan_of p.now) event) }
{
    match p.kind_of(event) {
        EventKind::Init => true,
        _ => false,
    }
}

/// Appends a number if it passes.
fn push_where(numbers: &mut Vec<u32>, number: u32, passes: bool) -> Result<(), Memory>
    ensures { OnOk result (numbers.new.items ≡ (if passes then numbers.old.items ++ number ∷ [] else numbers.old.items)) }
{
    if passes {
        numbers.push(number)?;
    }
    Ok(())
}

/// The TimingEvents, in rising order.
pub(crate) fn timing_events(alloc: Global, p: &BusPlan) -> Result<Vec<u32>, Memory>
    requires { length p.now.events < 2 ^ 32 }
    ensures { IfOk result (λ events. events.items ≡ events_of (plan_of p.now) is_timing) }
{
    let mut events = Vec::new(alloc);
    for event in 0..p.events.len() as u32 {
        push_where(&mut events, event, is_timing(p, event))?;
    }
    Ok(events)
}

/// The InitEvents, in rising order.
pub(crate) fn init_events(alloc: Global, p: &BusPlan) -> Result<Vec<u32>, Memory>
    requires { length p.now.events < 2 ^ 32 }
    ensures { IfOk result (λ events. events.items ≡ events_of (plan_of p.now) is_init) }
{
    let mut events = Vec::new(alloc);
    for event in 0..p.events.len() as u32 {
        push_where(&mut events, event, is_init(p, event))?;
    }
    Ok(events)
}

/// The period of each of these events, in ticks.
pub(crate) fn periods_of(alloc: Global, p: &BusPlan, events: &[u32]) -> Result<Vec<u64>, Memory>
    ensures { IfOk result (λ periods. periods.items ≡ map (λ e. period_in (kind_of (plan_of p.now) e)) events.now) }
{
    let mut periods = Vec::with_capacity(alloc, events.len())?;
    for event in events {
        periods.push(period_at(p, *event))?;
    }
    Ok(periods)
}
