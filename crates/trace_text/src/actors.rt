//! Who made an entry.

ghost use Rattle.bus_semantics.specs.Common.{plan_of, actor_text, caller_text, key_text, machine_text, point_text, runnable_text};
ghost use Rattle.trace_text.specs.Appending.{Appends};

use crate::fields::write_text;
use crate::names::instance_name;
use bus_semantics::{Actor, BusPlan};
use rte_text::LineBuf;
use rte_value::ActKey;

/// Writes `INSTANCE:RUNNABLE`.
fn write_runnable(p: &BusPlan, runnable: u32, out: &mut LineBuf)
    ensures { Appends out.old out.new (runnable_text (plan_of p.now) runnable) }
{
    if let Some(runnable) = p.runnables.items().get(runnable as usize) {
        write_text(instance_name(p, Some(runnable.instance)), out);
        write_text(b":", out);
        write_text(runnable.name.bytes(), out);
    }
}

/// Writes the runnable that calls, or `env`.
fn write_caller(p: &BusPlan, caller: Option<u32>, out: &mut LineBuf)
    ensures { Appends out.old out.new (caller_text (plan_of p.now) caller) }
{
    match caller {
        None => write_text(b"env", out),
        Some(runnable) => write_runnable(p, runnable, out),
    }
}

/// Writes `INSTANCE:RUNNABLE.PORT.OPERATION`, or `env.PORT.OPERATION`.
pub fn write_point(p: &BusPlan, point: u32, out: &mut LineBuf)
    ensures { Appends out.old out.new (point_text (plan_of p.now) point) }
{
    if let Some(point) = p.points.items().get(point as usize) {
        write_caller(p, point.runnable, out);
        write_text(b".", out);
        write_text(point.name.bytes(), out);
    }
}

/// Writes `INSTANCE.PORT.ELEMENT`, or `env.PORT.ELEMENT`.
fn write_machine(p: &BusPlan, machine: u32, out: &mut LineBuf)
    ensures { Appends out.old out.new (machine_text (plan_of p.now) machine) }
{
    if let Some(machine) = p.machines.items().get(machine as usize) {
        write_text(instance_name(p, machine.instance), out);
        write_text(b".", out);
        write_text(machine.name.bytes(), out);
    }
}

/// Writes `INSTANCE:RUNNABLE`, and for a direct server `INSTANCE:RUNNABLE@POINT`.
fn write_key(p: &BusPlan, key: ActKey, out: &mut LineBuf)
    ensures { Appends out.old out.new (key_text (plan_of p.now) key) }
{
    write_runnable(p, key.runnable, out);
    if let Some(point) = key.point {
        write_text(b"@", out);
        write_point(p, point, out);
    }
}

/// Writes who made an entry.
pub fn write_actor(p: &BusPlan, actor: Actor, out: &mut LineBuf)
    ensures { Appends out.old out.new (actor_text (plan_of p.now) actor) }
{
    match actor {
        Actor::Env => write_text(b"env", out),
        Actor::Machine(machine) => write_machine(p, machine, out),
        Actor::Act(key) => write_key(p, key, out),
    }
}
