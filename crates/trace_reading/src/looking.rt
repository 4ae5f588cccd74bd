//! What a plan says of a number.

ghost use Rattle.std.specs.Prelude.{◌≡◌};
ghost use Rattle.bus_semantics.specs.declared.entries.Actor.TheVariants.{Act};
ghost use Rattle.bus_semantics.specs.Common.{caller_of, plan_of, queue_of, runnable_of_event, served_by, modes_of};
ghost use Rattle.trace_reading.specs.Finding.{home_of_caller};

use bus_semantics::BusPlan;
use line_fields::instance_of;
use rte_value::ActKey;

/// The instance of a runnable that calls. None for the environment.
pub fn home_of_caller(p: &BusPlan, caller: Option<u32>) -> Option<u32>
    ensures { result ≡ home_of_caller (plan_of p.now) caller }
{
    match caller {
        Some(runnable) => instance_of(p, runnable),
        None => None,
    }
}

/// The runnable that an event starts.
pub fn runnable_of_event(p: &BusPlan, event: u32) -> Option<u32>
    ensures { result ≡ runnable_of_event (plan_of p.now) event }
{
    match p.events.items().get(event as usize) {
        Some(event) => Some(event.runnable),
        None => None,
    }
}

/// The runnable that calls at a point. None for the environment.
pub fn caller_of(p: &BusPlan, point: u32) -> Option<u32>
    ensures { result ≡ caller_of (plan_of p.now) point }
{
    match p.points.items().get(point as usize) {
        Some(point) => point.runnable,
        None => None,
    }
}

/// The length of a server's queue. None for a direct server.
pub fn queue_of(p: &BusPlan, server: u32) -> Option<u32>
    ensures { result ≡ queue_of (plan_of p.now) server }
{
    match p.servers.items().get(server as usize) {
        Some(server) => server.queue,
        None => None,
    }
}

/// The server whose operation the runnable of a key serves.
pub fn served_by(p: &BusPlan, key: ActKey) -> Option<u32>
    ensures { result ≡ served_by (plan_of p.now) (Act key) }
{
    match p.runnables.items().get(key.runnable as usize) {
        Some(runnable) => runnable.server,
        None => None,
    }
}

/// How many modes a machine has.
pub fn modes_of(p: &BusPlan, machine: u32) -> usize
    ensures { result ≡ modes_of (plan_of p.now) machine }
{
    match p.machines.items().get(machine as usize) {
        Some(machine) => machine.modes.len(),
        None => 0,
    }
}
