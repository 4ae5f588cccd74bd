//! Direct calls.

ghost use Rattle.std.specs.Prelude.{◌≡◌};
ghost use Rattle.bus_semantics.specs.Common.{plan_of, is_over};
ghost use Rattle.task_slots.specs.Direct.{call_at, call_in, after_deed, after_inside};

use crate::slot::{Activity, Call};
use bus_semantics::{BusPlan, Deed};
use rte_value::ActKey;

/// The call of an accepted ask at a point, if its server has no queue.
fn call_at(p: &BusPlan, caller: ActKey, point: u32) -> Option<Call>
    ensures { result ≡ call_at (plan_of p.now) caller point }
{
    let server = p.server_of(point)?;
    let server = p.servers.items().get(server as usize)?;
    match server.queue {
        Some(_) => None,
        None => Some(Call {
            caller,
            direct: ActKey {
                runnable: server.runnable,
                point: Some(point),
            },
            event: server.event,
        }),
    }
}

/// What a deed of the caller calls.
fn call_in(p: &BusPlan, caller: ActKey, deed: &Deed) -> Option<Call>
    ensures { result ≡ call_in (plan_of p.now) caller deed.now }
{
    match deed {
        Deed::Ask { point, code, .. } => {
            if *code == 0 {
                call_at(p, caller, *point)
            } else {
                None
            }
        }
        _ => None,
    }
}

/// Whether an activation is over with this deed: its End, or an admission that was refused.
fn is_over(deed: &Deed) -> bool
    ensures { result ≡ is_over deed.now }
{
    match deed {
        Deed::End => true,
        Deed::Admit { yes } => !*yes,
        _ => false,
    }
}

/// What runs in a task after a deed of its activation: nothing after the last one, and after an accepted ask at a direct point
/// the direct activation comes first (SWS_RTE: Rte_Call).
pub(crate) fn after_deed(p: &BusPlan, key: ActKey, deed: &Deed) -> Activity
    ensures { result ≡ after_deed (plan_of p.now) key deed.now }
{
    if is_over(deed) {
        return Activity::Free;
    }
    match call_in(p, key, deed) {
        Some(call) => Activity::Calls(call),
        None => Activity::Runs(key),
    }
}

/// What runs in a task after a deed of a direct activation: its caller goes on after its end.
pub(crate) fn after_inside(call: Call, deed: &Deed) -> Activity
    ensures { result ≡ after_inside call deed.now }
{
    match deed {
        Deed::End => Activity::Runs(call.caller),
        _ => Activity::Serves(call),
    }
}
