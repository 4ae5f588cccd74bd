//! Putting the text.

ghost use Rattle.std.specs.Prelude.{◌≡◌, IfOk, OnErr};
ghost use Rattle.rte_text.specs.Sinks.{SinkFaultsAfter, ToldAfter};
ghost use Rattle.plan_text.specs.Lines.{plan_text};

use crate::listing::plan_text;
use bus_semantics::BusPlan;
use description_types::{Description, Flat};
use rte_text::{Memory, Put, Sink};
use std::alloc::Global;

/// Puts the text of the plan of a description, made flat, in one put. Its lines come in this order: the instances, the joins,
/// the mode machines, each task with its mapped events by position, the events of direct servers. All lines are made before
/// the put: the only error is want of memory, and then nothing was put. A sink that tells its bytes then has taken the whole text;
/// if the put failed, a prefix of it, and its count of faults rose exactly then.
pub fn put_plan<K: Sink>(
    alloc: Global,
    d: &Description,
    f: &Flat,
    p: &BusPlan,
    out: &mut K,
) -> Result<Put, Memory>
    ensures told { IfOk result (λ put. ToldAfter put (K.told out.old) (K.told out.new) (plan_text d.now f.now p.now)) }
    ensures faults { IfOk result (λ put. SinkFaultsAfter put (K.faults out.old) (K.faults out.new)) }
    ensures untold { OnErr result (K.told out.new ≡ K.told out.old) }
    ensures no_fault { OnErr result (K.faults out.new ≡ K.faults out.old) }
{
    let text = plan_text(alloc, d, f, p)?;
    Ok(out.put(text.as_slice()))
}
