//! The order of a script along a trace.

ghost use Rattle.std.specs.Prelude.{◌≡◌, List};
ghost use Rattle.bus_semantics.specs.declared.script.Line.{Line};
ghost use Rattle.bus_semantics.specs.Run.{Session, is_inside, made, run_begins};
ghost use Rattle.trace_check.specs.Order.{Leaves, TakesItem};

use crate::orders::Orders;
use bus_semantics::{Actor, Entry, wish_of};

/// Takes the order of an entry, and answers whether it may come next in the order of the script: the environment's calls are those of the
/// script and stand outside run lines, all other entries stand inside. If not, what is left of the script is of no use.
pub(crate) fn takes_entry(orders: &mut Orders<'_>, inside: bool, entry: &Entry) -> bool
    ensures { (script : List Line) (s : Session) → Leaves script s orders.old → inside ≡ is_inside s →
        TakesItem script s (made entry.now) orders.new result }
{
    match entry.actor {
        Actor::Env => !inside && orders.take_call(&wish_of(entry, None)),
        _ => inside,
    }
}

/// Takes a run mark, and answers whether it may come next in the order of the script: outside run lines, if that is the script's next line.
/// If not, what is left of the script is of no use.
pub(crate) fn takes_run(orders: &mut Orders<'_>, inside: bool) -> bool
    ensures { (script : List Line) (s : Session) → Leaves script s orders.old → inside ≡ is_inside s →
        TakesItem script s run_begins orders.new result }
{
    !inside && orders.take_run()
}
