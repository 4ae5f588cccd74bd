//! Laws of what a trace is.

ghost use Rattle.bus_semantics.specs.declared.script.Mapping.{Mapping};
ghost use Rattle.bus_semantics.specs.Common.{Plan, IsSound};
ghost use Rattle.trace_reading.specs.Laws.{AcceptedItemsGoOn, RefusedForOneClause, RefusedIsNotAccepted, TracesHaveOneVerdict};

use crate::laws::{items_have_one_line, lines_have_one_reading};

/// An item that fits the plan makes a begun legal run a longer one exactly if it is accepted after it. None is both accepted and
/// refused, and each is refused for one clause. This holds of every plan, sound or not.
pub fn accepted_items_go_on()
    ensures go_on { (p : Plan) (m : Mapping) → AcceptedItemsGoOn p m }
    ensures apart { (p : Plan) (m : Mapping) → RefusedIsNotAccepted p m }
    ensures one_clause { (p : Plan) (m : Mapping) → RefusedForOneClause p m }
{}

/// In a sound plan a trace has one verdict. So it is called legal exactly if it is the text of a whole legal run of the script; and
/// else its first line that does not go on so is one line, refused for one reason.
pub fn traces_have_one_verdict()
    ensures { (p : Plan) (m : Mapping) → IsSound p m → TracesHaveOneVerdict p m }
{
    items_have_one_line();
    lines_have_one_reading();
}
