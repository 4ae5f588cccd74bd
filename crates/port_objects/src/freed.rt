//! Wishes that touch no object.

ghost use Rattle.bus_semantics.specs.Wanted.{wanted_of};
ghost use Rattle.port_objects.specs.Freed.{Frees};

use bus_semantics::{Deed, Wish};
use rte_value::Value;

/// The code at a point that is not joined: RTE_E_UNCONNECTED.
const UNCONNECTED: u8 = 134;

/// What is answered to a wish that touches no object: an end is the end; an ask, and the taking of a result, at a point that is not
/// joined have the code RTE_E_UNCONNECTED (SWS_RTE: Rte_Call, Rte_Result). None for every other wish.
pub fn free_deed(wish: &Wish) -> Option<Deed>
    ensures { Frees (wanted_of wish.now) result }
{
    match wish {
        Wish::End { .. } => Some(Deed::End),
        Wish::Ask { point, value } => Some(Deed::Ask {
            point: *point,
            value: *value,
            code: UNCONNECTED,
        }),
        Wish::TakeResult { point } => Some(Deed::TakeResult {
            point: *point,
            code: UNCONNECTED,
            value: Value::empty(),
        }),
        _ => None,
    }
}
