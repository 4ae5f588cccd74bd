//! The accesses of a runnable: what its statements name.

ghost use Rattle.std.specs.Prelude.{◌≡◌};
ghost use Rattle.bus_semantics.specs.Plan.{runnable_of};
ghost use Rattle.bus_semantics.specs.State.{is_to, access};
ghost use Rattle.bus_semantics.specs.Accesses.{access_of};

use crate::plan::RunnablePlan;
use rte_value::Limits;
use runnable_lang::{AccessKind, AccessSig};

/// What an access names, and the limits of each word that it gives. Clauses see it as the definition's `Access`, `access_of`.
#[derive(Clone, Copy)]
pub struct Access<'a> {
    /// An element, point, area, machine (for a switch) or mode port, by its position in the plan.
    pub target: u32,
    /// One for each word, in declared order.
    pub ins: &'a [Limits],
}

/// Whether the access is one to this item by a statement of this kind.
fn is_to(access: &AccessSig, kind: AccessKind, port: u32, item: u32) -> bool
    ensures { result ≡ is_to kind port item access.now }
{
    access.kind as u8 == kind as u8 && access.port == port && access.item == item
}

/// The access of a runnable to this item by a statement of this kind. One that there is not names 0 and gives no word.
pub fn find_access(runnable: &RunnablePlan, kind: AccessKind, port: u32, item: u32) -> Access<'_>
    ensures { access_of result ≡ access (runnable_of runnable.now) kind port item }
{
    let accesses = runnable.signature.accesses.items();
    for (access, target) in accesses.iter().zip(runnable.targets.items()) {
        if is_to(access, kind, port, item) {
            return Access {
                target: *target,
                ins: access.ins.items(),
            };
        }
    }
    Access {
        target: 0,
        ins: &[],
    }
}
