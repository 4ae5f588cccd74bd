//! Whether accesses fit.

ghost use Rattle.std.specs.Prelude.{◌≡◌};
ghost use Rattle.plan_definitions.specs.Accesses.{names_port, fits, access_fits, misfit_among, misfit};

use crate::items::item_at;
use description_types::{Access, Component, Port, PortKind, SwImplPolicy, TypeTable};
use plan_definitions::{Item, Spot};
use runnable_lang::AccessKind;

fn names_port(kind: AccessKind) -> bool
    ensures { result ≡ names_port kind }
{
    !matches!(
        kind,
        AccessKind::IrvWrite
            | AccessKind::IrvRead
            | AccessKind::IrvIWrite
            | AccessKind::IrvIRead
            | AccessKind::Enter
    )
}

fn fits(kind: AccessKind, side: PortKind, item: Item) -> bool
    ensures { result ≡ fits kind side item }
{
    use AccessKind as Kind;
    use PortKind::{Provided, Required};
    use SwImplPolicy::{Queued, Standard};
    match kind {
        Kind::Write | Kind::Invalidate | Kind::IWrite => {
            matches!((side, item), (Provided, Item::Data(Standard)))
        }
        Kind::Read | Kind::IsUpdated | Kind::IRead => {
            matches!((side, item), (Required, Item::Data(Standard)))
        }
        Kind::Send => matches!((side, item), (Provided, Item::Data(Queued))),
        Kind::Receive => matches!((side, item), (Required, Item::Data(Queued))),
        Kind::Call | Kind::ACall | Kind::TakeResult => {
            matches!((side, item), (Required, Item::Operation))
        }
        Kind::Switch => matches!((side, item), (Provided, Item::Modes(_))),
        Kind::Mode => matches!((side, item), (Required, Item::Modes(_))),
        Kind::IrvWrite | Kind::IrvRead | Kind::IrvIWrite | Kind::IrvIRead | Kind::Enter => false,
    }
}

fn access_fits(types: &TypeTable, ports: &[Port], access: &Access) -> bool
    ensures { result ≡ access_fits types.now ports.now access.now }
{
    if !names_port(access.kind) {
        return true;
    }
    match item_at(types, ports, access.port, access.item) {
        Some((side, item)) => fits(access.kind, side, item),
        None => false,
    }
}

#[tactic(auto, using(plan_definitions::proofs::Turns::first_more, plan_definitions::proofs::Turns::first_here, plan_definitions::proofs::Turns::first_none))]
fn misfit_among(
    types: &TypeTable,
    ports: &[Port],
    runnable: usize,
    accesses: &[Access],
) -> Option<Spot>
    ensures { result ≡ misfit_among types.now ports.now runnable accesses.now }
{
    for (access, found) in accesses.iter().enumerate() {
        if !access_fits(types, ports, found) {
            return Some(Spot::Access { runnable, access });
        }
    }
    None
}

/// The first access of a component that does not fit its port.
#[tactic(auto, using(plan_definitions::proofs::Turns::first_more, plan_definitions::proofs::Turns::first_here, plan_definitions::proofs::Turns::first_none))]
pub fn misfit(types: &TypeTable, component: &Component) -> Option<Spot>
    ensures { result ≡ misfit types.now component.now }
{
    let ports = component.ports.items();
    for (position, runnable) in component.behavior.runnables.items().iter().enumerate() {
        if let Some(spot) = misfit_among(types, ports, position, runnable.accesses.items()) {
            return Some(spot);
        }
    }
    None
}
