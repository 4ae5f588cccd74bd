//! Which ports the root may have.

ghost use Rattle.std.specs.Prelude.{◌≡◌};
ghost use Rattle.plan_definitions.specs.Connectors.{is_client_server, requires_server, root_client};

use crate::ports::ports_of;
use description_types::{Description, InterfaceKind, Port, PortKind, PrototypeType, TypeTable};

fn is_client_server(kind: &InterfaceKind) -> bool
    ensures { result ≡ is_client_server kind.now }
{
    matches!(kind, InterfaceKind::ClientServer(_))
}

fn requires_server(types: &TypeTable, port: &Port) -> bool
    ensures { result ≡ requires_server types.now port.now }
{
    match (
        port.kind,
        types.interfaces.items().get(port.interface as usize),
    ) {
        (PortKind::Required, Some(interface)) => is_client_server(&interface.kind),
        _ => false,
    }
}

/// The first port of the root by which the environment would have to serve operations.
#[tactic(auto, using(plan_definitions::proofs::Turns::first_more, plan_definitions::proofs::Turns::first_here, plan_definitions::proofs::Turns::first_none))]
pub fn root_client(d: &Description) -> Option<usize>
    ensures { result ≡ root_client d.now }
{
    let ports = ports_of(d, PrototypeType::Composition(d.root));
    for (position, port) in ports.iter().enumerate() {
        if requires_server(&d.types, port) {
            return Some(position);
        }
    }
    None
}
