//! Ports, and the interfaces of those that a connector joins.

ghost use Rattle.std.specs.Prelude.{◌≡◌};
ghost use Rattle.plan_definitions.specs.Connectors.{ports_of, inner_interface, both, delegated, sides};

use description_types::{
    Composition, Connector, Description, InnerPort, Port, PortKind, PrototypeType,
};

/// The ports of a component or composition, none past the last one.
pub fn ports_of(d: &Description, of_type: PrototypeType) -> &[Port]
    ensures { result.now ≡ ports_of d.now of_type }
{
    match of_type {
        PrototypeType::Component(component) => {
            match d.components.items().get(component as usize) {
                Some(found) => found.ports.items(),
                None => &[],
            }
        }
        PrototypeType::Composition(composition) => {
            match d.compositions.items().get(composition as usize) {
                Some(found) => found.ports.items(),
                None => &[],
            }
        }
    }
}

fn inner_interface(d: &Description, composition: &Composition, inner: InnerPort) -> Option<u32>
    ensures { result ≡ inner_interface d.now composition.now inner }
{
    let prototype = composition
        .prototypes
        .items()
        .get(inner.prototype as usize)?;
    let port = ports_of(d, prototype.of_type).get(inner.port as usize)?;
    Some(port.interface)
}

fn both(a: Option<u32>, b: Option<u32>) -> Option<(u32, u32)>
    ensures { result ≡ both a b }
{
    Some((a?, b?))
}

fn delegated(inner: Option<u32>, outer: &Port) -> Option<(u32, u32)>
    ensures { result ≡ delegated inner outer.now.kind outer.now.interface }
{
    match outer.kind {
        PortKind::Required => both(Some(outer.interface), inner),
        PortKind::Provided => both(inner, Some(outer.interface)),
    }
}

/// The interface of the provided port of a connector, and that of the required one. None if a port is missing.
pub fn sides(
    d: &Description,
    composition: &Composition,
    connector: &Connector,
) -> Option<(u32, u32)>
    ensures { result ≡ sides d.now composition.now connector.now }
{
    match connector {
        Connector::Assembly {
            provider,
            requester,
        } => both(
            inner_interface(d, composition, *provider),
            inner_interface(d, composition, *requester),
        ),
        Connector::Delegation { inner, outer } => {
            let port = composition.ports.items().get(*outer as usize)?;
            delegated(inner_interface(d, composition, *inner), port)
        }
    }
}
