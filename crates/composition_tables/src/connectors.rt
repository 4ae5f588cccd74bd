//! Which connectors may join their ports.

ghost use Rattle.std.specs.Prelude.{◌≡◌, option_map, slice_get};
ghost use Rattle.description_types.specs.Connectors.{ports_of, interface_of, kind_of, kind_in, connectors_of, is_provided, is_required, is_one_kind, lets_join};
ghost use Rattle.description_types.specs.Paths.{type_in};

use crate::prototypes::prototypes_of;
use description_types::{Connector, Description, InnerPort, Port, PortKind, PrototypeType};

/// The ports of a component or composition, none past the last one.
pub fn ports_of(d: &Description, of_type: PrototypeType) -> &[Port]
    ensures { result.now ≡ ports_of d.now of_type }
{
    match of_type {
        PrototypeType::Component(component) => match d.components.items().get(component as usize) {
            Some(found) => found.ports.items(),
            None => &[],
        },
        PrototypeType::Composition(composition) => outer_ports(d, composition as usize),
    }
}

/// The outer ports of a composition, none past the last one.
pub fn outer_ports(d: &Description, composition: usize) -> &[Port]
    ensures { result.now ≡ ports_of d.now (PrototypeType.Composition composition) }
{
    match d.compositions.items().get(composition) {
        Some(found) => found.ports.items(),
        None => &[],
    }
}

/// The connectors of a composition, none past the last one.
pub fn connectors_of(d: &Description, composition: usize) -> &[Connector]
    ensures { result.now ≡ connectors_of d.now composition }
{
    match d.compositions.items().get(composition) {
        Some(found) => found.connectors.items(),
        None => &[],
    }
}

/// The type of a prototype of a composition.
pub fn type_in(d: &Description, composition: u32, prototype: u32) -> Option<PrototypeType>
    ensures { result ≡ type_in d.now (PrototypeType.Composition composition) prototype }
{
    inner_type(d, composition as usize, prototype as usize)
}

/// The type of the prototype of a composition at a position.
pub fn inner_type(d: &Description, composition: usize, prototype: usize) -> Option<PrototypeType>
    ensures { result ≡ type_in d.now (PrototypeType.Composition composition) prototype }
{
    match prototypes_of(d, composition).get(prototype) {
        Some(found) => Some(found.of_type),
        None => None,
    }
}

/// The interface of a port of a component or composition.
pub fn interface_of(d: &Description, of_type: PrototypeType, port: u32) -> Option<u32>
    ensures { result ≡ interface_of d.now of_type port }
{
    match ports_of(d, of_type).get(port as usize) {
        Some(found) => Some(found.interface),
        None => None,
    }
}

/// The kind of a port of a component or composition.
pub fn kind_of(d: &Description, of_type: PrototypeType, port: u32) -> Option<PortKind>
    ensures { result ≡ kind_of d.now of_type port }
{
    kind_among(ports_of(d, of_type), port)
}

fn kind_among(ports: &[Port], port: u32) -> Option<PortKind>
    ensures { result ≡ option_map (λ x. x.kind) (slice_get ports.now port) }
{
    match ports.get(port as usize) {
        Some(found) => Some(found.kind),
        None => None,
    }
}

fn kind_in(d: &Description, composition: usize, inner: InnerPort) -> Option<PortKind>
    ensures { result ≡ kind_in d.now composition inner }
{
    match inner_type(d, composition, inner.prototype as usize) {
        Some(of_type) => kind_of(d, of_type, inner.port),
        None => None,
    }
}

fn is_provided(kind: Option<PortKind>) -> bool
    ensures { result ≡ is_provided kind }
{
    match kind {
        Some(PortKind::Provided) => true,
        Some(PortKind::Required) | None => false,
    }
}

fn is_required(kind: Option<PortKind>) -> bool
    ensures { result ≡ is_required kind }
{
    match kind {
        Some(PortKind::Required) => true,
        Some(PortKind::Provided) | None => false,
    }
}

fn is_one_kind(first: Option<PortKind>, second: Option<PortKind>) -> bool
    ensures { result ≡ is_one_kind first second }
{
    match first {
        Some(PortKind::Provided) => is_provided(second),
        Some(PortKind::Required) => is_required(second),
        None => false,
    }
}

/// Whether the ports of a connector are such that it may join them.
pub fn lets_join(d: &Description, composition: usize, connector: Connector) -> bool
    ensures { result ≡ lets_join d.now composition connector }
{
    match connector {
        Connector::Assembly {
            provider,
            requester,
        } => {
            is_provided(kind_in(d, composition, provider))
                && is_required(kind_in(d, composition, requester))
        }
        Connector::Delegation { inner, outer } => {
            let outside = kind_among(outer_ports(d, composition), outer);
            is_one_kind(outside, kind_in(d, composition, inner))
        }
    }
}
