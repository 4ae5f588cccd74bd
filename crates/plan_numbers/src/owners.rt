//! The ports of instances and of the environment.

ghost use Rattle.std.specs.Prelude.{◌≡◌, Some, option_and_then, option_copied, option_map, slice_get};
ghost use Rattle.plan_definitions.specs.Common.{component_of, root_ports, interface_of, port_of, ports_of};

use description_types::{Component, Description, Flat, InterfaceKind, Port};

/// The component of an instance.
pub fn component_of<'a>(d: &'a Description, f: &Flat, instance: u32) -> Option<&'a Component>
    ensures { option_copied result ≡ component_of d.now f.now instance }
{
    let found = f.instances.items().get(instance as usize)?;
    d.components.items().get(found.component as usize)
}

fn root_ports(d: &Description) -> &[Port]
    ensures { result.now ≡ root_ports d.now }
{
    match d.compositions.items().get(d.root as usize) {
        Some(root) => root.ports.items(),
        None => &[],
    }
}

fn ports_of_instance<'a>(d: &'a Description, f: &Flat, instance: u32) -> &'a [Port]
    ensures { result.now ≡ ports_of d.now f.now (Some instance) }
{
    match component_of(d, f, instance) {
        Some(component) => component.ports.items(),
        None => &[],
    }
}

/// The ports of an instance, or the outer ports of the root for the environment.
pub fn ports_of<'a>(d: &'a Description, f: &Flat, owner: Option<u32>) -> &'a [Port]
    ensures { result.now ≡ ports_of d.now f.now owner }
{
    match owner {
        Some(instance) => ports_of_instance(d, f, instance),
        None => root_ports(d),
    }
}

/// A port of an owner.
pub fn port_of<'a>(d: &'a Description, f: &Flat, owner: Option<u32>, port: u32) -> Option<&'a Port>
    ensures { option_copied result ≡ port_of d.now f.now owner port }
{
    ports_of(d, f, owner).get(port as usize)
}

/// The interface of a port.
pub fn interface_at<'a>(d: &'a Description, port: Option<&Port>) -> Option<&'a InterfaceKind>
    ensures { option_copied result ≡ option_map (λ i. i.kind) (option_and_then (λ p. slice_get d.now.types.interfaces p.interface) (option_copied port.entry)) }
{
    let interface = d.types.interfaces.items().get(port?.interface as usize)?;
    Some(&interface.kind)
}

/// The interface of a port of an owner.
pub fn interface_of<'a>(
    d: &'a Description,
    f: &Flat,
    owner: Option<u32>,
    port: u32,
) -> Option<&'a InterfaceKind>
    ensures { option_copied result ≡ interface_of d.now f.now owner port }
{
    interface_at(d, port_of(d, f, owner, port))
}
