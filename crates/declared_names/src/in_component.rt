//! What the names within a component refer to.

ghost use Rattle.std.specs.Prelude.{◌≡◌, IfOk, map};
ghost use Rattle.serde_json.specs.View.{view};
ghost use Rattle.declared_names.specs.Components.{component_names, item_in, mode_in};
ghost use Rattle.declared_names.specs.Names.{position_in};
ghost use Rattle.declared_names.specs.Components.{interface_of_port};
ghost use Rattle.declared_names.specs.Sizes.{IsSmall};

use crate::names::{Positions, declared, declared_texts, find_at};
use crate::scopes::InterfaceNames;
use crate::values::{items_at, text_at};
use rte_text::{Memory, Seq};
use serde_json::Value;
use std::alloc::Global;

/// A component's ports, with the interface of each, and its areas, variables and runnables.
#[derive(Drop)]
pub struct ComponentNames<'a> {
    pub ports: Positions<'a>,
    pub port_interfaces: Seq<u32>,
    pub areas: Positions<'a>,
    pub variables: Positions<'a>,
    pub runnables: Positions<'a>,
}

fn port_interfaces(
    alloc: Global,
    interfaces: &InterfaceNames,
    ports: &[Value],
) -> Result<Seq<u32>, Memory>
    ensures { IfOk result (λ list. list ≡ map (interface_of_port interfaces.now) (map view ports.now)) }
{
    let mut list = Vec::new(alloc);
    for port in ports {
        list.push(interfaces.interfaces.find(text_at(port, "interface")))?;
    }
    Ok(Seq::of(list))
}

/// What a component and its behavior declare. The component has at most 2^22 values in it.
pub fn component_names<'a>(
    alloc: Global,
    interfaces: &InterfaceNames,
    value: &'a Value,
    behavior: &'a Value,
) -> Result<ComponentNames<'a>, Memory>
    requires value { IsSmall (view value.now) }
    requires behavior { IsSmall (view behavior.now) }
    ensures { IfOk result (λ names. names ≡ component_names interfaces.now (view value.now) (view behavior.now)) }
{
    let ports = declared(alloc, value, "ports")?;
    let port_interfaces = port_interfaces(alloc, interfaces, items_at(value, "ports"))?;
    let areas = declared_texts(alloc, behavior, "exclusiveAreas")?;
    let variables = declared(alloc, behavior, "variables")?;
    let runnables = declared(alloc, behavior, "runnables")?;
    Ok(ComponentNames {
        ports,
        port_interfaces,
        areas,
        variables,
        runnables,
    })
}

/// Where names stand within one component.
#[derive(Clone, Copy)]
pub struct InComponent<'s, 'a> {
    pub interfaces: &'s InterfaceNames<'a>,
    pub names: &'s ComponentNames<'a>,
}

impl InComponent<'_, '_> {
    /// Where the port of this name stands.
    pub fn port(&self, name: &str) -> u32
        ensures { result ≡ position_in self.now.names.now.ports name.now }
    {
        self.names.ports.find(name)
    }

    /// Where the item of this name stands in the interface of the port.
    pub fn item(&self, port: u32, name: &str) -> u32
        ensures { result ≡ item_in self.now.interfaces.now self.now.names.now port name.now }
    {
        match self.names.port_interfaces.items().get(port as usize) {
            Some(interface) => find_at(self.interfaces.items.items(), *interface, name),
            None => 0,
        }
    }

    /// The number of the mode of this name in the interface of the port.
    pub fn mode(&self, port: u32, name: &str) -> u32
        ensures { result ≡ mode_in self.now.interfaces.now self.now.names.now port name.now }
    {
        match self.names.port_interfaces.items().get(port as usize) {
            Some(interface) => find_at(self.interfaces.modes.items(), *interface, name),
            None => 0,
        }
    }
}
