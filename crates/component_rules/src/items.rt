//! The items of ports.

ghost use Rattle.std.specs.Prelude.{◌≡◌, option_copied};
ghost use Rattle.plan_definitions.specs.Common.{words_of_type, words_in, words_at, item_of, item_of_port, item_at};
ghost use Rattle.plan_definitions.specs.Signatures.{kind_at};

use description_types::{
    Component, InterfaceKind, ItemPair, Port, PortKind, SwImplPolicy, TypeTable,
};
use plan_definitions::Item;

fn item_of(types: &TypeTable, kind: &InterfaceKind, item: u32) -> Option<Item>
    ensures { result ≡ item_of types.now kind.now item }
{
    match kind {
        InterfaceKind::SenderReceiver(elements) => {
            let element = elements.items().get(item as usize)?;
            Some(Item::Data(element.sw_impl_policy))
        }
        InterfaceKind::ClientServer(operations) => {
            let _operation = operations.items().get(item as usize)?;
            Some(Item::Operation)
        }
        InterfaceKind::ModeSwitch(element) => {
            let group = types.mode_groups.items().get(element.of_type as usize)?;
            Some(Item::Modes(group.modes.len()))
        }
    }
}

fn item_of_port(types: &TypeTable, port: &Port, item: u32) -> Option<Item>
    ensures { result ≡ item_of_port types.now port.now item }
{
    let interface = types.interfaces.items().get(port.interface as usize)?;
    item_of(types, &interface.kind, item)
}

/// The side of a port, and the item that it has at a position. A mode element stands for each position.
pub fn item_at(types: &TypeTable, ports: &[Port], port: u32, item: u32) -> Option<(PortKind, Item)>
    ensures { result ≡ item_at types.now ports.now port item }
{
    let found = ports.get(port as usize)?;
    let item = item_of_port(types, found, item)?;
    Some((found.kind, item))
}

fn words_of_type(types: &TypeTable, of_type: u32) -> u8
    ensures { result ≡ words_of_type types.now of_type }
{
    match types.data_types.items().get(of_type as usize) {
        Some(found) => found.words,
        None => 0,
    }
}

fn words_in(types: &TypeTable, kind: &InterfaceKind, item: u32) -> u8
    ensures { result ≡ words_in types.now kind.now item }
{
    match kind {
        InterfaceKind::SenderReceiver(elements) => match elements.items().get(item as usize) {
            Some(element) => words_of_type(types, element.of_type),
            None => 0,
        },
        InterfaceKind::ClientServer(_) | InterfaceKind::ModeSwitch(_) => 0,
    }
}

/// What the items of a port are.
pub fn kind_at<'a>(
    types: &'a TypeTable,
    component: &Component,
    port: u32,
) -> Option<&'a InterfaceKind>
    ensures { option_copied result ≡ kind_at types.now component.now port }
{
    let found = component.ports.items().get(port as usize)?;
    let interface = types.interfaces.items().get(found.interface as usize)?;
    Some(&interface.kind)
}

/// How many words an item of a port has; only data elements have some.
pub fn words_at(types: &TypeTable, component: &Component, pair: ItemPair) -> u8
    ensures { result ≡ words_at types.now component.now pair }
{
    match kind_at(types, component, pair.port) {
        Some(kind) => words_in(types, kind, pair.item),
        None => 0,
    }
}
