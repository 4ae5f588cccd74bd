//! Names of items of ports, and of variables.

ghost use Rattle.std.specs.Prelude.{◌≡◌, ◌++◌, [], IfOk, Some, codes, option_copied};
ghost use Rattle.std.specs.Option.{option_map_or};
ghost use Rattle.plan_definitions.specs.Ports.{item_name, item_text, variable_name};

use crate::owners::{component_of, interface_at, port_of};
use description_types::{Description, Flat, InterfaceKind, Port};
use rte_text::{Memory, Text};
use std::alloc::Global;

fn item_name(kind: &InterfaceKind, item: u32) -> &[u8]
    ensures { result.now ≡ item_name kind.now item }
{
    match kind {
        InterfaceKind::SenderReceiver(elements) => match elements.items().get(item as usize) {
            Some(element) => element.short_name.bytes(),
            None => &[],
        },
        InterfaceKind::ClientServer(operations) => match operations.items().get(item as usize) {
            Some(operation) => operation.short_name.bytes(),
            None => &[],
        },
        InterfaceKind::ModeSwitch(element) => element.short_name.bytes(),
    }
}

fn name_of_port(port: Option<&Port>) -> &[u8]
    ensures { result.now ≡ option_map_or (λ p. p.short_name) (option_copied port.entry) [] }
{
    match port {
        Some(port) => port.short_name.bytes(),
        None => &[],
    }
}

fn name_of_item(kind: Option<&InterfaceKind>, item: u32) -> &[u8]
    ensures { result.now ≡ option_map_or (λ k. item_name k item) (option_copied kind.entry) [] }
{
    match kind {
        Some(kind) => item_name(kind, item),
        None => &[],
    }
}

/// Two texts with a dot between them.
fn dotted(alloc: Global, first: &[u8], second: &[u8]) -> Result<Text, Memory>
    ensures { IfOk result (λ text. text ≡ (first.now ++ codes ".") ++ second.now) }
{
    if let Some(text) = Text::dotted(first, second) {
        return Ok(text);
    }
    let room = first.len().saturating_add(second.len()).saturating_add(1);
    let mut held = Vec::with_capacity(alloc, room)?;
    held.extend_from_slice(first)?;
    held.push(b'.')?;
    held.extend_from_slice(second)?;
    Ok(Text::of(held))
}

/// The text PORT.ITEM of an item, from its port and the interface of its port.
pub fn text_at(
    alloc: Global,
    port: Option<&Port>,
    kind: Option<&InterfaceKind>,
    item: u32,
) -> Result<Text, Memory>
    ensures { IfOk result (λ text. text ≡ (option_map_or (λ p. p.short_name) (option_copied port.entry) [] ++ codes ".") ++ option_map_or (λ k. item_name k item) (option_copied kind.entry) []) }
{
    dotted(alloc, name_of_port(port), name_of_item(kind, item))
}

/// The text PORT.ITEM of an item.
pub fn item_text(
    alloc: Global,
    d: &Description,
    f: &Flat,
    owner: Option<u32>,
    port: u32,
    item: u32,
) -> Result<Text, Memory>
    ensures { IfOk result (λ text. text ≡ item_text d.now f.now owner port item) }
{
    let found = port_of(d, f, owner, port);
    text_at(alloc, found, interface_at(d, found), item)
}

fn variable_of_instance<'a>(d: &'a Description, f: &Flat, instance: u32, item: u32) -> &'a [u8]
    ensures { result.now ≡ variable_name d.now f.now (Some instance) item }
{
    let Some(component) = component_of(d, f, instance) else {
        return &[];
    };
    match component.behavior.variables.items().get(item as usize) {
        Some(variable) => variable.short_name.bytes(),
        None => &[],
    }
}

/// The name of a variable of an instance. The environment has none.
pub fn variable_name<'a>(d: &'a Description, f: &Flat, owner: Option<u32>, item: u32) -> &'a [u8]
    ensures { result.now ≡ variable_name d.now f.now owner item }
{
    match owner {
        Some(instance) => variable_of_instance(d, f, instance, item),
        None => &[],
    }
}
