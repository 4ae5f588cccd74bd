//! Names of ends.

ghost use Rattle.std.specs.Prelude.{◌≡◌, IfOk, Some};
ghost use Rattle.plan_definitions.specs.Names.{end_text, item_name, item_of_port, item_text, owner_name, owner_ports};

use crate::item::Item;
use crate::ports::ports_of;
use description_types::{Description, Flat, InterfaceKind, Port, PrototypeType};
use rte_text::{Memory, Text};
use std::alloc::Global;

fn item_name(kind: &InterfaceKind, element: usize) -> &[u8]
    ensures { result.now ≡ item_name kind.now element }
{
    match kind {
        InterfaceKind::SenderReceiver(elements) => {
            match elements.items().get(element) {
                Some(found) => found.short_name.bytes(),
                None => &[],
            }
        }
        InterfaceKind::ClientServer(operations) => {
            match operations.items().get(element) {
                Some(found) => found.short_name.bytes(),
                None => &[],
            }
        }
        InterfaceKind::ModeSwitch(found) => found.short_name.bytes(),
    }
}

fn item_of_port<'a>(d: &'a Description, port: &Port, element: usize) -> &'a [u8]
    ensures { result.now ≡ item_of_port d.now port.now element }
{
    match d.types.interfaces.items().get(port.interface as usize) {
        Some(interface) => item_name(&interface.kind, element),
        None => &[],
    }
}

fn owner_name(f: &Flat, instance: Option<usize>) -> &[u8]
    ensures { result.now ≡ owner_name f.now instance }
{
    match instance {
        Some(number) => match f.instances.items().get(number) {
            Some(found) => found.path.bytes(),
            None => &[],
        },
        None => "env".as_bytes(),
    }
}

fn owner_ports<'a>(d: &'a Description, f: &Flat, instance: Option<usize>) -> &'a [Port]
    ensures { result.now ≡ owner_ports d.now f.now instance }
{
    match instance {
        Some(number) => match f.instances.items().get(number) {
            Some(found) => ports_of(d, PrototypeType::Component(found.component)),
            None => &[],
        },
        None => ports_of(d, PrototypeType::Composition(d.root)),
    }
}

fn item_text(alloc: Global, d: &Description, port: &Port, element: usize) -> Result<Vec<u8>, Memory>
    ensures { IfOk result (λ text. text.items ≡ item_text d.now (Some port.now) element) }
{
    let mut text = Vec::from_slice(alloc, port.short_name.bytes())?;
    text.extend_from_slice(".".as_bytes())?;
    text.extend_from_slice(item_of_port(d, port, element))?;
    Ok(text)
}

/// The name of an item, as `b/r0.i.v` or `env.p.o`.
pub fn end_text(alloc: Global, d: &Description, f: &Flat, item: &Item) -> Result<Text, Memory>
    ensures { IfOk result (λ text. text ≡ end_text d.now f.now item.now) }
{
    let mut text = Vec::from_slice(alloc, owner_name(f, item.instance()))?;
    text.extend_from_slice(".".as_bytes())?;
    if let Some(port) = owner_ports(d, f, item.instance()).get(item.port()) {
        let name = item_text(alloc, d, port, item.element())?;
        text.extend_from_slice(name.as_slice())?;
    }
    Ok(Text::of(text))
}
