//! Single lines, each appended to a text.

ghost use Rattle.std.specs.Prelude.{◌≡◌, ◌++◌, [], OnOk};
ghost use Rattle.bus_semantics.specs.Plan.{instance_of, plan_of};
ghost use Rattle.plan_definitions.specs.Ports.{item_name, port_name};
ghost use Rattle.plan_text.specs.Lines.{component_text, direct_line, event_line, instance_line, machine_line, owned_text, owner_text, task_line};

use bus_semantics::{BusPlan, EventPlan, MachinePlan};
use description_types::{Description, Flat, Instance, InterfaceKind, MappedEvent, Task};
use itoa::Buffer;
use plan_numbers::ports_of;
use rte_text::Memory;

/// The path of an instance, and `env` for the environment.
pub fn owner_text(f: &Flat, owner: Option<u32>) -> &[u8]
    ensures { result.now ≡ owner_text f.now owner }
{
    match owner {
        None => b"env",
        Some(instance) => match f.instances.items().get(instance as usize) {
            Some(instance) => instance.path.bytes(),
            None => b"",
        },
    }
}

/// Appends INSTANCE.NAME, or env.NAME.
pub fn add_owned(
    f: &Flat,
    owner: Option<u32>,
    name: &[u8],
    text: &mut Vec<u8>,
) -> Result<(), Memory>
    ensures { OnOk result (text.new.items ≡ text.old.items ++ owned_text f.now owner name.now) }
{
    text.extend_from_slice(owner_text(f, owner))?;
    text.push(b'.')?;
    text.extend_from_slice(name)
}

/// The name of an item of an interface.
pub fn item_name(kind: &InterfaceKind, item: u32) -> &[u8]
    ensures { result.now ≡ item_name kind.now item }
{
    match kind {
        InterfaceKind::SenderReceiver(elements) => match elements.items().get(item as usize) {
            Some(element) => element.short_name.bytes(),
            None => &[],
        },
        InterfaceKind::ClientServer(operations) => match operations.items().get(item as usize) {
            Some(operation) => operation.short_name.bytes(),
            None => &[],
        },
        InterfaceKind::ModeSwitch(element) => element.short_name.bytes(),
    }
}

/// The name of a port of an instance, or of the environment.
pub fn port_name<'a>(d: &'a Description, f: &Flat, owner: Option<u32>, port: u32) -> &'a [u8]
    ensures { result.now ≡ port_name d.now f.now owner port }
{
    match ports_of(d, f, owner).get(port as usize) {
        Some(port) => port.short_name.bytes(),
        None => &[],
    }
}

fn component_text(d: &Description, component: u32) -> &[u8]
    ensures { result.now ≡ component_text d.now component }
{
    match d.components.items().get(component as usize) {
        Some(component) => component.short_name.bytes(),
        None => b"",
    }
}

/// Appends `instance PATH TYPE`.
pub fn add_instance(d: &Description, x: &Instance, text: &mut Vec<u8>) -> Result<(), Memory>
    ensures { OnOk result (text.new.items ≡ text.old.items ++ instance_line d.now x.now) }
{
    text.extend_from_slice(b"instance ")?;
    text.extend_from_slice(x.path.bytes())?;
    text.push(b' ')?;
    text.extend_from_slice(component_text(d, x.component))?;
    text.push(b'\n')?;
    Ok(())
}

/// Appends `machine NAME`.
pub fn add_machine(f: &Flat, machine: &MachinePlan, text: &mut Vec<u8>) -> Result<(), Memory>
    ensures { OnOk result (text.new.items ≡ text.old.items ++ machine_line f.now machine.now) }
{
    text.extend_from_slice(b"machine ")?;
    add_owned(f, machine.instance, machine.name.bytes(), text)?;
    text.push(b'\n')?;
    Ok(())
}

/// The instance of a runnable.
fn instance_of(p: &BusPlan, runnable: u32) -> Option<u32>
    ensures { result ≡ instance_of (plan_of p.now) runnable }
{
    match p.runnables.items().get(runnable as usize) {
        Some(runnable) => Some(runnable.instance),
        None => None,
    }
}

/// Appends `direct INSTANCE.EVENT`.
pub fn add_direct(
    f: &Flat,
    p: &BusPlan,
    event: &EventPlan,
    text: &mut Vec<u8>,
) -> Result<(), Memory>
    ensures { OnOk result (text.new.items ≡ text.old.items ++ direct_line f.now p.now event.now) }
{
    text.extend_from_slice(b"direct ")?;
    add_owned(f, instance_of(p, event.runnable), event.name.bytes(), text)?;
    text.push(b'\n')?;
    Ok(())
}

/// Appends `task NAME core N`.
pub fn add_task(task: &Task, text: &mut Vec<u8>) -> Result<(), Memory>
    ensures { OnOk result (text.new.items ≡ text.old.items ++ task_line task.now) }
{
    text.extend_from_slice(b"task ")?;
    text.extend_from_slice(task.short_name.bytes())?;
    text.extend_from_slice(b" core ")?;
    text.extend_from_slice(Buffer::new().format(task.core).as_bytes())?;
    text.push(b'\n')?;
    Ok(())
}

/// Appends `event INSTANCE.EVENT TASK POSITION`.
pub fn add_event(task: &Task, mapped: &MappedEvent, text: &mut Vec<u8>) -> Result<(), Memory>
    ensures { OnOk result (text.new.items ≡ text.old.items ++ event_line task.now mapped.now) }
{
    text.extend_from_slice(b"event ")?;
    text.extend_from_slice(mapped.instance.bytes())?;
    text.push(b'.')?;
    text.extend_from_slice(mapped.event.bytes())?;
    text.push(b' ')?;
    text.extend_from_slice(task.short_name.bytes())?;
    text.push(b' ')?;
    text.extend_from_slice(Buffer::new().format(mapped.position).as_bytes())?;
    text.push(b'\n')?;
    Ok(())
}
