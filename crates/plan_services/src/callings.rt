//! Who calls which operation.

ghost use Rattle.std.specs.Prelude.{◌≡◌, ◌<◌, ◌^◌, [], ◌∷◌, ◌++◌, IfOk, OnOk, length, map, option_copied, slice_get};
ghost use Rattle.bus_semantics.specs.Common.{flat_map, option_map_or};
ghost use Rattle.plan_definitions.specs.Common.{from, positions, HasFewParts, HasFewThings, HasShortInterfaces, calling_of, callings, callings_in, callings_of_component, operation_count};
ghost use Rattle.plan_definitions.specs.Common.{operations_at, outer_calling, outer_callings};

use description_types::{
    Access, Component, Description, Flat, Instance, InterfaceKind, Port, PortKind, Runnable,
};
use plan_definitions::Calling;
use plan_numbers::{ports_of, position};
use rte_text::Memory;
use runnable_lang::AccessKind;
use std::alloc::Global;

fn push_call(
    list: &mut Vec<Calling>,
    instance: u32,
    runnable: u32,
    access: Access,
) -> Result<(), Memory>
    ensures { OnOk result (list.new.items ≡ list.old.items ++ calling_of instance runnable access) }
{
    let asynchronous = match access.kind {
        AccessKind::Call => false,
        AccessKind::ACall => true,
        _ => return Ok(()),
    };
    list.push(Calling {
        caller: Some((instance, runnable)),
        port: access.port,
        item: access.item,
        asynchronous,
    })?;
    Ok(())
}

fn push_calls(
    list: &mut Vec<Calling>,
    instance: u32,
    runnable: u32,
    accesses: &[Access],
) -> Result<(), Memory>
    ensures { OnOk result (list.new.items ≡ list.old.items ++ flat_map (calling_of instance runnable) accesses.now) }
{
    for access in accesses {
        push_call(list, instance, runnable, *access)?;
    }
    Ok(())
}

fn push_runnable(
    list: &mut Vec<Calling>,
    instance: u32,
    number: usize,
    runnable: &Runnable,
) -> Result<(), Memory>
    requires { number < 2 ^ 32 }
    ensures { OnOk result (list.new.items ≡ list.old.items ++ callings_in instance number runnable.now) }
{
    push_calls(list, instance, position(number), runnable.accesses.items())
}

fn push_runnables(
    list: &mut Vec<Calling>,
    instance: u32,
    runnables: &[Runnable],
) -> Result<(), Memory>
    requires { length runnables.now < 2 ^ 32 }
    ensures { OnOk result (list.new.items ≡ list.old.items ++ from 0 (callings_in instance) runnables.now) }
{
    for (number, runnable) in runnables.iter().enumerate() {
        push_runnable(list, instance, number, runnable)?;
    }
    Ok(())
}

fn component_at<'a>(d: &'a Description, instance: &Instance) -> Option<&'a Component>
    ensures { option_copied result ≡ slice_get d.now.components instance.now.component }
{
    d.components.items().get(instance.component as usize)
}

fn push_instance(
    list: &mut Vec<Calling>,
    d: &Description,
    number: usize,
    instance: &Instance,
) -> Result<(), Memory>
    requires number { number < 2 ^ 32 }
    requires parts { HasFewParts d.now }
    ensures { OnOk result (list.new.items ≡ list.old.items ++ option_map_or (callings_of_component number) (slice_get d.now.components instance.now.component) []) }
{
    match component_at(d, instance) {
        Some(component) => {
            let runnables = component.behavior.runnables.items();
            push_runnables(list, position(number), runnables)
        }
        None => Ok(()),
    }
}

fn push_instances(
    list: &mut Vec<Calling>,
    d: &Description,
    instances: &[Instance],
) -> Result<(), Memory>
    requires instances { length instances.now < 2 ^ 32 }
    requires parts { HasFewParts d.now }
    ensures { OnOk result (list.new.items ≡ list.old.items ++ from 0 (λ i x. option_map_or (callings_of_component i) (slice_get d.now.components x.component) []) instances.now) }
{
    for (number, instance) in instances.iter().enumerate() {
        push_instance(list, d, number, instance)?;
    }
    Ok(())
}

fn operation_count(kind: &InterfaceKind) -> usize
    ensures { result ≡ operation_count kind.now }
{
    match kind {
        InterfaceKind::ClientServer(operations) => operations.len(),
        _ => 0,
    }
}

fn operations_at(d: &Description, port: &Port) -> usize
    ensures { result ≡ operations_at d.now port.now }
{
    match d.types.interfaces.items().get(port.interface as usize) {
        Some(interface) => operation_count(&interface.kind),
        None => 0,
    }
}

fn push_outer_call(list: &mut Vec<Calling>, port: u32, item: u32) -> Result<(), Memory>
    ensures { OnOk result (list.new.items ≡ list.old.items ++ outer_calling port item ∷ []) }
{
    list.push(Calling {
        caller: None,
        port,
        item,
        asynchronous: true,
    })?;
    Ok(())
}

#[tactic(auto, using(plan_definitions::proofs::Turns::none_more))]
fn push_outer_calls(list: &mut Vec<Calling>, port: u32, count: u32) -> Result<(), Memory>
    ensures { OnOk result (list.new.items ≡ list.old.items ++ map (outer_calling port) (positions 0 count)) }
{
    for item in 0..count {
        push_outer_call(list, port, item)?;
    }
    Ok(())
}

fn push_outer_port(
    list: &mut Vec<Calling>,
    d: &Description,
    number: usize,
    port: &Port,
) -> Result<(), Memory>
    requires number { number < 2 ^ 32 }
    requires items { HasShortInterfaces d.now.types }
    ensures { OnOk result (list.new.items ≡ list.old.items ++ outer_callings d.now number port.now) }
{
    match port.kind {
        PortKind::Provided => {
            let count = position(operations_at(d, port));
            push_outer_calls(list, position(number), count)
        }
        PortKind::Required => Ok(()),
    }
}

fn push_outer_ports(list: &mut Vec<Calling>, d: &Description, ports: &[Port]) -> Result<(), Memory>
    requires ports { length ports.now < 2 ^ 32 }
    requires items { HasShortInterfaces d.now.types }
    ensures { OnOk result (list.new.items ≡ list.old.items ++ from 0 (outer_callings d.now) ports.now) }
{
    for (number, port) in ports.iter().enumerate() {
        push_outer_port(list, d, number, port)?;
    }
    Ok(())
}

/// All calls that may be made: by instance, runnable and access, then each operation that the root provides, which the
/// environment may call.
pub fn callings_of(alloc: Global, d: &Description, f: &Flat) -> Result<Vec<Calling>, Memory>
    requires { HasFewThings d.now f.now }
    ensures { IfOk result (λ list. list.items ≡ callings d.now f.now) }
{
    let mut list = Vec::new(alloc);
    push_instances(&mut list, d, f.instances.items())?;
    push_outer_ports(&mut list, d, ports_of(d, f, None))?;
    Ok(list)
}
