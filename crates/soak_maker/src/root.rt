//! The composition of all, its mapping, and the whole description.

ghost use Rattle.std.specs.Prelude.{◌≡◌, IfOk};
ghost use Rattle.serde_json.specs.View.{view};
ghost use Rattle.soak_maker.specs.Soak as soak;

use crate::components::{consumer, data_types, interfaces, producer, server};
use crate::parts::{Numbered, add_parts, in_task, prototype, task};
use rte_text::Memory;
use serde_json::{Value, json};
use std::alloc::Global;

/// The prototypes: producers, consumers, the server.
fn prototypes(alloc: Global, n: u32) -> Result<Value, Memory>
    ensures { IfOk result (λ v. view v ≡ soak.prototypes n) }
{
    let mut list = Vec::new(alloc);
    add_parts(alloc, Numbered::Producer, n, &mut list)?;
    add_parts(alloc, Numbered::Consumer, n, &mut list)?;
    let server = prototype(alloc, "acc", "Acc")?;
    list.push(server)?;
    Ok(Value::Array(list))
}

/// The connectors: from each producer to its consumer, then from the server to each producer.
fn connectors(alloc: Global, n: u32) -> Result<Value, Memory>
    ensures { IfOk result (λ v. view v ≡ soak.connectors n) }
{
    let mut list = Vec::new(alloc);
    add_parts(alloc, Numbered::Queue, n, &mut list)?;
    add_parts(alloc, Numbered::Service, n, &mut list)?;
    Ok(Value::Array(list))
}

/// The tasks: four of producers, four of consumers, and the server's.
fn tasks(alloc: Global) -> Result<Value, Memory>
    ensures { IfOk result (λ v. view v ≡ soak.tasks) }
{
    let mut list = Vec::new(alloc);
    add_parts(alloc, Numbered::ProducerTask, 4, &mut list)?;
    add_parts(alloc, Numbered::ConsumerTask, 4, &mut list)?;
    let server = task(alloc, "A", 0)?;
    list.push(server)?;
    Ok(Value::Array(list))
}

/// The events in their tasks, in the order of the prototypes.
fn events(alloc: Global, n: u32) -> Result<Value, Memory>
    ensures { IfOk result (λ v. view v ≡ soak.events n) }
{
    let mut list = Vec::new(alloc);
    add_parts(alloc, Numbered::Producing, n, &mut list)?;
    add_parts(alloc, Numbered::Consuming, n, &mut list)?;
    let server = in_task(alloc, "acc", "A", 0)?;
    list.push(server)?;
    Ok(Value::Array(list))
}

/// The components.
fn components(alloc: Global) -> Result<Value, Memory>
    ensures { IfOk result (λ v. view v ≡ soak.components) }
{
    let first = producer(alloc)?;
    let second = consumer(alloc)?;
    let third = server(alloc)?;
    json!(in alloc; [first, second, third])
}

/// The compositions, of which there is one.
fn compositions(alloc: Global, n: u32) -> Result<Value, Memory>
    ensures { IfOk result (λ v. view v ≡ soak.compositions n) }
{
    let inside = prototypes(alloc, n)?;
    let joined = connectors(alloc, n)?;
    json!(in alloc; [{"shortName": "Top", "prototypes": inside, "connectors": joined}])
}

/// The mapping of the events to tasks on four cores.
fn mapping(alloc: Global, n: u32) -> Result<Value, Memory>
    ensures { IfOk result (λ v. view v ≡ soak.mapping n) }
{
    let homes = tasks(alloc)?;
    let mapped = events(alloc, n)?;
    json!(in alloc; {"cores": 4, "tasks": homes, "events": mapped})
}

/// The description of so many pairs.
pub(crate) fn description(alloc: Global, n: u32) -> Result<Value, Memory>
    ensures { IfOk result (λ v. view v ≡ soak.soak_value n) }
{
    let types = data_types(alloc)?;
    let between = interfaces(alloc)?;
    let parts = components(alloc)?;
    let whole = compositions(alloc, n)?;
    let homes = mapping(alloc, n)?;
    json!(in alloc; {
        "dataTypes": types,
        "interfaces": between,
        "components": parts,
        "compositions": whole,
        "root": "Top",
        "mapping": homes
    })
}
