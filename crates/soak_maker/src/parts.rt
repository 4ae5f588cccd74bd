//! What each pair of a producer and a consumer adds.

ghost use Rattle.std.specs.Prelude.{◌≡◌, ◌++◌, codes, decimal, map, string_bytes, IfOk, OnOk};
ghost use Rattle.serde_json.specs.View.{view};
ghost use Rattle.soak_maker.specs.Json.{each};
ghost use Rattle.soak_maker.specs.Parts.{assembly, in_task, name, part, prototype, task};

use rte_text::Memory;
use serde_json::{Value, json};
use std::alloc::Global;

/// What there is one of for each number.
#[derive(Clone, Copy, Debug, PartialEq, Eq)]
pub(crate) enum Numbered {
    /// The prototype of a producer.
    Producer,
    /// The prototype of a consumer.
    Consumer,
    /// The connector from a producer to its consumer.
    Queue,
    /// The connector from the server to a producer.
    Service,
    /// A producers' task.
    ProducerTask,
    /// A consumers' task.
    ConsumerTask,
    /// The event of a producer in its task.
    Producing,
    /// The event of a consumer in its task.
    Consuming,
}

/// A letter and a number.
fn name(alloc: Global, letter: &str, number: u32) -> Result<String, Memory>
    ensures { IfOk result (λ s. string_bytes s ≡ name letter.now number) }
{
    format!(in alloc; "{letter}{number}")
}

/// A prototype of this name and component.
pub(crate) fn prototype(alloc: Global, name: &str, component: &str) -> Result<Value, Memory>
    ensures { IfOk result (λ v. view v ≡ prototype name.now component.now) }
{
    json!(in alloc; {"shortName": name, "type": component})
}

/// A connector from a port of one prototype to the port of this name of another.
fn assembly(alloc: Global, provider: &str, requester: &str, port: &str) -> Result<Value, Memory>
    ensures { IfOk result (λ v. view v ≡ assembly provider.now requester.now port.now) }
{
    json!(in alloc; {"kind": "AssemblySwConnector", "provider": [provider, port], "requester": [requester, port]})
}

/// A task on a core.
pub(crate) fn task(alloc: Global, name: &str, core: u32) -> Result<Value, Memory>
    ensures { IfOk result (λ v. view v ≡ task name.now core) }
{
    json!(in alloc; {"shortName": name, "core": core})
}

/// The event of an instance, at a position in a task.
pub(crate) fn in_task(
    alloc: Global,
    instance: &str,
    task: &str,
    position: u32,
) -> Result<Value, Memory>
    ensures { IfOk result (λ v. view v ≡ in_task instance.now task.now position) }
{
    json!(in alloc; {"instance": instance, "event": "Ev", "task": task, "position": position})
}

/// The part of this number.
fn part(alloc: Global, kind: Numbered, i: u32) -> Result<Value, Memory>
    ensures { IfOk result (λ v. view v ≡ part kind i) }
{
    let producer = name(alloc, "p", i)?;
    let consumer = name(alloc, "c", i)?;
    match kind {
        Numbered::Producer => prototype(alloc, producer.as_str(), "Prod"),
        Numbered::Consumer => prototype(alloc, consumer.as_str(), "Cons"),
        Numbered::Queue => assembly(alloc, producer.as_str(), consumer.as_str(), "q"),
        Numbered::Service => assembly(alloc, "acc", producer.as_str(), "s"),
        Numbered::ProducerTask => {
            let named = name(alloc, "P", i)?;
            task(alloc, named.as_str(), i)
        }
        Numbered::ConsumerTask => {
            let named = name(alloc, "C", i)?;
            task(alloc, named.as_str(), i)
        }
        Numbered::Producing => {
            let home = name(alloc, "P", i % 4)?;
            in_task(alloc, producer.as_str(), home.as_str(), i)
        }
        Numbered::Consuming => {
            let home = name(alloc, "C", (i % 4 + 1) % 4)?;
            in_task(alloc, consumer.as_str(), home.as_str(), i)
        }
    }
}

/// Appends the parts of the numbers below `count`, in order.
pub(crate) fn add_parts(
    alloc: Global,
    kind: Numbered,
    count: u32,
    list: &mut Vec<Value>,
) -> Result<(), Memory>
    ensures { OnOk result (map view list.new.items ≡ map view list.old.items ++ each count (part kind)) }
{
    for i in 0..count {
        let value = part(alloc, kind, i)?;
        list.push(value)?;
    }
    Ok(())
}
