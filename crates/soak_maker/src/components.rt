//! What does not depend on the number of pairs.

ghost use Rattle.std.specs.Prelude.{◌≡◌, IfOk};
ghost use Rattle.serde_json.specs.View.{view};
ghost use Rattle.soak_maker.specs.Components.{consumer_text, data_types_text, interfaces_text, producer_text, server_text};
ghost use Rattle.soak_maker.specs.Json as json;

use crate::text::written;
use rte_text::Memory;
use serde_json::Value;
use std::alloc::Global;

/// The data types: the payload of the queues, and the numbers that all else holds.
pub(crate) fn data_types(alloc: Global) -> Result<Value, Memory>
    ensures { IfOk result (λ v. view v ≡ json.written data_types_text) }
{
    written(
        alloc,
        r#"[{"shortName": "Pay", "baseType": "uint32", "lower": 0, "upper": 1000000, "words": 4},
{"shortName": "Num", "baseType": "uint32", "lower": 0, "upper": 1000000, "words": 1}]"#,
    )
}

/// The interfaces: a queue, and a server that adds.
pub(crate) fn interfaces(alloc: Global) -> Result<Value, Memory>
    ensures { IfOk result (λ v. view v ≡ json.written interfaces_text) }
{
    written(
        alloc,
        r#"[{"kind": "SenderReceiverInterface", "shortName": "Q", "dataElements": [
{"shortName": "d", "type": "Pay", "swImplPolicy": "queued"}]},
{"kind": "ClientServerInterface", "shortName": "S", "operations": [{"shortName": "add", "arguments": [
{"shortName": "x", "type": "Num", "direction": "in"}, {"shortName": "t", "type": "Num", "direction": "out"}]}]}]"#,
    )
}

/// A component that sends four payloads at each tenth tick, and then calls the server.
pub(crate) fn producer(alloc: Global) -> Result<Value, Memory>
    ensures { IfOk result (λ v. view v ≡ json.written producer_text) }
{
    written(
        alloc,
        r#"{"shortName": "Prod", "ports": [
{"kind": "PPortPrototype", "shortName": "q", "interface": "Q"},
{"kind": "RPortPrototype", "shortName": "s", "interface": "S"}],
"behavior": {"variables": [{"shortName": "n", "type": "Num"}], "runnables": [{"shortName": "Make",
"accesses": [["irvRead", "n"], ["send", "q", "d"], ["irvWrite", "n"], ["call", "s", "add"]],
"program": [["irvRead", "n", ["k"]],
["repeat", 4, [["set", "k", ["add", "k", 1]], ["send", "q", "d", ["k", "k", "k", "k"], "e"]]],
["irvWrite", "n", ["k"]], ["call", "s", "add", ["k"], ["t"], "e"]]}],
"events": [{"kind": "TimingEvent", "shortName": "Ev", "runnable": "Make", "period": 10}]}}"#,
    )
}

/// A component that takes all payloads that have come, inside an exclusive area.
pub(crate) fn consumer(alloc: Global) -> Result<Value, Memory>
    ensures { IfOk result (λ v. view v ≡ json.written consumer_text) }
{
    written(
        alloc,
        r#"{"shortName": "Cons", "ports": [
{"kind": "RPortPrototype", "shortName": "q", "interface": "Q", "comSpecs": [{"element": "d", "queueLength": 8}]}],
"behavior": {"exclusiveAreas": ["a"], "variables": [{"shortName": "m", "type": "Num"}], "runnables": [{"shortName": "Take",
"accesses": [["enter", "a"], ["receive", "q", "d"], ["irvRead", "m"], ["irvWrite", "m"]],
"program": [["area", "a", [["repeat", 8, [["receive", "q", "d", ["w", "x", "y", "z"], "e"],
["if", ["eq", "e", 131], [], [["irvRead", "m", ["c"]], ["irvWrite", "m", [["add", "c", 1]]]]]]]]]]}],
"events": [{"kind": "DataReceivedEvent", "shortName": "Ev", "runnable": "Take", "port": "q", "element": "d"}]}}"#,
    )
}

/// The component that serves the calls: it sums what it is given.
pub(crate) fn server(alloc: Global) -> Result<Value, Memory>
    ensures { IfOk result (λ v. view v ≡ json.written server_text) }
{
    written(
        alloc,
        r#"{"shortName": "Acc", "ports": [
{"kind": "PPortPrototype", "shortName": "s", "interface": "S", "comSpecs": [{"element": "add", "queueLength": 64}]}],
"behavior": {"variables": [{"shortName": "sum", "type": "Num"}], "runnables": [{"shortName": "Add",
"accesses": [["irvRead", "sum"], ["irvWrite", "sum"]],
"program": [["irvRead", "sum", ["t"]], ["set", "t", ["add", "t", "x"]], ["irvWrite", "sum", ["t"]]]}],
"events": [{"kind": "OperationInvokedEvent", "shortName": "Ev", "runnable": "Add", "port": "s", "operation": "add"}]}}"#,
    )
}
