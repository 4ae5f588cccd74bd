//! Calls in their order, and the numbers of the points at which they are made.

ghost use Rattle.std.specs.Prelude.{◌≡◌, ◌<◌, ◌^◌, IfOk, length, map};
ghost use Rattle.plan_definitions.specs.Callings.{call_key, left_key};

use crate::callings::callings_of;
use description_types::{Description, Flat};
use plan_definitions::Calling;
use plan_numbers::{EndKey, Numbers};
use rte_text::Memory;
use std::alloc::Global;
use std::marker::Model;

type CallKey = (Option<(u32, u32)>, u32, u32);

fn call_key(calling: Calling) -> CallKey
    ensures { result ≡ call_key calling }
{
    (calling.caller, calling.port, calling.item)
}

fn left_key(calling: Calling) -> EndKey
    ensures { result ≡ left_key calling }
{
    let owner = match calling.caller {
        Some(caller) if calling.asynchronous => Some(caller.0),
        _ => None,
    };
    (owner, calling.port, calling.item)
}

fn call_keys(alloc: Global, list: &[Calling]) -> Result<Vec<CallKey>, Memory>
    ensures { IfOk result (λ keys. keys.items ≡ map call_key list.now) }
{
    let mut keys = Vec::new(alloc);
    for calling in list {
        keys.push(call_key(*calling))?;
    }
    Ok(keys)
}

fn left_keys(alloc: Global, list: &[Calling]) -> Result<Vec<EndKey>, Memory>
    ensures { IfOk result (λ keys. keys.items ≡ map left_key list.now) }
{
    let mut keys = Vec::new(alloc);
    for calling in list {
        keys.push(left_key(*calling))?;
    }
    Ok(keys)
}

fn calls_of(alloc: Global, list: &[Calling]) -> Result<Numbers<CallKey>, Memory>
    requires { length list.now < 2 ^ 32 }
    ensures { IfOk result (λ numbers. numbers ≡ map call_key list.now) }
{
    let keys = call_keys(alloc, list)?;
    Numbers::of(alloc, keys.as_slice())
}

fn left_of(alloc: Global, list: &[Calling]) -> Result<Numbers<EndKey>, Memory>
    requires { length list.now < 2 ^ 32 }
    ensures { IfOk result (λ numbers. numbers ≡ map left_key list.now) }
{
    let keys = left_keys(alloc, list)?;
    Numbers::of(alloc, keys.as_slice())
}

/// Calls, seen as their list, found by hash.
#[derive(Drop)]
pub struct Callings {
    list: Vec<Calling>,
    calls: Numbers<CallKey>,
    left: Numbers<EndKey>,
}

impl Model for Callings {
    ghost use Rattle.std.specs.Prelude.{◌≡◌, List, map};
    ghost use Rattle.plan_definitions.specs.declared.calling.Calling.{Calling};
    ghost use Rattle.plan_definitions.specs.Callings.{call_key, left_key};

    ghost Value = { List Calling };

    ghost view = { λ c. c.list.items };

    ghost invariant = { λ c. (c.calls ≡ map call_key c.list.items) × (c.left ≡ map left_key c.list.items) };
}

impl Callings {
    ghost use Rattle.std.specs.Prelude.{◌≡◌, IfOk};
    ghost use Rattle.plan_definitions.specs.Callings.{callings, first_calling, is_calling, leaves};
    ghost use Rattle.plan_definitions.specs.Sizes.{HasFewThings};

    /// All calls that may be made: by instance, runnable and access, then each operation that the root provides, which the
    /// environment may call.
    pub fn of(alloc: Global, d: &Description, f: &Flat) -> Result<Callings, Memory>
        requires { HasFewThings d.now f.now }
        ensures { IfOk result (λ found. found ≡ callings d.now f.now) }
    {
        let list = callings_of(alloc, d, f)?;
        let calls = calls_of(alloc, list.as_slice())?;
        let left = left_of(alloc, list.as_slice())?;
        Ok(Callings { list, calls, left })
    }

    /// The calls, in order.
    pub fn items(&self) -> &[Calling]
        ensures { result.now ≡ self.now }
    {
        self.list.as_slice()
    }

    /// The number of the point at which a runnable of an instance calls an operation; 0 if there is none.
    pub fn called(&self, instance: u32, runnable: u32, port: u32, item: u32) -> u32
        ensures { result ≡ first_calling (is_calling (instance, runnable) port item) self.now }
    {
        self.calls.number((Some((instance, runnable)), port, item))
    }

    /// The number of the first point of an instance at which it calls an operation without waiting; 0 if there is none.
    pub fn left(&self, instance: u32, port: u32, item: u32) -> u32
        ensures { result ≡ first_calling (leaves instance port item) self.now }
    {
        self.left.number((Some(instance), port, item))
    }
}
