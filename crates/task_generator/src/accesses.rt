//! The accesses of a signature, with their numbers, under what statements name.

ghost use Rattle.std.specs.Prelude.{◌≡◌, IfOk};
ghost use Rattle.runnable_lang.specs.Accesses.{kind_number};
ghost use Rattle.task_generator.specs.Numbers.{numbers, numbered};
ghost use Rattle.task_generator.specs.Found.{numbered_of, access_in, AreFound};
ghost use Rattle.task_generator.specs.Bounded.{GivesFewWords};

use crate::Memory;
use crate::numbers::numbers_of;
use indexmap::IndexMap;
use rte_value::Limits;
use runnable_lang::{AccessKind, AccessSig};
use std::alloc::Global;

/// What a statement names: the number of its kind, the port and the item.
pub type Key = (u8, u32, u32);

/// An access: its number, and the limits of the words that it gives.
#[derive(Clone, Copy)]
pub struct Numbered<'p> {
    pub number: usize,
    pub ins: &'p [Limits],
}

/// The key of what a statement names.
fn key_of(kind: AccessKind, port: u32, item: u32) -> Key
    ensures { result ≡ (kind_number kind, port, item) }
{
    (kind as u8, port, item)
}

/// The accesses of a signature, which have these numbers of their own, by their keys; the first one if a key is doubled.
fn found_of<'p>(
    alloc: Global,
    accesses: &'p [AccessSig],
    own: &[usize],
) -> Result<IndexMap<Key, Numbered<'p>>, Memory>
    requires own { own.now ≡ numbers accesses.now }
    ensures { IfOk result (λ found. AreFound accesses.now found) }
{
    let mut found = IndexMap::new(alloc);
    let mut left = accesses.len().min(own.len());
    while left > 0 {
        left -= 1;
        let access = &accesses[left];
        let key = key_of(access.kind, access.port, access.item);
        let ins = access.ins.items();
        let number = own[left];
        found.insert(key, Numbered { number, ins })?;
    }
    Ok(found)
}

/// An access that may have been found. One that there is not has the number 0 and gives no word.
fn named(found: Option<Numbered<'_>>) -> Numbered<'_>
    ensures { numbered_of result ≡ access_in found.entry }
{
    match found {
        Some(access) => access,
        None => Numbered {
            number: 0,
            ins: &[],
        },
    }
}

/// The accesses of a signature, each found in one step.
#[derive(Drop)]
pub struct Accesses<'p> {
    pub list: &'p [AccessSig],
    found: IndexMap<Key, Numbered<'p>>,
    ghost all: { AreFound list.now found },
    pub ghost few: { GivesFewWords list.now },
}

impl<'p> Accesses<'p> {
    /// The accesses of this list.
    pub fn of(alloc: Global, list: &'p [AccessSig]) -> Result<Accesses<'p>, Memory>
        requires few { GivesFewWords list.now }
        ensures { IfOk result (λ accesses. accesses.list.now ≡ list.now) }
    {
        let numbers = numbers_of(alloc, list)?;
        let found = found_of(alloc, list, numbers.as_slice())?;
        Ok(Accesses { list, found })
    }

    /// The access to this item by a statement of this kind. One that there is not has the number 0 and gives no word.
    pub fn find(&self, kind: AccessKind, port: u32, item: u32) -> Numbered<'p>
        ensures { numbered_of result ≡ numbered self.now.list.now kind port item }
    {
        named(self.found.get(&key_of(kind, port, item)).copied())
    }
}
