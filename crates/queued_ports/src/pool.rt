//! A pool of blocks.

ghost use Rattle.std.specs.Prelude.{◌≡◌, ◌<◌, ◌++◌, ◌↔◌, IfOk, IfSome, IsSome, Some, length};
ghost use Rattle.std.specs.Option.{option_to_list};
ghost use Rattle.queued_ports.specs.KeptBlocks.{IsTaken, after_give, after_store, fresh, value_in};

use crate::Memory;
use crate::block::Block;
use rte_value::Value;
use std::alloc::Global;
use std::marker::Model;

/// Blocks of one value each. It is seen as what each block holds, by its number, and the numbers of those that are free.
///
/// Only `new` takes memory.
#[derive(Drop)]
pub struct Pool {
    values: Vec<Value>,
    free: Vec<u32>,
}

impl Model for Pool {
    ghost use Rattle.queued_ports.specs.KeptBlocks.{Kept};
    ghost use Rattle.queued_ports.specs.Free.{AreFree};

    ghost Value = { Kept };

    ghost view = { λ p. record { values = p.values.items; free = p.free.items } };

    ghost invariant = { λ p. AreFree p.values.items p.free };
}

impl Pool {
    /// A pool of free blocks, each with the value of no words. The only error is that there is no memory.
    pub fn new(alloc: Global, blocks: u32) -> Result<Pool, Memory>
        ensures { IfOk result (λ p. p ≡ fresh blocks) }
    {
        let values = vec![in alloc; Value::empty(); blocks as usize]?;
        let mut free = Vec::with_capacity(alloc, blocks as usize)?;
        for block in 0..blocks {
            free.push_reserved(block);
        }
        Ok(Pool { values, free })
    }

    /// Takes a block that is free. None exactly if none is. What it holds is what it held last.
    pub fn take(&mut self) -> Option<Block>
        ensures variant { IsSome result ↔ (0 < length self.old.free) }
        ensures taken { self.old.free ≡ self.new.free ++ option_to_list result }
        ensures now_taken { IfSome result (λ b. IsTaken b self.new) }
        ensures same { self.new.values ≡ self.old.values }
    {
        match self.free.pop() {
            Some(at) => Some(Block::numbered(at)),
            None => None,
        }
    }

    /// Gives a block back, which is free from then on.
    pub fn give(&mut self, block: Block)
        requires { IsTaken block self.old }
        ensures { self.new ≡ after_give block self.old }
    {
        self.free.push_reserved(block.number());
    }

    /// What a block holds.
    pub fn load(&self, block: &Block) -> Value
        requires { IsTaken block.now self.now }
        ensures { Some result ≡ value_in block.now self.now }
    {
        self.values[block.number() as usize]
    }

    /// Puts a value into a block.
    pub fn store(&mut self, block: &Block, value: &Value)
        requires { IsTaken block.now self.old }
        ensures { self.new ≡ after_store block.now value.now self.old }
    {
        self.values[block.number() as usize] = *value;
    }
}
