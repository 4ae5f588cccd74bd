//! Numbers of keys.

ghost use Rattle.std.specs.Prelude.{◌≡◌, ◌<◌, ◌^◌};

use crate::positions::Positions;
use rte_text::Memory;
use std::alloc::Global;
use std::hash::Hash;
use std::marker::Model;

/// A thing at a port, as a key: its owner, its port, None for a variable, and its item.
pub type Key = (Option<u32>, Option<u32>, u32);

/// A number as the plan holds it.
pub fn position(number: usize) -> u32
    requires { number < 2 ^ 32 }
    ensures { result ≡ number }
{
    number as u32
}

/// Keys in an order, seen as their list, with the number of each, found by hash.
#[derive(Drop)]
pub struct Numbers<K: Eq + Hash + Copy> {
    positions: Positions<K>,
}

impl<K: Eq + Hash + Copy> Model for Numbers<K> {
    ghost use Rattle.std.specs.Prelude.{◌<◌, ◌^◌, List, length};

    ghost Value = { List K };

    ghost view = { λ n. n.positions };

    ghost invariant = { λ n. length n.positions < 2 ^ 32 };
}

impl<K: Eq + Hash + Copy> Numbers<K> {
    ghost use Rattle.std.specs.Prelude.{◌≡◌, ◌<◌, ◌^◌, IfOk, length};
    ghost use Rattle.std.specs.List.{position_from};
    ghost use Rattle.std.specs.Option.{unwrap_or};

    /// The numbers of these keys: their positions.
    pub fn of(alloc: Global, keys: &[K]) -> Result<Numbers<K>, Memory>
        requires { length keys.now < 2 ^ 32 }
        ensures { IfOk result (λ numbers. numbers ≡ keys.now) }
    {
        let positions = Positions::of(alloc, keys)?;
        Ok(Numbers { positions })
    }

    /// The number of a key: its first position, and 0 if it is not among them.
    #[tactic(auto, using(crate::proofs::Numbering::position_within))]
    pub fn number(&self, key: K) -> u32
        ensures { result ≡ unwrap_or (position_from (K.eq key) 0 self.now) 0 }
    {
        match self.positions.find(key) {
            Some(number) => number as u32,
            None => 0,
        }
    }

    /// How many keys there are.
    pub fn len(&self) -> usize
        ensures { result ≡ length self.now }
    {
        self.positions.len()
    }
}
