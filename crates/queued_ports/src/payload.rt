//! How a value lies in a queue.

ghost use Rattle.std.specs.Prelude.{◌≡◌, ◌≢◌, ◌<◌, length};
ghost use Rattle.rte_value.specs.Values.{words_of};
ghost use Rattle.queued_ports.specs.Packed.{IsPacked, IsThere, after_unpacking};
ghost use Rattle.queued_ports.specs.Laid.{value_of};

use crate::block::Block;
use crate::pool::Pool;
use rte_value::{Value, Word};

/// A value of one word, or the block of a longer one.
#[derive(Drop)]
pub(crate) enum Payload {
    One(Word),
    Many(Block),
}

impl Payload {
    /// The payload of a value of this many words. One word lies in the payload itself, any other number in a block of the
    /// pool.
    pub fn pack(value: &Value, words: u8, pool: &mut Pool) -> Payload
        requires fits { length (words_of value.now) ≡ words }
        requires room { words ≢ 1 → 0 < length pool.old.free }
        ensures { IsPacked value.now pool.old result pool.new }
    {
        if words == 1 {
            return Payload::One(value.words()[0]);
        }
        match pool.take() {
            Some(block) => {
                pool.store(&block, value);
                Payload::Many(block)
            }
            None => unreachable!(),
        }
    }

    /// The value of a payload, whose block is free from then on.
    pub fn unpack(self, pool: &mut Pool) -> Value
        requires { IsThere self pool.old }
        ensures value { result ≡ value_of pool.old.values self }
        ensures kept { pool.new ≡ after_unpacking self pool.old }
    {
        match self {
            Payload::One(word) => Value::of_word(word),
            Payload::Many(block) => {
                let value = pool.load(&block);
                pool.give(block);
                value
            }
        }
    }
}
