//! A value whose words are held within limits.

ghost use Rattle.std.specs.Prelude.{◌≡◌, ◌≤ℤ◌, map};
ghost use Rattle.std.specs.List.{All};
ghost use Rattle.rte_value.specs.Arithmetic.{clamped, IsWithin};
ghost use Rattle.rte_value.specs.Values.{words_of};

use crate::{Limits, MOST_WORDS, Value, clamp};

/// The value whose words are these, each clamped to the limits.
pub fn clamp_value(value: &Value, limits: &Limits) -> Value
    requires { limits.now.low ≤ℤ limits.now.high }
    ensures words { words_of result ≡ map (clamped limits.now) (words_of value.now) }
    ensures within { All (IsWithin limits.now) (words_of result) }
{
    let mut words = [0; MOST_WORDS];
    for (i, word) in value.words().iter().enumerate() {
        words[i] = clamp(*word, limits);
    }
    Value {
        words,
        len: value.len,
    }
}
