//! The arithmetic of words, held to signed 64 bits.

ghost use Rattle.std.specs.Prelude.{◌≡◌, ◌≤ℤ◌};
ghost use Rattle.rte_value.specs.Arithmetic.{saturating_sum, saturating_difference, saturating_product, quotient_or_zero, comparison, clamped};

use crate::{Cmp, Limits, Word};

/// The sum, or the nearest word.
pub fn add(a: Word, b: Word) -> Word
    ensures { result ≡ saturating_sum a b }
{
    a.saturating_add(b)
}

/// The difference, or the nearest word.
pub fn sub(a: Word, b: Word) -> Word
    ensures { result ≡ saturating_difference a b }
{
    a.saturating_sub(b)
}

/// The product, or the nearest word.
pub fn mul(a: Word, b: Word) -> Word
    ensures { result ≡ saturating_product a b }
{
    a.saturating_mul(b)
}

/// The quotient truncated towards zero, or the nearest word, and 0 for a zero divisor.
pub fn div(a: Word, b: Word) -> Word
    ensures { result ≡ quotient_or_zero a b }
{
    if b == 0 {
        0
    } else if a == Word::MIN && b == -1 {
        Word::MAX
    } else {
        a / b
    }
}

/// 1 if the comparison holds, and else 0.
pub fn cmp(kind: Cmp, a: Word, b: Word) -> Word
    ensures { result ≡ comparison kind a b }
{
    let holds = match kind {
        Cmp::Eq => a == b,
        Cmp::Ne => a != b,
        Cmp::Lt => a < b,
        Cmp::Le => a <= b,
    };
    if holds { 1 } else { 0 }
}

/// The word itself if it lies within the limits, and else the limit that it passes.
pub fn clamp(word: Word, limits: &Limits) -> Word
    requires { limits.now.low ≤ℤ limits.now.high }
    ensures value { result ≡ clamped limits.now word }
    ensures above_low { limits.now.low ≤ℤ result }
    ensures below_high { result ≤ℤ limits.now.high }
{
    word.clamp(limits.low, limits.high)
}
