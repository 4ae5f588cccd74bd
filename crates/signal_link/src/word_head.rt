//! The beginning of a word.

ghost use Rattle.std.specs.Prelude.{◌≡◌, ◌≤◌, ◌<◌, ◌+◌, ◌*◌, ◌^◌, ◌↔◌, ◌&&◌, true, IsTrue, int_le, FitsSigned};
ghost use Rattle.std.specs.Int.{w64, cast_signed};
ghost use Rattle.signal_link.specs.Links.{is_within};
ghost use Rattle.signal_link.specs.Parts.{IsHead, IsOpen, empty_head};

use rte_value::{Limits, Word};

/// The first bytes of a word, the highest first.
#[derive(Clone, Copy)]
pub(crate) struct WordHead {
    /// The number that these bytes are.
    pub(crate) number: u64,
    /// How many bytes came.
    pub(crate) count: u32,
}

impl WordHead {
    /// No byte of a word.
    pub(crate) fn empty() -> WordHead
        ensures { result ≡ empty_head }
    {
        WordHead {
            number: 0,
            count: 0,
        }
    }

    /// The head of these bytes and one more.
    pub(crate) fn with(self, byte: u8) -> WordHead
        requires head { IsHead self }
        requires room { self.count < 8 }
        ensures number { result.number ≡ self.number * 256 + byte }
        ensures count { result.count ≡ self.count + 1 }
        ensures head { IsHead result }
    {
        WordHead {
            number: self.number * 256 + byte as u64,
            count: self.count + 1,
        }
    }

    /// Whether a word within the limits begins with these bytes.
    pub(crate) fn may_be_within(self, limits: &Limits) -> bool
        requires head { IsHead self }
        requires some { 1 ≤ self.count }
        requires ordered { int_le limits.now.low limits.now.high ≡ true }
        ensures open { IsTrue result ↔ IsOpen limits.now self }
        ensures whole { result ≡ true → self.count ≡ 8 → is_within limits.now (cast_signed w64 self.number) ≡ true }
    {
        let span = 256u64.pow(8 - self.count);
        let least = self.number * span;
        let greatest = least + (span - 1);
        reach(limits, least.cast_signed(), greatest.cast_signed())
    }

    /// Whether all bytes of the word came.
    pub(crate) fn is_whole(self) -> bool
        ensures { IsTrue result ↔ (self.count ≡ 8) }
    {
        self.count == 8
    }

    /// The word, all bytes of which came.
    pub(crate) fn word(self) -> Word
        ensures { result ≡ cast_signed w64 self.number }
    {
        self.number.cast_signed()
    }
}

/// Whether a word from the least to the greatest lies within the limits.
fn reach(limits: &Limits, least: Word, greatest: Word) -> bool
    ensures reach { result ≡ (int_le limits.now.low greatest && int_le least limits.now.high) }
    ensures low { FitsSigned w64 limits.now.low }
    ensures high { FitsSigned w64 limits.now.high }
{
    let is_low_enough = limits.low <= greatest;
    let is_high_enough = least <= limits.high;
    is_low_enough && is_high_enough
}
