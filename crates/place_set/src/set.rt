//! A set of places below a length.

ghost use Rattle.std.specs.Prelude.{◌≡◌, ◌<◌, ◌≤◌, ◌+◌, ◌*◌, ℕ, length, replicate, true, false, slice_set, slice_index_or, IfOk};
ghost use Rattle.place_set.specs.Bits.{IsSummary, IsFirstBit};
ghost use Rattle.place_set.specs.Places.{IsNext};

use crate::Memory;
use crate::bits::{WORD, clear_bit, first_bit, first_of_word, has_bit, set_bit};
use std::alloc::Global;
use std::marker::Model;

/// A set of places below a length, which takes no memory once it is made. It is seen as a flag for each place: whether
/// it is in the set.
#[derive(Drop)]
pub struct PlaceSet {
    /// How many flags there are.
    len: usize,
    /// A bit for each flag.
    words: Vec<u64>,
    /// A bit for each word: whether one of its bits is set.
    summary: Vec<u64>,
}

impl Model for PlaceSet {
    ghost use Rattle.std.specs.Prelude.{List, Bool};
    ghost use Rattle.place_set.specs.Bits.{flags_of, IsSummary};

    ghost Value = { List Bool };

    ghost view = { λ s. flags_of s.words.items s.len };

    ghost invariant = { λ s. IsSummary s.len s.words.items s.summary.items };
}

impl PlaceSet {
    /// Each place below a length. The only error is that there is no memory.
    pub fn full(alloc: Global, len: usize) -> Result<PlaceSet, Memory>
        ensures { IfOk result (λ s. s ≡ replicate len true) }
    {
        let count = len / WORD + 1;
        let words = vec![in alloc; u64::MAX; count]?;
        let summary = vec![in alloc; u64::MAX; count / WORD + 1]?;
        Ok(PlaceSet {
            len,
            words,
            summary,
        })
    }

    /// No place below a length. The only error is that there is no memory.
    pub fn empty(alloc: Global, len: usize) -> Result<PlaceSet, Memory>
        ensures { IfOk result (λ s. s ≡ replicate len false) }
    {
        let count = len / WORD + 1;
        let words = vec![in alloc; 0; count]?;
        let summary = vec![in alloc; 0; count / WORD + 1]?;
        Ok(PlaceSet {
            len,
            words,
            summary,
        })
    }

    /// Whether a place is in the set. One past its length is not.
    pub fn contains(&self, place: usize) -> bool
        ensures { result ≡ slice_index_or self.now place false }
    {
        place < self.len && has_bit(&self.words, place)
    }

    /// Puts a place into the set.
    pub fn insert(&mut self, place: usize)
        requires { place < length self.old }
        ensures { self.new ≡ slice_set self.old place true }
    {
        set_bit(&mut self.words, place);
        set_bit(&mut self.summary, place / WORD);
    }

    /// Takes a place out of the set.
    pub fn remove(&mut self, place: usize)
        requires { place < length self.old }
        ensures { self.new ≡ slice_set self.old place false }
    {
        if clear_bit(&mut self.words, place) {
            clear_bit(&mut self.summary, place / WORD);
        }
    }

    /// The first place of the set that is not before this one. It looks at one word for 64 places, and then at one for each
    /// 4,096 places that are left.
    pub fn next(&mut self, from: usize) -> Option<usize>
        ensures same { self.new ≡ self.old }
        ensures next { IsNext self.old from (length self.old) result }
    {
        match next_bit(self.len, &self.words, &self.summary, from) {
            Some(at) if at < self.len => Some(at),
            _ => None,
        }
    }
}

/// The first bit that is set, of the words behind one.
fn first_behind(len: usize, words: &[u64], summary: &[u64], behind: usize) -> Option<usize>
    requires within { behind < length words.now }
    requires summary { IsSummary len words.now summary.now }
    ensures { IsFirstBit words.now (behind * 64 + 64) result }
{
    match first_bit(summary, behind + 1) {
        Some(word) if word < words.len() => {
            Some(word * WORD + words[word].trailing_zeros() as usize)
        }
        _ => None,
    }
}

/// The first bit that is set and not before a place.
fn next_bit(len: usize, words: &[u64], summary: &[u64], from: usize) -> Option<usize>
    requires { IsSummary len words.now summary.now }
    ensures { IsFirstBit words.now from result }
{
    let word = from / WORD;
    if word >= words.len() {
        return None;
    }
    match first_of_word(words[word], (from % WORD) as u32) {
        Some(at) => Some(word * WORD + at as usize),
        None => first_behind(len, words, summary, word),
    }
}
