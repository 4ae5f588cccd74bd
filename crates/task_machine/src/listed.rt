//! The slots of a coherent list's elements.

ghost use Rattle.std.specs.Prelude.{◌≡◌, ◌≤◌, ◌++◌, length, take, drop, if◌then◌else◌};
ghost use Rattle.rte_value.specs.Values.{words_of};
ghost use Rattle.task_machine.specs.Spots.{store_of, room_of};
ghost use Rattle.task_machine.specs.Store.{with_fetched};
ghost use Rattle.task_machine.specs.Listed.{has_written, any_written, marks_of, words_written, with_parts};

use crate::instr::SlotPart;
use crate::store::Store;
use arrayvec::ArrayVec;
use rte_value::{MOST_WORDS, Value, Word};

/// More words behind these, as far as there is room.
#[tactic(auto, using(crate::proofs::Listing::filled))]
fn push_words(words: &mut ArrayVec<Word, 16>, more: &[Word])
    ensures { words.new.items ≡ take 16 (words.old.items ++ more.now) }
{
    let count = more.len().min(MOST_WORDS - words.len());
    match words.try_extend_from_slice(&more[..count]) {
        Ok(()) => {}
        Err(_) => unreachable!(),
    }
}

/// The first of these words, so many, or all if there are fewer.
#[tactic(auto, using(crate::proofs::Listing::take_short))]
fn first_words(words: &[Word], count: usize) -> &[Word]
    ensures first { result.now ≡ take count words.now }
    ensures short { length result.now ≤ length words.now }
{
    let count = words.len().min(count);
    &words[..count]
}

/// The words behind the first ones.
#[tactic(auto, using(crate::proofs::Listing::drop_short))]
fn words_behind(words: &[Word], count: usize) -> &[Word]
    ensures behind { result.now ≡ drop count words.now }
    ensures short { length result.now ≤ length words.now }
{
    let count = words.len().min(count);
    &words[count..]
}

/// The bit of a slot: 1 if it was written, and else 0.
fn bit(written: bool) -> u32
    ensures bit { result ≡ (if written then 1 else 0) }
    ensures few { result ≤ 1 }
{
    written as u32
}

impl Store {
    /// Whether something was written into the slot.
    #[tactic(auto, using(crate::proofs::Listing::written_or_not))]
    fn has_written(&self, slot: usize) -> bool
        ensures { result ≡ has_written (store_of self.now) slot }
    {
        !self.is_unwritten(slot)
    }

    /// Whether something was written into one of the slots.
    #[tactic(auto, using(crate::proofs::Listing::any_here, crate::proofs::Listing::any_turn, crate::proofs::Listing::any_end))]
    pub fn any_written(&self, slots: &[usize]) -> bool
        ensures { result ≡ any_written slots.now (store_of self.now) }
    {
        for slot in slots {
            if self.has_written(*slot) {
                return true;
            }
        }
        false
    }

    /// Which of the first 16 slots were written: the lowest bit is the first one's.
    #[tactic(auto, using(crate::proofs::Listing::few_marks))]
    pub fn marks(&self, slots: &[usize]) -> u16
        ensures { result ≡ marks_of slots.now (store_of self.now) }
    {
        let mut marks: u32 = 0;
        let mut left = slots.len().min(MOST_WORDS);
        while left > 0 {
            left -= 1;
            let written = self.has_written(slots[left]);
            marks = 2 * marks + bit(written);
        }
        marks as u16
    }

    /// The first 16 words of what is to be published of these slots, one after the other.
    pub fn published_together(&self, slots: &[usize]) -> Value
        ensures { words_of result ≡ words_written slots.now (store_of self.now) }
    {
        let mut words: ArrayVec<Word, 16> = ArrayVec::new();
        for slot in slots {
            let value = self.published(*slot);
            push_words(&mut words, value.words());
        }
        match Value::new(words.as_slice()) {
            Some(value) => value,
            None => unreachable!(),
        }
    }

    /// The slot takes these words of what was fetched, of which there are at most 16.
    fn fetch_words(&mut self, slot: usize, words: &[Word])
        requires few { length words.now ≤ 16 }
        ensures store { store_of self.new ≡ with_fetched slot words.now (store_of self.old) }
        ensures room { room_of self.new ≡ room_of self.old }
    {
        match Value::new(words) {
            Some(value) => self.fetch(slot, value),
            None => unreachable!(),
        }
    }

    /// Each slot takes so many words of what was fetched together, from the left.
    #[tactic(auto, using(crate::proofs::Listing::parts_end))]
    pub fn fetch_together(&mut self, parts: &[SlotPart], value: &Value)
        ensures store { store_of self.new ≡ with_parts parts.now (words_of value.now) (store_of self.old) }
        ensures room { room_of self.new ≡ room_of self.old }
    {
        let mut words = value.words();
        for part in parts {
            let count = part.words as usize;
            self.fetch_words(part.slot, first_words(words, count));
            words = words_behind(words, count);
        }
    }
}
