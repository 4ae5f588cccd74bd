//! The words of a frame that is coming.

ghost use Rattle.std.specs.Prelude.{◌≡◌, ◌≢◌, ◌<◌, MatchOption, length, true};
ghost use Rattle.signal_link.specs.Frames.{header};
ghost use Rattle.signal_link.specs.Links.{is_link};
ghost use Rattle.signal_link.specs.Parts.{IsPayload, IsPushed, IsValueOf, payload_bytes};

use crate::link_elem::LinkElem;
use crate::word_head::WordHead;
use arrayvec::ArrayVec;
use rte_value::{MOST_WORDS, Value, Word};

/// What came of a frame whose header came.
#[derive(Drop)]
pub(crate) struct Payload {
    /// The number of the link.
    pub(crate) number: u16,
    /// The link of this number.
    pub(crate) link: LinkElem,
    /// The words that came whole, each within the limits.
    pub(crate) words: ArrayVec<Word, MOST_WORDS>,
    /// The beginning of the next word. Some word within the limits begins so.
    pub(crate) head: WordHead,
}

impl Payload {
    /// No byte of the words.
    pub(crate) fn new(number: u16, link: LinkElem) -> Payload
        requires { is_link link ≡ true }
        ensures number { result.number ≡ number }
        ensures link { result.link ≡ link }
        ensures empty { length result.words.items ≡ 0 }
        ensures bytes { payload_bytes result ≡ header number link.words }
        ensures payload { IsPayload result }
    {
        Payload {
            number,
            link,
            words: ArrayVec::new(),
            head: WordHead::empty(),
        }
    }

    /// Takes the next byte. False exactly if no word within the limits begins so; then nothing changes.
    pub(crate) fn push(&mut self, byte: u8) -> bool
        requires payload { IsPayload self.old }
        requires room { length self.old.words.items < self.old.link.words }
        ensures { IsPushed self.old byte self.new result }
    {
        let head = self.head.with(byte);
        if !head.may_be_within(&self.link.limits) {
            return false;
        }
        if head.is_whole() {
            self.words.push(head.word());
            self.head = WordHead::empty();
        } else {
            self.head = head;
        }
        true
    }

    /// The value, once all of its words came.
    pub(crate) fn value(&self) -> Option<Value>
        ensures { MatchOption result (length self.now.words.items ≢ self.now.link.words) (λ v. IsValueOf self.now v) }
    {
        if self.words.len() == self.link.words as usize {
            Value::new(self.words.as_slice())
        } else {
            None
        }
    }
}
