//! Values: words joined by commas, or a dash for none.

ghost use Rattle.std.specs.Prelude.{◌≡◌, ◌++◌, IfSome, IfNone, map, true, false};
ghost use Rattle.bus_semantics.specs.Common.{list_all, words_of};
ghost use Rattle.line_fields.specs.Texts.{parts};
ghost use Rattle.line_fields.specs.Numbers.{are_held, is_held, is_value, is_word, word_in, words_in};
ghost use Rattle.line_fields.specs.Cuts.{HasTaken};

use crate::cuts::cut;
use crate::numbers::{is_word, word_in};
use arrayvec::ArrayVec;
use rte_value::{MOST_WORDS, Value, Word};

/// Whether the text is words joined by commas.
fn are_words(text: &[u8]) -> bool
    ensures { result ≡ list_all is_word (parts 44 text.now) }
{
    let mut rest = text;
    loop {
        let (word, after) = cut(rest, b',');
        if !is_word(word) {
            return false;
        }
        match after {
            Some(after) => rest = after,
            None => return true,
        }
    }
}

/// Whether the text is a value.
pub fn is_value(text: &[u8]) -> bool
    ensures { result ≡ is_value text.now }
{
    text == b"-".as_slice() || are_words(text)
}

/// Appends the word that the text is. False if that cannot be held.
fn take_word(held: &mut ArrayVec<Word, MOST_WORDS>, text: &[u8]) -> bool
    requires { is_word text.now ≡ true }
    ensures { HasTaken held.old.items held.new.items (word_in text.now) result }
{
    match word_in(text) {
        Some(word) => held.try_push(word).is_ok(),
        None => false,
    }
}

/// Appends the words of the text. False if these cannot be held.
fn take_words(held: &mut ArrayVec<Word, MOST_WORDS>, text: &[u8]) -> bool
    requires { list_all is_word (parts 44 text.now) ≡ true }
    ensures taken { result ≡ true → held.new.items ≡ held.old.items ++ map word_in (parts 44 text.now) }
    ensures held { result ≡ true → list_all is_held (map word_in (parts 44 text.now)) ≡ true }
    ensures not_held { result ≡ false → are_held (held.old.items ++ map word_in (parts 44 text.now)) ≡ false }
{
    let mut rest = text;
    loop {
        let (word, after) = cut(rest, b',');
        if !take_word(held, word) {
            return false;
        }
        match after {
            Some(after) => rest = after,
            None => return true,
        }
    }
}

/// The value that the text is. None if it has more than 16 words, or a word of more than 64 bits.
pub fn value_in(text: &[u8]) -> Option<Value>
    requires { is_value text.now ≡ true }
    ensures found { IfSome result (λ v. words_of v ≡ words_in text.now) }
    ensures held { IfSome result (λ v. are_held (words_in text.now) ≡ true) }
    ensures none { IfNone result (are_held (words_in text.now) ≡ false) }
{
    let mut held = ArrayVec::<Word, MOST_WORDS>::new();
    if text == b"-".as_slice() || take_words(&mut held, text) {
        Value::new(held.as_slice())
    } else {
        None
    }
}
