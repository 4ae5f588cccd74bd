//! Numbers in decimal.

ghost use Rattle.std.specs.Prelude.{◌≡◌, ◌^◌, ◌<◌, ◌≤◌, ℕ, IfSome, IfNone, true, false};
ghost use Rattle.std.specs.List.{list_all};
ghost use Rattle.line_fields.specs.Numbers.{is_digit, is_held, is_negated, is_number, is_word, number_in, word_in};

use rte_value::Word;
use std::str;

fn is_digit(byte: u8) -> bool
    ensures { result ≡ is_digit byte }
{
    48 <= byte && byte <= 57
}

/// Whether all bytes are digits.
fn are_digits(text: &[u8]) -> bool
    ensures { result ≡ list_all is_digit text.now }
{
    text.iter().all(|byte| is_digit(*byte))
}

/// Whether the text is a number: in decimal, with no sign and no leading zeros.
pub fn is_number(text: &[u8]) -> bool
    ensures { result ≡ is_number text.now }
{
    match text {
        [] => false,
        [first, rest @ ..] => are_digits(text) && (*first != b'0' || rest.is_empty()),
    }
}

/// Whether the text is a number and not zero.
fn is_negated(text: &[u8]) -> bool
    ensures { result ≡ is_negated text.now }
{
    match text {
        [] => false,
        [first, ..] => is_number(text) && *first != b'0',
    }
}

/// Whether the text is a word: a number, which may have a minus sign if it is not zero.
pub fn is_word(text: &[u8]) -> bool
    ensures { result ≡ is_word text.now }
{
    match text {
        [] => false,
        [b'-', rest @ ..] => is_negated(rest),
        _ => is_number(text),
    }
}

/// The number that the text is. None if it has more than 32 bits.
pub fn number_in(text: &[u8]) -> Option<u32>
    requires { is_number text.now ≡ true }
    ensures found { IfSome result (λ n. n ≡ number_in text.now) }
    ensures none { IfNone result (2 ^ 32 ≤ number_in text.now) }
{
    let Ok(text) = str::from_utf8(text) else {
        return None;
    };
    match text.parse::<u32>() {
        Ok(number) => Some(number),
        Err(_) => None,
    }
}

/// The word that the text is. None if it has more than 64 bits.
pub fn word_in(text: &[u8]) -> Option<Word>
    requires { is_word text.now ≡ true }
    ensures found { IfSome result (λ w. w ≡ word_in text.now) }
    ensures held { IfSome result (λ w. is_held w ≡ true) }
    ensures none { IfNone result (is_held (word_in text.now) ≡ false) }
{
    let Ok(text) = str::from_utf8(text) else {
        return None;
    };
    match text.parse::<i64>() {
        Ok(word) => Some(word),
        Err(_) => None,
    }
}
