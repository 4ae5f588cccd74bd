//! The fields of a line: texts, numbers and values.

ghost use Rattle.std.specs.Prelude.{◌≡◌, [], unwrap_or};
ghost use Rattle.trace_reading.specs.Cuts.{before, behind};
ghost use Rattle.trace_reading.specs.Deeds.{line_at};
ghost use Rattle.trace_reading.specs.Fields.{code_at, no_value, number_at, numbered, value_at};
ghost use Rattle.trace_reading.specs.Pieces.{line_of};

use crate::cuts::cut;
use line_fields::{is_number, is_value, number_in, value_in};
use rte_value::{Code, Value};

/// The fields of a line, which have one space between them. Those that it does not have are empty.
#[derive(Clone, Copy)]
pub struct Fields<'a> {
    pub who: &'a [u8],
    pub word: &'a [u8],
    pub first: &'a [u8],
    pub second: &'a [u8],
    pub third: &'a [u8],
    pub fourth: &'a [u8],
}

/// The first field, and what stands behind it.
fn next(text: &[u8]) -> (&[u8], &[u8])
    ensures first { result.0.now ≡ before 32 text.now }
    ensures rest { result.1.now ≡ unwrap_or (behind 32 text.now) [] }
{
    match cut(text, b' ') {
        (first, Some(rest)) => (first, rest),
        (first, None) => (first, b""),
    }
}

/// The fields of a line.
pub fn split(text: &[u8]) -> Fields<'_>
    ensures { line_of result ≡ line_at text.now }
{
    let (who, rest) = next(text);
    let (word, rest) = next(rest);
    let (first, rest) = next(rest);
    let (second, rest) = next(rest);
    let (third, rest) = next(rest);
    let (fourth, _) = next(rest);
    Fields {
        who,
        word,
        first,
        second,
        third,
        fourth,
    }
}

/// A position as a number of the plan's lists. None if it needs more than 32 bits.
pub fn numbered(place: Option<usize>) -> Option<u32>
    ensures { result ≡ numbered place }
{
    match place {
        Some(place) => u32::try_from(place).ok(),
        None => None,
    }
}

/// The number that the text is.
pub fn number_at(text: &[u8]) -> Option<u32>
    ensures { result ≡ number_at text.now }
{
    if is_number(text) {
        number_in(text)
    } else {
        None
    }
}

/// The code that the text is.
pub fn code_at(text: &[u8]) -> Option<Code>
    ensures { result ≡ code_at text.now }
{
    match number_at(text) {
        Some(code) => u8::try_from(code).ok(),
        None => None,
    }
}

/// The value that the text is.
pub fn value_at(text: &[u8]) -> Option<Value>
    ensures { result ≡ value_at text.now }
{
    if is_value(text) { value_in(text) } else { None }
}

/// The value of no words.
pub fn no_value() -> Value
    ensures { result ≡ no_value }
{
    Value::empty()
}
