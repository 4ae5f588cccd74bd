//! What a line says, word for word.

ghost use Rattle.std.specs.Prelude.{◌≡◌, List, Option, IfSome, option_map, option_copied, true};
ghost use Rattle.bus_semantics.specs.Spelling.{Letters};
ghost use Rattle.script_reading.specs.Forms.{by_fields, call_phrase, is_phrase, phrase_in, third_fits, tick_phrase};
ghost use Rattle.script_reading.specs.Pieces.{AreFields, phrase_of};

use crate::fields::{Fields, split_fields};
use crate::forms::{Follows, Form, behind, form_of};
use line_fields::{is_name, is_number, is_pair_name, is_value, number_in};

/// The most ticks of one line.
const MOST_TICKS: u32 = 100_000;

/// The parts of a line that has one of the forms.
#[derive(Clone, Copy)]
pub enum Parsed<'a> {
    /// `tick N`.
    Wait(u32),
    /// `run`.
    Run,
    /// A form with a name, and what stands behind it.
    Call(Form, &'a [u8], Option<&'a [u8]>),
}

/// `tick N`.
fn tick_phrase(number: &[u8]) -> Option<Parsed<'_>>
    ensures phrase { option_map phrase_of result ≡ tick_phrase number.now }
    ensures fits { IfSome result (λ parsed. is_phrase (phrase_of parsed) ≡ true) }
{
    if !is_number(number) {
        return None;
    }
    match number_in(number) {
        Some(count) if 1 <= count && count <= MOST_TICKS => Some(Parsed::Wait(count)),
        _ => None,
    }
}

/// Whether what stands behind a name is of this kind.
fn third_fits(kind: Follows, third: Option<&[u8]>) -> bool
    ensures { result ≡ third_fits kind (option_copied third.entry) }
{
    match (kind, third) {
        (Follows::Nothing, None) => true,
        (Follows::Value, Some(text)) => is_value(text),
        (Follows::Mode, Some(text)) => is_name(text),
        _ => false,
    }
}

/// A line of a form that names something.
fn call_phrase<'a>(
    form: Option<Form>,
    name: &'a [u8],
    third: Option<&'a [u8]>,
) -> Option<Parsed<'a>>
    ensures phrase { option_map phrase_of result ≡ call_phrase form name.now (option_copied third.entry) }
    ensures fits { IfSome result (λ parsed. is_phrase (phrase_of parsed) ≡ true) }
{
    match form {
        Some(form) if is_pair_name(name) && third_fits(behind(form), third) => {
            Some(Parsed::Call(form, name, third))
        }
        _ => None,
    }
}

/// A line of these fields.
fn by_fields<'a>(fields: &Fields<'a>) -> Option<Parsed<'a>>
    ensures phrase { (ts : List Letters) → AreFields ts fields.now → option_map phrase_of result ≡ by_fields ts }
    ensures fits { IfSome result (λ parsed. is_phrase (phrase_of parsed) ≡ true) }
{
    match *fields {
        Fields::One(word) if word == b"run".as_slice() => Some(Parsed::Run),
        Fields::Two(word, number) if word == b"tick".as_slice() => tick_phrase(number),
        Fields::Two(word, name) => call_phrase(form_of(word), name, None),
        Fields::Three(word, name, third) => call_phrase(form_of(word), name, Some(third)),
        _ => None,
    }
}

/// What the text of a line says. None if it has none of the forms.
pub fn parse(text: &[u8]) -> Option<Parsed<'_>>
    ensures phrase { option_map phrase_of result ≡ phrase_in text.now }
    ensures fits { IfSome result (λ parsed. is_phrase (phrase_of parsed) ≡ true) }
{
    by_fields(&split_fields(text))
}
