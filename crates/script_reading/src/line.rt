//! One line of a script.

ghost use Rattle.std.specs.Prelude.{◌≡◌, IfSome, IfNone, option_copied, true, false};
ghost use Rattle.bus_semantics.specs.Common.{list_all, words_of, plan_of, is_within};
ghost use Rattle.script_reading.specs.Forms.{behind, is_phrase, phrase_in, third_fits};
ghost use Rattle.script_reading.specs.Meaning.{call_at, call_with, meaning, meaning_in, plain_call, saying, switch_call, value_call};
ghost use Rattle.line_fields.specs.Numbers.{are_held, is_value, words_in};
ghost use Rattle.script_reading.specs.Offers.{are_within, elem_takes, mode_of, takes};
ghost use Rattle.script_reading.specs.Pieces.{phrase_of, saying_of};

use crate::environment::Environment;
use crate::forms::{Follows, Form, behind};
use crate::phrases::{Parsed, parse};
use bus_semantics::{BusPlan, ElemPlan, Line, Wish};
use line_fields::value_in;
use rte_value::{Limits, Value};

/// The cause of a line that has none of the forms.
pub const NO_FORM: u8 = 1;

/// The cause of a line that names no port, element, operation or mode that there is.
pub const NO_SUCH: u8 = 2;

/// The cause of a value with another word count, or with a word outside the limits.
pub const NOT_OF_TYPE: u8 = 3;

/// What a line says.
#[derive(Clone, Copy)]
pub enum Said {
    /// Nothing: it is empty or a comment.
    Nothing,
    /// What it asks for.
    Line(Line),
    /// It is bad, for this cause.
    Bad(u8),
}

/// Whether all words lie within the limits.
fn are_all_within(words: &[i64], limits: &Limits) -> bool
    ensures { result ≡ list_all (is_within limits.now) words.now }
{
    words
        .iter()
        .all(|word| limits.low <= *word && *word <= limits.high)
}

/// Whether the value is one of the element's type.
fn elem_takes(element: &ElemPlan, value: &Value) -> bool
    ensures { result ≡ elem_takes element.now (words_of value.now) }
{
    value.words().len() == element.words as usize && are_all_within(value.words(), &element.limits)
}

/// Whether there are as many words as limits, each within its own.
fn are_within(limits: &[Limits], words: &[i64]) -> bool
    ensures { result ≡ are_within limits.now words.now }
{
    match limits {
        [] => words.is_empty(),
        [first, limits @ ..] => match words {
            [] => false,
            [word, words @ ..] => {
                first.low <= *word && *word <= first.high && are_within(limits, words)
            }
        },
    }
}

/// Whether the value may be given to the element, or the operation, of this number.
fn takes(plan: &BusPlan, form: Form, number: u32, value: &Value) -> bool
    requires { are_held (words_of value.now) ≡ true }
    ensures { result ≡ takes form (plan_of plan.now) number (words_of value.now) }
{
    match form {
        Form::Write | Form::Send => match plan.elements.items().get(number as usize) {
            Some(element) => elem_takes(element, value),
            None => false,
        },
        Form::Ask => match plan.points.items().get(number as usize) {
            Some(point) => are_within(point.ins.items(), value.words()),
            None => false,
        },
        _ => false,
    }
}

/// A call with this value.
fn call_with(form: Form, number: u32, value: Value) -> Said
    ensures { saying_of result ≡ call_with form number (words_of value) }
{
    let wish = match form {
        Form::Write => Wish::Write {
            elem: number,
            value,
        },
        Form::Send => Wish::Send {
            elem: number,
            value,
        },
        Form::Ask => Wish::Ask {
            point: number,
            value,
        },
        _ => return Said::Bad(NO_FORM),
    };
    Said::Line(Line::Call(wish))
}

/// A call with the value that the text is.
fn value_call(environment: &Environment, form: Form, number: u32, text: &[u8]) -> Said
    requires { is_value text.now ≡ true }
    ensures { saying_of result ≡ value_call (plan_of environment.now.plan.now) form number (words_in text.now) }
{
    let Some(value) = value_in(text) else {
        return Said::Bad(NOT_OF_TYPE);
    };
    if takes(environment.plan, form, number, &value) {
        call_with(form, number, value)
    } else {
        Said::Bad(NOT_OF_TYPE)
    }
}

/// A call with nothing behind the name.
fn plain_call(form: Form, number: u32) -> Said
    ensures { saying_of result ≡ plain_call form number }
{
    let wish = match form {
        Form::Read => Wish::Read { elem: number },
        Form::Receive => Wish::Receive { elem: number },
        Form::TakeResult => Wish::TakeResult { point: number },
        Form::SeeMode => Wish::Mode { port: number },
        _ => return Said::Bad(NO_FORM),
    };
    Said::Line(Line::Call(wish))
}

/// A switch of the machine to the mode of this name.
fn switch_call(environment: &Environment, number: u32, name: &[u8]) -> Said
    ensures { saying_of result ≡ switch_call number (mode_of (plan_of environment.now.plan.now) number name.now) }
{
    match environment.mode(number, name) {
        Some(mode) => Said::Line(Line::Call(Wish::Switch {
            machine: number,
            mode,
        })),
        None => Said::Bad(NO_SUCH),
    }
}

/// The call of this form at the thing of this number.
fn call_at(environment: &Environment, form: Form, number: u32, third: Option<&[u8]>) -> Said
    requires { third_fits (behind form) (option_copied third) ≡ true }
    ensures { saying_of result ≡ call_at (plan_of environment.now.plan.now) form (behind form) number (option_copied third.entry) }
{
    match (behind(form), third) {
        (Follows::Nothing, _) => plain_call(form, number),
        (Follows::Value, Some(text)) => value_call(environment, form, number, text),
        (Follows::Mode, Some(name)) => switch_call(environment, number, name),
        _ => Said::Bad(NO_FORM),
    }
}

/// What the parts of a line ask for.
fn meaning(environment: &Environment, parsed: &Parsed) -> Said
    requires { is_phrase (phrase_of parsed.now) ≡ true }
    ensures { saying_of result ≡ meaning (plan_of environment.now.plan.now) (phrase_of parsed.now) }
{
    match *parsed {
        Parsed::Wait(count) => Said::Line(Line::Tick(count)),
        Parsed::Run => Said::Line(Line::Run),
        Parsed::Call(form, name, third) => match environment.find(form, name) {
            Some(number) => call_at(environment, form, number, third),
            None => Said::Bad(NO_SUCH),
        },
    }
}

/// What a line that is not blank says.
fn meaning_in(environment: &Environment, text: &[u8]) -> Said
    ensures { saying_of result ≡ meaning_in (plan_of environment.now.plan.now) (phrase_in text.now) }
{
    match parse(text) {
        Some(parsed) => meaning(environment, &parsed),
        None => Said::Bad(NO_FORM),
    }
}

/// What the text of a line says.
pub fn read_line_of(environment: &Environment, text: &[u8]) -> Said
    ensures { saying_of result ≡ saying (plan_of environment.now.plan.now) text.now }
{
    match text {
        [] | [b'#', ..] => Said::Nothing,
        _ => meaning_in(environment, text),
    }
}
