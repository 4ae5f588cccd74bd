//! The rules of shape and of names.

ghost use Rattle.std.specs.Prelude.{◌≡◌};
ghost use Rattle.serde_json.specs.View.{view};
ghost use Rattle.description_shapes.specs.Rules.{breaks_shape, breaks_names, breaks_shape_or_names, is_no_name, is_no_name_of};

use crate::form::{Form, form_of};
use crate::kind::Kind;
use crate::names::is_name;
use crate::rule::Rule;
use crate::shape::{fits, has_shape};
use crate::trail::Trail;
use serde_json::Value;

/// Rule 2: each value has the shape of its kind, and no key is missing or unknown.
#[derive(Clone, Copy)]
pub struct ShapeRule;

impl Rule for ShapeRule {
    ghost breaks = { λ _. breaks_shape };

    fn is_broken(&self, value: &Value, kind: Kind, _trail: &Trail) -> bool {
        !has_shape(kind, value)
    }

    fn passes(&self, _kind: Kind) -> bool {
        false
    }

    fn skips(&self, _kind: Kind) -> bool {
        false
    }
}

/// Whether a value should be a name by its form, and is none.
fn is_no_name_of(form: Form, value: &Value) -> bool
    ensures { result ≡ is_no_name_of form (view value.now) }
{
    match form {
        Form::Name => match value.as_str() {
            Some(text) => !is_name(text.as_bytes()),
            None => true,
        },
        _ => false,
    }
}

/// Whether a value stands where a name should, and is none.
fn is_no_name(kind: Kind, value: &Value) -> bool
    ensures { result ≡ is_no_name kind (view value.now) }
{
    is_no_name_of(form_of(kind), value)
}

/// Rule 3: each name has 1 to 32 bytes, a letter, then letters, digits and `_`.
#[derive(Clone, Copy)]
pub struct NameRule;

impl Rule for NameRule {
    ghost breaks = { λ _. breaks_names };

    fn is_broken(&self, value: &Value, kind: Kind, _trail: &Trail) -> bool {
        is_no_name(kind, value)
    }

    fn passes(&self, _kind: Kind) -> bool {
        false
    }

    fn skips(&self, _kind: Kind) -> bool {
        false
    }
}

/// Rules 2 and 3 together.
#[derive(Clone, Copy)]
pub struct ShapeOrNameRule;

impl Rule for ShapeOrNameRule {
    ghost breaks = { λ _. breaks_shape_or_names };

    fn is_broken(&self, value: &Value, kind: Kind, _trail: &Trail) -> bool {
        let form = form_of(kind);
        !fits(form, kind, value) || is_no_name_of(form, value)
    }

    fn passes(&self, _kind: Kind) -> bool {
        false
    }

    fn skips(&self, _kind: Kind) -> bool {
        false
    }
}
