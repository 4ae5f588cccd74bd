//! The shape of one value.

ghost use Rattle.std.specs.Prelude.{◌≡◌, map, is_some};
ghost use Rattle.serde_json.specs.Find.{get_member};
ghost use Rattle.serde_json.specs.View.{view, members_view};
ghost use Rattle.description_shapes.specs.Keys.{key_of};
ghost use Rattle.description_shapes.specs.Rows.{text_of};
ghost use Rattle.description_shapes.specs.Shape.{has_needed, is_key, has_only, is_among, is_within, part_count, fits, has_shape};

use crate::form::{Form, form_of};
use crate::keys::{Field, keys_of};
use crate::kind::Kind;
use crate::rows::{row_of, words_of};
use serde_json::{Map, Value};

fn has_key(members: &Map<String, Value>, name: &str) -> bool
    ensures { result ≡ is_some (get_member name.now (members_view members.now.entries)) }
{
    members.get(name).is_some()
}

#[tactic(auto, using(crate::proofs::Tables::all_turn))]
fn has_needed(keys: &[Field], members: &Map<String, Value>) -> bool
    ensures { result ≡ has_needed (map key_of keys.now) (members_view members.now.entries) }
{
    for key in keys {
        if key.is_needed && !has_key(members, key.name) {
            return false;
        }
    }
    true
}

#[tactic(auto, using(crate::proofs::Tables::any_turn))]
fn is_key(keys: &[Field], name: &str) -> bool
    ensures { result ≡ is_key (map key_of keys.now) name.now }
{
    for key in keys {
        if key.name == name {
            return true;
        }
    }
    false
}

fn has_only(keys: &[Field], members: &Map<String, Value>) -> bool
    ensures { result ≡ has_only (map key_of keys.now) (members_view members.now.entries) }
{
    for (name, _value) in members.iter() {
        if !is_key(keys, name.as_str()) {
            return false;
        }
    }
    true
}

#[tactic(auto, using(crate::proofs::Tables::any_turn))]
fn is_among(words: &[&str], text: &str) -> bool
    ensures { result ≡ is_among (map text_of words.now) text.now }
{
    for word in words {
        if *word == text {
            return true;
        }
    }
    false
}

fn is_within(least: u64, most: u64, number: u64) -> bool
    ensures { result ≡ is_within least most number }
{
    least <= number && number <= most
}

#[tactic(auto, using(crate::proofs::Members::parts_counted))]
fn part_count(value: &Value) -> Option<usize>
    ensures { result ≡ part_count (view value.now) }
{
    match value.as_array() {
        Some(parts) => Some(parts.len()),
        None => None,
    }
}

/// Whether a value has the shape of its kind, whose form this is.
pub(crate) fn fits(form: Form, kind: Kind, value: &Value) -> bool
    ensures { result ≡ fits form kind (view value.now) }
{
    match form {
        Form::Anything => true,
        Form::Nothing => false,
        Form::Object => match value.as_object() {
            Some(members) => {
                has_needed(keys_of(kind), members) && has_only(keys_of(kind), members)
            }
            None => false,
        },
        Form::List(_) => value.is_array(),
        Form::Counted(least, most, _) => match part_count(value) {
            Some(count) => is_within(least as u64, most as u64, count as u64),
            None => false,
        },
        Form::Row => match part_count(value) {
            Some(count) => count == row_of(kind).len(),
            None => false,
        },
        Form::Name | Form::Text => value.is_string(),
        Form::Word => match value.as_str() {
            Some(text) => is_among(words_of(kind), text),
            None => false,
        },
        Form::Int => value.is_i64(),
        Form::Range(least, most) => match value.as_u64() {
            Some(number) => is_within(least, most, number),
            None => false,
        },
        Form::Flag => value.is_boolean(),
    }
}

/// Whether a value has the shape of its kind. Of what it holds only the keys and the number of parts are looked at.
pub fn has_shape(kind: Kind, value: &Value) -> bool
    ensures { result ≡ has_shape kind (view value.now) }
{
    fits(form_of(kind), kind, value)
}
