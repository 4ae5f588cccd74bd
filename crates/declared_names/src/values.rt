//! What is taken from a JSON value. A value that is missing or of another kind counts as empty, zero or false.

ghost use Rattle.std.specs.Prelude.{◌≡◌, ◌<◌, ◌^◌, ℕ, IfOk, map, option_map, slice_get, unwrap_or};
ghost use Rattle.serde_json.specs.Find.{get};
ghost use Rattle.serde_json.specs.View.{view};
ghost use Rattle.declared_names.specs.Values.{below, flag_at, items_at, items_in, items_of_part, number_at, number_of_part, seen, text_at, text_at_in, text_in, text_of_part};
ghost use Rattle.declared_names.specs.Values.{text_of_part_at, word_at, word_in};

use rte_text::{Memory, Text};
use rte_value::Word;
use serde_json::Value;
use std::alloc::Global;

/// The items of the array.
#[tactic(auto, using(crate::proofs::Lists::items_listed))]
pub fn items_in(value: &Value) -> &[Value]
    ensures { map view result.now ≡ items_in (view value.now) }
{
    match value.as_array() {
        Some(items) => items.as_slice(),
        None => &[],
    }
}

/// The items of the array at the key.
#[tactic(auto, using(crate::proofs::Lists::items_listed))]
pub fn items_at<'a>(value: &'a Value, key: &str) -> &'a [Value]
    ensures { map view result.now ≡ items_at key.now (view value.now) }
{
    match value.get(key).and_then(Value::as_array) {
        Some(items) => items.as_slice(),
        None => &[],
    }
}

/// The items of the part of the array.
#[tactic(auto, using(crate::proofs::Lists::items_listed))]
pub fn items_of_part(value: &Value, part: usize) -> &[Value]
    ensures { map view result.now ≡ items_of_part part (view value.now) }
{
    match value.get(part).and_then(Value::as_array) {
        Some(items) => items.as_slice(),
        None => &[],
    }
}

/// The item at this position, if there is one.
#[tactic(auto, using(crate::proofs::Lists::item_seen))]
pub fn item<'a>(values: &'a [Value], position: u32) -> Option<&'a Value>
    ensures { option_map seen result ≡ slice_get (map view values.now) position }
{
    match values.get(position as usize) {
        Some(value) => Some(value),
        None => None,
    }
}

/// The value at the key, and the other if there is none.
pub fn value_at<'a>(value: &'a Value, key: &str, other: &'a Value) -> &'a Value
    ensures { view result.now ≡ unwrap_or (get key.now (view value.now)) (view other.now) }
{
    match value.get(key) {
        Some(value) => value,
        None => other,
    }
}

/// The text.
pub fn text_in(value: &Value) -> &str
    ensures { result.now ≡ text_in (view value.now) }
{
    match value.as_str() {
        Some(text) => text,
        None => "",
    }
}

/// The text at the key.
pub fn text_at<'a>(value: &'a Value, key: &str) -> &'a str
    ensures { result.now ≡ text_at key.now (view value.now) }
{
    match value.get(key).and_then(Value::as_str) {
        Some(text) => text,
        None => "",
    }
}

/// The text at the key of the object that stands at another.
pub fn text_at_in<'a>(value: &'a Value, outer: &str, key: &str) -> &'a str
    ensures { result.now ≡ text_at_in outer.now key.now (view value.now) }
{
    match value.get(outer) {
        Some(value) => text_at(value, key),
        None => "",
    }
}

/// The text of the part of the array that stands at the key.
pub fn text_of_part_at<'a>(value: &'a Value, key: &str, part: usize) -> &'a str
    ensures { result.now ≡ text_of_part_at key.now part (view value.now) }
{
    match value.get(key) {
        Some(value) => text_of_part(value, part),
        None => "",
    }
}

/// The text of the part of the array.
pub fn text_of_part(value: &Value, part: usize) -> &str
    ensures { result.now ≡ text_of_part part (view value.now) }
{
    match value.get(part).and_then(Value::as_str) {
        Some(text) => text,
        None => "",
    }
}

/// A copy of the text at the key.
pub fn copy_at(alloc: Global, value: &Value, key: &str) -> Result<Text, Memory>
    ensures { IfOk result (λ text. text ≡ text_at key.now (view value.now)) }
{
    let text = Text::new(alloc, text_at(value, key).as_bytes())?;
    Ok(text)
}

/// The word.
pub fn word_in(value: &Value) -> Word
    ensures { result ≡ word_in (view value.now) }
{
    match value.as_i64() {
        Some(word) => word,
        None => 0,
    }
}

/// The word at the key.
pub fn word_at(value: &Value, key: &str) -> Word
    ensures { result ≡ word_at key.now (view value.now) }
{
    match value.get(key).and_then(Value::as_i64) {
        Some(word) => word,
        None => 0,
    }
}

fn below(limit: u64, other: u64, number: Option<u64>) -> u64
    requires { other < limit }
    ensures value { result ≡ below limit other number }
    ensures small { result < limit }
{
    match number {
        Some(number) => if number < limit { number } else { other },
        None => other,
    }
}

/// The number at the key, of 8 bits, and 0 if it is none.
pub fn small_number_at(value: &Value, key: &str) -> u8
    ensures { result ≡ number_at (2 ^ 8) 0 key.now (view value.now) }
{
    below(0x100, 0, value.get(key).and_then(Value::as_u64)) as u8
}

/// The number at the key, of 32 bits, and the other if it is none.
pub fn number_at(value: &Value, key: &str, other: u32) -> u32
    ensures { result ≡ number_at (2 ^ 32) other key.now (view value.now) }
{
    below(
        0x1_0000_0000,
        u64::from(other),
        value.get(key).and_then(Value::as_u64),
    ) as u32
}

/// The number that the part of the array is, of 32 bits, and 0 if it is none.
pub fn number_of_part(value: &Value, part: usize) -> u32
    ensures { result ≡ number_of_part (2 ^ 32) 0 part (view value.now) }
{
    below(0x1_0000_0000, 0, value.get(part).and_then(Value::as_u64)) as u32
}

/// Whether there is true at the key.
pub fn flag_at(value: &Value, key: &str) -> bool
    ensures { result ≡ flag_at key.now (view value.now) }
{
    match value.get(key).and_then(Value::as_bool) {
        Some(flag) => flag,
        None => false,
    }
}
