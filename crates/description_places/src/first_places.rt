//! Where the names of a list first stand.

ghost use Rattle.std.specs.Prelude.{◌≡◌, ◌++◌, IfOk, map, string_bytes};
ghost use Rattle.serde_json.specs.View.{view, items_view};
ghost use Rattle.description_places.specs.FirstPlaces.{access_text, first_places, parts_text, position_text};
ghost use Rattle.declared_names.specs.Names.{text_of};

use declared_names::{NameList, text_at, text_in};
use itoa::Buffer;
use rte_text::{Memory, Seq};
use serde_json::Value;
use std::alloc::Global;

fn places_in(alloc: Global, list: &NameList) -> Result<Seq<usize>, Memory>
    ensures { IfOk result (λ places. places ≡ first_places list.now) }
{
    let names = list.names();
    let mut places = Vec::new(alloc);
    for name in names {
        places.push(list.find(*name))?;
    }
    Ok(Seq::of(places))
}

/// Where each of these names first stands among them.
pub(crate) fn first_places(alloc: Global, names: Vec<&str>) -> Result<Seq<usize>, Memory>
    ensures { IfOk result (λ places. places ≡ first_places (map text_of names.entry.items)) }
{
    let list = NameList::of(alloc, names)?;
    let places = places_in(alloc, &list);
    drop(list);
    places
}

fn references<'a>(alloc: Global, texts: &'a [String]) -> Result<Vec<&'a str>, Memory>
    ensures { IfOk result (λ names. map text_of names.items ≡ map string_bytes texts.now) }
{
    let mut names = Vec::new(alloc);
    for text in texts {
        names.push(text.as_str())?;
    }
    Ok(names)
}

/// Where each of these texts first stands among them.
fn first_places_of(alloc: Global, texts: &[String]) -> Result<Seq<usize>, Memory>
    ensures { IfOk result (λ places. places ≡ first_places (map string_bytes texts.now)) }
{
    let names = references(alloc, texts)?;
    first_places(alloc, names)
}

/// Room that the texts of most accesses fit in, in bytes.
const ROOM: usize = 48;

/// The text, with each part behind it after a space.
fn with_parts(start: String, parts: &[Value]) -> Result<String, Memory>
    ensures { IfOk result (λ text. string_bytes text ≡ string_bytes start ++ parts_text (items_view parts.now)) }
{
    let mut text = start;
    for number in 0..parts.len() {
        text.push_str(" ")?;
        text.push_str(text_in(&parts[number]))?;
    }
    Ok(text)
}

fn access_text(alloc: Global, value: &Value) -> Result<String, Memory>
    ensures { IfOk result (λ text. string_bytes text ≡ access_text (view value.now)) }
{
    match value.as_array() {
        Some(parts) => with_parts(String::with_capacity(alloc, ROOM)?, parts),
        None => Ok(String::new(alloc)),
    }
}

fn access_texts(alloc: Global, values: &[Value]) -> Result<Vec<String>, Memory>
    ensures { IfOk result (λ texts. map string_bytes texts.items ≡ map access_text (map view values.now)) }
{
    let mut texts = Vec::new(alloc);
    for value in values {
        texts.push(access_text(alloc, value)?)?;
    }
    Ok(texts)
}

/// Where each of these accesses first stands among them.
pub(crate) fn first_accesses(alloc: Global, values: &[Value]) -> Result<Seq<usize>, Memory>
    ensures { IfOk result (λ places. places ≡ first_places (map access_text (map view values.now))) }
{
    let texts = access_texts(alloc, values)?;
    let places = first_places_of(alloc, &texts);
    drop(texts);
    places
}

fn position_text(alloc: Global, value: &Value) -> Result<String, Memory>
    ensures { IfOk result (λ text. string_bytes text ≡ position_text (view value.now)) }
{
    let position = value.get("position").and_then(Value::as_u64).unwrap_or(0);
    let mut text = String::from_str(alloc, text_at(value, "task"))?;
    text.push_str(" ")?;
    text.push_str(Buffer::new().format(position))?;
    Ok(text)
}

fn position_texts(alloc: Global, values: &[Value]) -> Result<Vec<String>, Memory>
    ensures { IfOk result (λ texts. map string_bytes texts.items ≡ map position_text (map view values.now)) }
{
    let mut texts = Vec::new(alloc);
    for value in values {
        texts.push(position_text(alloc, value)?)?;
    }
    Ok(texts)
}

/// Where the position of each of these mapped events first stands among theirs.
pub(crate) fn first_positions(alloc: Global, values: &[Value]) -> Result<Seq<usize>, Memory>
    ensures { IfOk result (λ places. places ≡ first_places (map position_text (map view values.now))) }
{
    let texts = position_texts(alloc, values)?;
    let places = first_places_of(alloc, &texts);
    drop(texts);
    places
}
