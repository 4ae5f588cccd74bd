//! What stands round a value.

ghost use Rattle.std.specs.Prelude.{◌≡◌, option_map, unwrap_or};
ghost use Rattle.serde_json.specs.Data.{null};
ghost use Rattle.serde_json.specs.View.{view};
ghost use Rattle.declared_names.specs.Values.{text_at, text_of_part};
ghost use Rattle.description_places.specs.Around.{number_at, number_of, value_at, owner_of, type_of, type_around};
ghost use Rattle.description_shapes.specs.Trails.{spot_of};

use crate::catalogs::TypeNumber;
use declared_names::{text_at, text_of_part};
use description_shapes::{Kind, Trail};
use serde_json::Value;

fn number_at(value: &Value, key: &str) -> u64
    ensures { result ≡ number_at key.now (view value.now) }
{
    value.get(key).and_then(Value::as_u64).unwrap_or(0)
}

pub(crate) fn value_at<'a>(trail: &Trail<'a>, steps: u8) -> Option<&'a Value>
    ensures { unwrap_or (option_map (λ v. view v.now) result) null ≡ value_at steps ((spot_of trail.now).around) }
{
    match trail {
        Trail::Whole => None,
        Trail::Member(outer, owner, _, _) | Trail::Part(outer, owner, _, _) => if steps == 0 {
            Some(*owner)
        } else {
            value_at(*outer, steps - 1)
        },
    }
}

/// Which part of a value round it the trail stands in.
pub(crate) fn number_of(trail: &Trail, steps: u8) -> usize
    ensures { result ≡ number_of steps ((spot_of trail.now).around) }
{
    match trail {
        Trail::Whole => 0,
        Trail::Member(outer, _, _, _) => if steps == 0 {
            0
        } else {
            number_of(*outer, steps - 1)
        },
        Trail::Part(outer, _, _, number) => if steps == 0 {
            *number
        } else {
            number_of(*outer, steps - 1)
        },
    }
}

/// Which part of the value right round it the trail stands in.
fn number_here(trail: &Trail) -> usize
    ensures { result ≡ number_of 0 ((spot_of trail.now).around) }
{
    match trail {
        Trail::Whole | Trail::Member(_, _, _, _) => 0,
        Trail::Part(_, _, _, number) => *number,
    }
}

pub(crate) fn text_around<'a>(trail: &Trail<'a>, steps: u8, key: &str) -> &'a str
    ensures { result.now ≡ text_at key.now (value_at steps ((spot_of trail.now).around)) }
{
    match value_at(trail, steps) {
        Some(value) => text_at(value, key),
        None => "",
    }
}

pub(crate) fn part_around<'a>(trail: &Trail<'a>, number: usize) -> &'a str
    ensures { result.now ≡ text_of_part number (value_at 0 ((spot_of trail.now).around)) }
{
    match value_at(trail, 0) {
        Some(value) => text_of_part(value, number),
        None => "",
    }
}

pub(crate) fn number_around(trail: &Trail, steps: u8, key: &str) -> u64
    ensures { result ≡ number_at key.now (value_at steps ((spot_of trail.now).around)) }
{
    match value_at(trail, steps) {
        Some(value) => number_at(value, key),
        None => 0,
    }
}

pub(crate) fn owner_of(trail: &Trail) -> Kind
    ensures { result ≡ owner_of ((spot_of trail.now).around) }
{
    match trail {
        Trail::Whole => Kind::Anything,
        Trail::Member(_, _, kind, _) | Trail::Part(_, _, kind, _) => *kind,
    }
}

fn type_of(kind: Kind, number: usize) -> Option<TypeNumber>
    ensures { result ≡ type_of kind number }
{
    match kind {
        Kind::Component => Some(TypeNumber::Component(number)),
        Kind::Composition => Some(TypeNumber::Composition(number)),
        _ => None,
    }
}

/// The component or composition that the value stands in.
pub(crate) fn type_around(trail: &Trail) -> Option<TypeNumber>
    ensures { result ≡ type_around ((spot_of trail.now).around) }
{
    match trail {
        Trail::Whole => None,
        Trail::Member(outer, _, kind, _) | Trail::Part(outer, _, kind, _) => match type_of(
            *kind,
            number_here(*outer),
        ) {
            Some(found) => Some(found),
            None => type_around(*outer),
        },
    }
}
