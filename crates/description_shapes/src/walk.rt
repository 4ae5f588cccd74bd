//! The walk over a description.

ghost use Rattle.std.specs.Prelude.{◌≡◌, ℕ, IfOk, is_none, option_map, slice_index_or, string_bytes};
ghost use Rattle.serde_json.specs.Data.{array};
ghost use Rattle.serde_json.specs.View.{view, items_view, members_view};
ghost use Rattle.description_shapes.specs.Forms.{form_of};
ghost use Rattle.description_shapes.specs.Keys.{key_of, keys_of};
ghost use Rattle.description_shapes.specs.Spots.{inside};
ghost use Rattle.description_shapes.specs.Trails.{spot_of};
ghost use Rattle.description_shapes.specs.Visits.{visits, items_visits, members_visits, in_array, in_object, at_key, part_of, first_broken};

use crate::alternatives::resolved;
use crate::form::{Form, form_of};
use crate::keys::{Field, keys_of};
use crate::kind::Kind;
use crate::rows::row_of;
use crate::rule::Rule;
use crate::trail::Trail;
use rte_text::Memory;
use serde_json::{Map, Value};
use std::alloc::Global;

/// The place of the first value that breaks the rule, in document order, of the value that stands here and of what it
/// holds. The only error is that there is no memory.
#[cycle(walk)]
pub fn first_fault<R: Rule>(
    alloc: Global,
    rule: &R,
    value: &Value,
    kind: Kind,
    trail: &Trail,
) -> Result<Option<String>, Memory>
    ensures { IfOk result (λ found. option_map string_bytes found
        ≡ first_broken (R.breaks rule.now) (visits (view value.now) kind (spot_of trail.now))) }
{
    let kind = resolved(kind, value);
    if rule.passes(kind) {
        return Ok(None);
    }
    if rule.is_broken(value, kind, trail) {
        let place = trail.place(alloc)?;
        return Ok(Some(place));
    }
    match value {
        Value::Array(parts) => first_in_parts(alloc, rule, parts, value, kind, trail),
        Value::Object(members) => first_in_members(alloc, rule, members, value, kind, trail),
        _ => Ok(None),
    }
}

#[cycle(walk)]
fn first_in_parts<R: Rule>(
    alloc: Global,
    rule: &R,
    parts: &[Value],
    owner: &Value,
    kind: Kind,
    trail: &Trail,
) -> Result<Option<String>, Memory>
    ensures { IfOk result (λ found. option_map string_bytes found
        ≡ first_broken (R.breaks rule.now) (in_array kind (view owner.now) (spot_of trail.now) (items_visits (items_view parts.now)))) }
{
    let kinds = part_kinds(kind);
    for index in 0..parts.len() {
        let inner = Trail::Part(&*trail, &*owner, kind, index);
        match first_fault(alloc, rule, &parts[index], kinds.at(index), &inner)? {
            Some(place) => return Ok(Some(place)),
            None => {}
        }
    }
    Ok(None)
}

#[cycle(walk)]
fn first_in_members<R: Rule>(
    alloc: Global,
    rule: &R,
    members: &Map<String, Value>,
    owner: &Value,
    kind: Kind,
    trail: &Trail,
) -> Result<Option<String>, Memory>
    ensures { IfOk result (λ found. option_map string_bytes found
        ≡ first_broken (R.breaks rule.now) (in_object kind (view owner.now) (spot_of trail.now) (members_visits (members_view members.now.entries)))) }
{
    for key in keys_of(kind) {
        match first_at_key(alloc, rule, members, key, owner, kind, trail)? {
            Some(place) => return Ok(Some(place)),
            None => {}
        }
    }
    Ok(None)
}

#[cycle(walk)]
fn first_at_key<R: Rule>(
    alloc: Global,
    rule: &R,
    members: &Map<String, Value>,
    key: &Field,
    owner: &Value,
    kind: Kind,
    trail: &Trail,
) -> Result<Option<String>, Memory>
    ensures { IfOk result (λ found. option_map string_bytes found
        ≡ first_broken (R.breaks rule.now) (at_key (key_of key.now) (inside (spot_of trail.now) kind (view owner.now)) (members_visits (members_view members.now.entries)))) }
{
    if rule.skips(key.kind) {
        return Ok(None);
    }
    match members.get(key.name) {
        Some(value) => {
            let inner = Trail::Member(&*trail, &*owner, kind, key.name);
            first_fault(alloc, rule, value, key.kind, &inner)
        }
        None => Ok(None),
    }
}

/// Whether no value breaks the rule, of the value that stands here and of what it holds.
#[cycle(judge)]
pub fn is_unbroken<R: Rule>(rule: &R, value: &Value, kind: Kind, trail: &Trail) -> bool
    ensures { result ≡ is_none (first_broken (R.breaks rule.now) (visits (view value.now) kind (spot_of trail.now))) }
{
    let kind = resolved(kind, value);
    if rule.passes(kind) {
        return true;
    }
    if rule.is_broken(value, kind, trail) {
        return false;
    }
    match value {
        Value::Array(parts) => is_unbroken_in_parts(rule, parts, value, kind, trail),
        Value::Object(members) => is_unbroken_in_members(rule, members, value, kind, trail),
        _ => true,
    }
}

#[cycle(judge)]
fn is_unbroken_in_parts<R: Rule>(
    rule: &R,
    parts: &[Value],
    owner: &Value,
    kind: Kind,
    trail: &Trail,
) -> bool
    ensures { result ≡ is_none (first_broken (R.breaks rule.now) (in_array kind (view owner.now) (spot_of trail.now) (items_visits (items_view parts.now)))) }
{
    let kinds = part_kinds(kind);
    for index in 0..parts.len() {
        let inner = Trail::Part(&*trail, &*owner, kind, index);
        if !is_unbroken(rule, &parts[index], kinds.at(index), &inner) {
            return false;
        }
    }
    true
}

#[cycle(judge)]
fn is_unbroken_in_members<R: Rule>(
    rule: &R,
    members: &Map<String, Value>,
    owner: &Value,
    kind: Kind,
    trail: &Trail,
) -> bool
    ensures { result ≡ is_none (first_broken (R.breaks rule.now) (in_object kind (view owner.now) (spot_of trail.now) (members_visits (members_view members.now.entries)))) }
{
    for key in keys_of(kind) {
        if !is_unbroken_at_key(rule, members, key, owner, kind, trail) {
            return false;
        }
    }
    true
}

#[cycle(judge)]
fn is_unbroken_at_key<R: Rule>(
    rule: &R,
    members: &Map<String, Value>,
    key: &Field,
    owner: &Value,
    kind: Kind,
    trail: &Trail,
) -> bool
    ensures { result ≡ is_none (first_broken (R.breaks rule.now) (at_key (key_of key.now) (inside (spot_of trail.now) kind (view owner.now)) (members_visits (members_view members.now.entries)))) }
{
    if rule.skips(key.kind) {
        return true;
    }
    match members.get(key.name) {
        Some(value) => {
            let inner = Trail::Member(&*trail, &*owner, kind, key.name);
            is_unbroken(rule, value, key.kind, &inner)
        }
        None => true,
    }
}

/// The kinds of the parts of an array: those of a row, and one for all other parts.
#[derive(Clone, Copy)]
pub struct PartKinds {
    /// The kinds of the first parts, in order.
    pub row: &'static [Kind],
    /// That of the others.
    pub other: Kind,
}

impl PartKinds {
    /// The kind of a part.
    pub fn at(self, index: usize) -> Kind
        ensures { result ≡ slice_index_or self.row.now index self.other }
    {
        match self.row.get(index) {
            Some(kind) => *kind,
            None => self.other,
        }
    }
}

/// The kinds of the parts of an array of this kind.
pub fn part_kinds(kind: Kind) -> PartKinds
    ensures { (i : ℕ) → slice_index_or result.row.now i result.other ≡ part_of (form_of kind) kind i }
{
    match form_of(kind) {
        Form::List(part) | Form::Counted(_, _, part) => PartKinds {
            row: &[],
            other: part,
        },
        Form::Row => PartKinds {
            row: row_of(kind),
            other: Kind::Anything,
        },
        _ => PartKinds {
            row: &[],
            other: Kind::Anything,
        },
    }
}
