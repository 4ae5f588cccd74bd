//! Judging a description.

ghost use Rattle.std.specs.Prelude.{◌≡◌, IfOk, IfErr, is_none, option_map, string_bytes};
ghost use Rattle.serde_json.specs.View.{view};
ghost use Rattle.description_shapes.specs.Rules.{visits_of};
ghost use Rattle.description_places.specs.Catalogs.{catalog_of};
ghost use Rattle.description_places.specs.Rules.{breaks_any, is_misnamed, refusal, rule_and_place, written, IsRefusalOf, IsUnbroken};
ghost use Rattle.description_shapes.specs.Trails.{spot_of};
ghost use Rattle.description_shapes.specs.Visits.{first_broken, visit_at};

use crate::catalogs::{Catalog, catalog_of};
use crate::distinct::DistinctRule;
use crate::references::ReferenceRule;
use description_shapes::{
    Kind, NameRule, Rule, ShapeOrNameRule, ShapeRule, Trail, first_fault, is_calculation,
    is_unbroken,
};
use rte_text::{Memory, Refusal, Refused, Text};
use serde_json::{Category, Value};
use std::alloc::Global;

/// The JSON value of a description's bytes, if they break none of rules 1 to 5. `Rule` names the least rule that they
/// break, with its first place; `Memory` is answered if memory ran out, and never tells anything of the bytes. Its bytes are
/// JSON (1), each value has the shape of its kind (2), and each name the form of a name (3); what one list declares is distinct
/// (4), and what each name refers to is declared (5).
pub fn judge(alloc: Global, bytes: &[u8]) -> Result<Value, Refused>
    ensures unbroken { IfOk result (λ v. IsUnbroken bytes.now (view v)) }
    ensures refused { IfErr result (IsRefusalOf bytes.now) }
{
    match Value::from_slice(alloc, bytes) {
        Ok(value) => match refusal_of(alloc, &value)? {
            Some(refusal) => Err(Refused::Rule(refusal)),
            None => Ok(value),
        },
        Err(error) => if error.classify() == Category::Memory {
            Err(Refused::Memory)
        } else {
            let place = Text::new(alloc, "/".as_bytes())?;
            Err(Refused::Rule(Refusal { rule: 1, place }))
        },
    }
}

/// Whether the value breaks rule 4 or 5. None in a calculation of a program does.
#[tactic(auto, using(crate::proofs::Calculating::none_misnamed))]
fn is_misnamed(declared: &Catalog, value: &Value, kind: Kind, trail: &Trail) -> bool
    ensures { result ≡ is_misnamed declared.now (visit_at (spot_of trail.now) kind (view value.now)) }
{
    if is_calculation(kind) {
        return false;
    }
    let distinct = DistinctRule { declared };
    let references = ReferenceRule { declared };
    distinct.is_broken(value, kind, trail) || references.is_broken(value, kind, trail)
}

/// Rules 2 to 5 together.
#[derive(Clone, Copy)]
struct AnyRule<'s, 'v> {
    /// What the description declares.
    declared: &'s Catalog<'v>,
}

impl Rule for AnyRule<'_, '_> {
    ghost breaks = { λ rule. breaks_any rule.declared.now };

    fn is_broken(&self, value: &Value, kind: Kind, trail: &Trail) -> bool {
        ShapeOrNameRule.is_broken(value, kind, trail)
            || is_misnamed(self.declared, value, kind, trail)
    }

    fn passes(&self, _kind: Kind) -> bool {
        false
    }

    fn skips(&self, _kind: Kind) -> bool {
        false
    }
}

fn refusal_of(alloc: Global, value: &Value) -> Result<Option<Refusal>, Memory>
    ensures { IfOk result (λ found. option_map rule_and_place found ≡ refusal (view value.now)) }
{
    let declared = catalog_of(alloc, value)?;
    let refusal = refusal_by(alloc, value, &declared);
    drop(declared);
    refusal
}

/// All rules are looked at together, and one after the other only if one of them is broken.
#[tactic(auto, using(crate::proofs::Judged::unbroken_by_any))]
fn refusal_by(alloc: Global, value: &Value, declared: &Catalog) -> Result<Option<Refusal>, Memory>
    requires { declared.now ≡ catalog_of (view value.now) }
    ensures { IfOk result (λ found. option_map rule_and_place found ≡ refusal (view value.now)) }
{
    if keeps(&AnyRule { declared }, value) {
        return Ok(None);
    }
    refusal_in_turn(alloc, value, declared)
}

fn refusal_in_turn(
    alloc: Global,
    value: &Value,
    declared: &Catalog,
) -> Result<Option<Refusal>, Memory>
    requires { declared.now ≡ catalog_of (view value.now) }
    ensures { IfOk result (λ found. option_map rule_and_place found ≡ refusal (view value.now)) }
{
    if let Some(place) = first_place(alloc, &ShapeRule, value)? {
        return Ok(Some(refusal_at(alloc, 2, place)?));
    }
    if let Some(place) = first_place(alloc, &NameRule, value)? {
        return Ok(Some(refusal_at(alloc, 3, place)?));
    }
    if let Some(place) = first_place(alloc, &DistinctRule { declared }, value)? {
        return Ok(Some(refusal_at(alloc, 4, place)?));
    }
    if let Some(place) = first_place(alloc, &ReferenceRule { declared }, value)? {
        return Ok(Some(refusal_at(alloc, 5, place)?));
    }
    Ok(None)
}

/// Whether no value of the description breaks the rule.
fn keeps<R: Rule>(rule: &R, value: &Value) -> bool
    ensures { result ≡ is_none (first_broken (R.breaks rule.now) (visits_of (view value.now))) }
{
    is_unbroken(rule, value, Kind::Description, &Trail::Whole)
}

fn first_place<R: Rule>(alloc: Global, rule: &R, value: &Value) -> Result<Option<String>, Memory>
    ensures { IfOk result (λ found. option_map string_bytes found ≡ first_broken (R.breaks rule.now) (visits_of (view value.now))) }
{
    let found = first_fault(alloc, rule, value, Kind::Description, &Trail::Whole)?;
    Ok(found)
}

fn refusal_at(alloc: Global, rule: u16, place: String) -> Result<Refusal, Memory>
    ensures { IfOk result (λ r. (r.rule ≡ rule) × (r.place ≡ written (string_bytes place))) }
{
    let place = if place.is_empty() {
        Text::new(alloc, "/".as_bytes())?
    } else {
        Text::of(place.into_bytes())
    };
    Ok(Refusal { rule, place })
}
