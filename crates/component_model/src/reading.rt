//! A description, read from its bytes.

ghost use Rattle.std.specs.Prelude.{◌≡◌, IfErr, IfOk, codes, map, unwrap_or};
ghost use Rattle.serde_json.specs.Data.{null};
ghost use Rattle.serde_json.specs.Find.{get};
ghost use Rattle.serde_json.specs.View.{view};
ghost use Rattle.description_types.specs.Lists.{first};
ghost use Rattle.description_types.specs.Refusals.{Tells, of_rule};
ghost use Rattle.component_model.specs.Compositions.{mapping_reading};
ghost use Rattle.component_model.specs.Descriptions.{description_of, reading, reading_in};
ghost use Rattle.component_model.specs.Initials.{broken_initials, initial_place};
ghost use Rattle.component_model.specs.Programs.{component_reading, component_tree};
ghost use Rattle.component_model.specs.Refusals.{IsRead, IsRefusalOf, typed_refusal};
ghost use Rattle.declared_names.specs.Sizes.{AreFew, AreSmall, HaveFewArguments, IsSmall};

use crate::component_reading::read_component;
use crate::composition_reading::read_compositions;
use crate::initials::{first_broken, initial_place};
use crate::mapping_reading::read_mapping;
use crate::type_reading::read_types;
use declared_names::{Scope, items_at, scope_of, text_at, value_at};
use description_places::judge;
use description_types::{Component, Description, TaskMapping, check_types};
use rte_text::{Memory, Refusal, Refused, Seq};
use serde_json::Value;
use std::alloc::Global;

fn read_components(alloc: Global, scope: &Scope, values: &[Value]) -> Result<Seq<Component>, Memory>
    requires values { AreSmall (map view values.now) }
    requires arguments { HaveFewArguments scope.now.interfaces }
    ensures { IfOk result (λ cs. map component_tree cs ≡ map (component_reading scope.now) (map view values.now)) }
{
    let mut list = Vec::new(alloc);
    for value in values {
        list.push(read_component(alloc, scope, value)?)?;
    }
    Ok(Seq::of(list))
}

/// The mapping that the value has, or one of nothing.
fn mapping_of(alloc: Global, value: &Value) -> Result<TaskMapping, Memory>
    requires { IsSmall (view value.now) }
    ensures { IfOk result (λ m. m ≡ mapping_reading (unwrap_or (get (codes "mapping") (view value.now)) null)) }
{
    let nothing = Value::Null;
    read_mapping(alloc, value_at(value, "mapping", &nothing))
}

fn read_in(alloc: Global, scope: &Scope, value: &Value) -> Result<Description, Memory>
    requires value { IsSmall (view value.now) }
    requires arguments { HaveFewArguments scope.now.interfaces }
    ensures { IfOk result (λ d. description_of d ≡ reading_in scope.now (view value.now)) }
{
    let listed = items_at(value, "components");
    let composed = items_at(value, "compositions");
    let root = scope.prototypes.compositions.find(text_at(value, "root"));
    let types = read_types(alloc, &scope.types, value)?;
    let components = read_components(alloc, scope, listed)?;
    let compositions = read_compositions(alloc, scope, composed)?;
    let mapping = mapping_of(alloc, value)?;
    Ok(Description {
        types,
        components,
        compositions,
        root,
        mapping,
    })
}

fn read(alloc: Global, value: &Value) -> Result<Description, Memory>
    requires { IsSmall (view value.now) }
    ensures { IfOk result (λ d. description_of d ≡ reading (view value.now)) }
{
    let scope = scope_of(alloc, value)?;
    let description = read_in(alloc, &scope, value);
    drop(scope);
    description
}

fn check_initials(alloc: Global, description: &Description) -> Result<(), Refused>
    ensures { Tells (first (of_rule 8 initial_place (broken_initials (description_of description.now)))) result }
{
    match first_broken(description) {
        None => Ok(()),
        Some(initial) => {
            let place = initial_place(alloc, initial)?;
            Err(Refused::Rule(Refusal { rule: 8, place }))
        }
    }
}

fn check(alloc: Global, description: &Description) -> Result<(), Refused>
    ensures { Tells (typed_refusal (description_of description.now)) result }
{
    check_types(alloc, &description.types)?;
    check_initials(alloc, description)
}

/// The description, if its types and initial values break no rule.
fn checked(alloc: Global, description: Description) -> Result<Description, Refused>
    ensures read { IfOk result (λ d. description_of d ≡ description_of description) }
    ensures judged { Tells (typed_refusal (description_of description)) result }
{
    match check(alloc, &description) {
        Ok(()) => Ok(description),
        Err(refused) => {
            drop(description);
            Err(refused)
        }
    }
}

/// The description that the bytes are, if they break none of rules 1 to 8: those of `judge` of `description_places`, those
/// of `check_types` of `description_types`, and that an initial value of a data element or variable has as many words as its
/// type, each within its limits (8, at the initial value). `Rule` names the least rule that they break, with its first
/// place; `Memory` is answered if memory ran out, and never tells anything of the bytes. They are read as fewer values than
/// 32 bits number, as bytes fewer than that are, so each name stands at a position of 32 bits. What is read is the one typed
/// reading of the JSON value: names that refer are positions, missing keys have their defaults, and a server's first variables are
/// its operation's arguments and `error`.
pub fn read_description(alloc: Global, bytes: &[u8]) -> Result<Description, Refused>
    requires { AreFew bytes.now }
    ensures read { IfOk result (λ d. IsRead bytes.now (description_of d)) }
    ensures refused { IfErr result (IsRefusalOf bytes.now) }
{
    let value = judge(alloc, bytes)?;
    let description = read(alloc, &value);
    drop(value);
    checked(alloc, description?)
}
