//! The signatures of runnables, made once and shared by all instances of a component.

ghost use Rattle.std.specs.Prelude.{◌≡◌, IfOk, map, true};
ghost use Rattle.plan_definitions.specs.WellFormed.{types_fit};
ghost use Rattle.plan_services.specs.Shared.{AreOfAll, accesses_of, signature_in};

use component_rules::signature_of;
use description_types::{Component, Description, Runnable, TypeTable};
use rte_text::{Memory, Seq};
use runnable_lang::Signature;
use std::alloc::Global;
use std::sync::Arc;

/// The signature of a runnable, as instances share it.
pub type Shared = Arc<Signature, Global>;

fn shared(
    alloc: Global,
    types: &TypeTable,
    component: &Component,
    runnable: &Runnable,
) -> Result<Shared, Memory>
    requires { types_fit types.now ≡ true }
    ensures { IfOk result (λ found. accesses_of found ≡ signature_in types.now component.now runnable.now) }
{
    let signature = signature_of(alloc, types, component, runnable.accesses.items())?;
    let found = Arc::new(alloc, signature)?;
    Ok(found)
}

/// The signatures of some runnables of a component.
fn signatures_in(
    alloc: Global,
    types: &TypeTable,
    component: &Component,
    runnables: &[Runnable],
) -> Result<Seq<Shared>, Memory>
    requires { types_fit types.now ≡ true }
    ensures { IfOk result (λ list. map accesses_of list ≡ map (signature_in types.now component.now) runnables.now) }
{
    let mut list = Vec::new(alloc);
    for runnable in runnables {
        list.push(shared(alloc, types, component, runnable)?)?;
    }
    Ok(Seq::of(list))
}

fn signatures_over(
    alloc: Global,
    types: &TypeTable,
    components: &[Component],
) -> Result<Vec<Seq<Shared>>, Memory>
    requires { types_fit types.now ≡ true }
    ensures { IfOk result (λ lists. map (map accesses_of) lists.items ≡ map (λ c. map (signature_in types.now c) c.behavior.runnables) components.now) }
{
    let mut lists = Vec::new(alloc);
    for component in components {
        let runnables = component.behavior.runnables.items();
        lists.push(signatures_in(alloc, types, component, runnables)?)?;
    }
    Ok(lists)
}

/// The signatures of the runnables of each component, by component and in declared order. They depend on the component alone,
/// so no instance has its own.
pub fn signatures_of(alloc: Global, d: &Description) -> Result<Vec<Seq<Shared>>, Memory>
    requires { types_fit d.now.types ≡ true }
    ensures { IfOk result (λ lists. AreOfAll d.now lists.items) }
{
    signatures_over(alloc, &d.types, d.components.items())
}
