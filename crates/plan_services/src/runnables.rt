//! The runnables of a plan.

ghost use Rattle.std.specs.Prelude.{◌≡◌, ◌<◌, ◌^◌, ℕ, Some, true, [], ◌∷◌, ◌++◌, IfOk, OnOk, get_or, length, map, nat_eq, option_map, slice_get};
ghost use Rattle.bus_semantics.specs.Common.{flat_map, lookup, option_map_or, HaveOneCode, runnable_of as seen};
ghost use Rattle.plan_definitions.specs.Common.{Runnable, pair_number, list_numbers, from, runnables_of, coded_in, coded_at, IsCoded, AreCoded, runnable_of, runnables as all_runnables};
ghost use Rattle.plan_definitions.specs.Common.{runnables_of_component, served_number, callings as all_callings, types_fit};
ghost use Rattle.plan_services.specs.Served.{served_entry};
ghost use Rattle.plan_services.specs.Shared.{AreOfAll, AreSignatures, accesses_of, signature_in};

use crate::events::component_at;
use crate::invoked::Operation;
use crate::listed_callings::Callings;
use crate::served::served_of;
use crate::signatures::{Shared, signatures_of};
use crate::targets::targets_of;
use bus_semantics::RunnablePlan;
use description_types::{Component, Instance, Runnable};
use plan_numbers::{Source, Table, position};
use rte_text::{Memory, Seq, Text};
use std::alloc::Global;
use std::sync::Arc;

/// What all instances of a component have: its number, it itself, the operations that its runnables serve, and their signatures; and the
/// numbers of the coherent lists of all runnables.
#[derive(Clone, Copy)]
struct Common<'a> {
    number: u32,
    component: &'a Component,
    served: &'a Table<u32, Operation>,
    signatures: &'a [Shared],
    lists: &'a [Seq<u32>],
}

/// The numbers of the coherent lists of a runnable of an instance.
fn lists_of(
    alloc: Global,
    source: &Source<'_>,
    lists: &[Seq<u32>],
    instance: u32,
    runnable: u32,
) -> Result<Seq<u32>, Memory>
    ensures { IfOk result (λ numbers. numbers ≡ get_or lists.now (pair_number (runnables_of source.now.d.now source.now.f.now) (instance, runnable)) []) }
{
    match lists.get(source.runnable_number(instance, runnable) as usize) {
        Some(numbers) => {
            let copied = Vec::from_slice(alloc, numbers.items())?;
            Ok(Seq::of(copied))
        }
        None => {
            let none = Vec::new(alloc);
            Ok(Seq::of(none))
        }
    }
}

fn server_of(
    source: &Source<'_>,
    served: &Table<u32, Operation>,
    instance: u32,
    runnable: u32,
) -> Option<u32>
    ensures { result ≡ option_map (served_number source.now.d.now source.now.f.now instance) (lookup (nat_eq runnable) served.now.entries.items) }
{
    let found = served.find(runnable)?;
    Some(source.server_number(Some(instance), found.0, found.1))
}

/// A runnable of an instance. It shares its program and its signature with those of the other instances of its component; a
/// count of sharers that is full, which no clause of `Arc` excludes, is answered like want of memory.
fn runnable_of(
    alloc: Global,
    source: &Source<'_>,
    callings: &Callings,
    common: &Common<'_>,
    instance: u32,
    position: u32,
    runnable: &Runnable,
    signature: &Shared,
) -> Result<RunnablePlan, Memory>
    requires calls { callings.now ≡ all_callings source.now.d.now source.now.f.now }
    requires serves { common.now.served.now.entries.items ≡ flat_map served_entry common.now.component.now.behavior.events }
    requires signature { accesses_of signature.now ≡ signature_in source.now.d.now.types common.now.component.now runnable.now }
    requires lists { common.now.lists.now ≡ list_numbers source.now.d.now source.now.f.now }
    requires own { coded_at source.now.d.now (common.now.number, position) ≡ Some (coded_in source.now.d.now common.now.component.now runnable.now) }
    ensures seen { IfOk result (λ found. seen found ≡ runnable_of source.now.d.now source.now.f.now instance common.now.component.now position runnable.now) }
    ensures coded { IfOk result (λ found. IsCoded source.now.d.now found) }
{
    let name = Text::new(alloc, runnable.short_name.bytes())?;
    let program = Arc::try_clone(&runnable.program)?;
    let shared = Arc::try_clone(signature)?;
    let accesses = runnable.accesses.items();
    let targets = targets_of(alloc, source, callings, instance, position, accesses)?;
    let lists = lists_of(alloc, source, common.lists, instance, position)?;
    Ok(RunnablePlan {
        instance,
        name,
        code: (common.number, position),
        program,
        signature: shared,
        targets,
        server: server_of(source, common.served, instance, position),
        lists,
    })
}

fn push_runnable(
    list: &mut Vec<RunnablePlan>,
    alloc: Global,
    source: &Source<'_>,
    callings: &Callings,
    common: &Common<'_>,
    instance: u32,
    number: usize,
    runnable: &Runnable,
    signature: &Shared,
) -> Result<(), Memory>
    requires number { number < 2 ^ 32 }
    requires calls { callings.now ≡ all_callings source.now.d.now source.now.f.now }
    requires serves { common.now.served.now.entries.items ≡ flat_map served_entry common.now.component.now.behavior.events }
    requires signature { accesses_of signature.now ≡ signature_in source.now.d.now.types common.now.component.now runnable.now }
    requires lists { common.now.lists.now ≡ list_numbers source.now.d.now source.now.f.now }
    requires own { coded_at source.now.d.now (common.now.number, number) ≡ Some (coded_in source.now.d.now common.now.component.now runnable.now) }
    requires coded { AreCoded source.now.d.now list.old.items }
    ensures listed { OnOk result (map seen list.new.items ≡ map seen list.old.items ++ runnable_of source.now.d.now source.now.f.now instance common.now.component.now number runnable.now ∷ []) }
    ensures coded { OnOk result (AreCoded source.now.d.now list.new.items) }
{
    let position = position(number);
    let found = runnable_of(
        alloc, source, callings, common, instance, position, runnable, signature,
    )?;
    list.push(found)?;
    Ok(())
}

fn push_runnables(
    list: &mut Vec<RunnablePlan>,
    alloc: Global,
    source: &Source<'_>,
    callings: &Callings,
    common: &Common<'_>,
    instance: u32,
    runnables: &[Runnable],
) -> Result<(), Memory>
    requires runnables { length runnables.now < 2 ^ 32 }
    requires calls { callings.now ≡ all_callings source.now.d.now source.now.f.now }
    requires serves { common.now.served.now.entries.items ≡ flat_map served_entry common.now.component.now.behavior.events }
    requires signatures { map accesses_of common.now.signatures.now ≡ map (signature_in source.now.d.now.types common.now.component.now) runnables.now }
    requires lists { common.now.lists.now ≡ list_numbers source.now.d.now source.now.f.now }
    requires own { (m : ℕ) (r : Runnable) → slice_get runnables.now m ≡ Some r → coded_at source.now.d.now (common.now.number, m) ≡ Some (coded_in source.now.d.now common.now.component.now r) }
    requires coded { AreCoded source.now.d.now list.old.items }
    ensures listed { OnOk result (map seen list.new.items ≡ map seen list.old.items ++ from 0 (λ m r. runnable_of source.now.d.now source.now.f.now instance common.now.component.now m r ∷ []) runnables.now) }
    ensures coded { OnOk result (AreCoded source.now.d.now list.new.items) }
{
    let signatures = common.signatures;
    for (number, runnable) in runnables.iter().enumerate() {
        let signature = &signatures[number];
        push_runnable(
            list, alloc, source, callings, common, instance, number, runnable, signature,
        )?;
    }
    Ok(())
}

fn push_component(
    list: &mut Vec<RunnablePlan>,
    alloc: Global,
    source: &Source<'_>,
    callings: &Callings,
    number: usize,
    instance: &Instance,
    component: &Component,
    signatures: &[Shared],
    lists: &[Seq<u32>],
) -> Result<(), Memory>
    requires number { number < 2 ^ 32 }
    requires runnables { length component.now.behavior.runnables < 2 ^ 32 }
    requires calls { callings.now ≡ all_callings source.now.d.now source.now.f.now }
    requires signatures { AreSignatures source.now.d.now.types component.now signatures.now }
    requires lists { lists.now ≡ list_numbers source.now.d.now source.now.f.now }
    requires placed { slice_get source.now.d.now.components instance.now.component ≡ Some component.now }
    requires coded { AreCoded source.now.d.now list.old.items }
    ensures listed { OnOk result (map seen list.new.items ≡ map seen list.old.items ++ runnables_of_component source.now.d.now source.now.f.now number component.now) }
    ensures coded { OnOk result (AreCoded source.now.d.now list.new.items) }
{
    let served = served_of(alloc, component.behavior.events.items())?;
    let common = Common {
        number: instance.component,
        component,
        served: &served,
        signatures,
        lists,
    };
    let runnables = component.behavior.runnables.items();
    push_runnables(
        list,
        alloc,
        source,
        callings,
        &common,
        position(number),
        runnables,
    )
}

fn push_instance(
    list: &mut Vec<RunnablePlan>,
    alloc: Global,
    source: &Source<'_>,
    callings: &Callings,
    signatures: &[Seq<Shared>],
    lists: &[Seq<u32>],
    number: usize,
    instance: &Instance,
) -> Result<(), Memory>
    requires number { number < 2 ^ 32 }
    requires calls { callings.now ≡ all_callings source.now.d.now source.now.f.now }
    requires signatures { AreOfAll source.now.d.now signatures.now }
    requires lists { lists.now ≡ list_numbers source.now.d.now source.now.f.now }
    requires coded { AreCoded source.now.d.now list.old.items }
    ensures listed { OnOk result (map seen list.new.items ≡ map seen list.old.items ++ option_map_or (runnables_of_component source.now.d.now source.now.f.now number) (slice_get source.now.d.now.components instance.now.component) []) }
    ensures coded { OnOk result (AreCoded source.now.d.now list.new.items) }
{
    match component_at(source.d, instance) {
        Some(component) => {
            let position = instance.component as usize;
            let shared = signatures[position].items();
            push_component(
                list, alloc, source, callings, number, instance, component, shared, lists,
            )
        }
        None => Ok(()),
    }
}

fn push_instances(
    list: &mut Vec<RunnablePlan>,
    alloc: Global,
    source: &Source<'_>,
    callings: &Callings,
    signatures: &[Seq<Shared>],
    lists: &[Seq<u32>],
    instances: &[Instance],
) -> Result<(), Memory>
    requires instances { length instances.now < 2 ^ 32 }
    requires calls { callings.now ≡ all_callings source.now.d.now source.now.f.now }
    requires signatures { AreOfAll source.now.d.now signatures.now }
    requires lists { lists.now ≡ list_numbers source.now.d.now source.now.f.now }
    requires coded { AreCoded source.now.d.now list.old.items }
    ensures listed { OnOk result (map seen list.new.items ≡ map seen list.old.items ++ from 0 (λ i x. option_map_or (runnables_of_component source.now.d.now source.now.f.now i) (slice_get source.now.d.now.components x.component) []) instances.now) }
    ensures coded { OnOk result (AreCoded source.now.d.now list.new.items) }
{
    for (number, instance) in instances.iter().enumerate() {
        push_instance(
            list, alloc, source, callings, signatures, lists, number, instance,
        )?;
    }
    Ok(())
}

/// The runnables of all instances, by instance and in declared order. `lists` has the numbers of the coherent lists of each. Each
/// access has the number of what it names. Runnables of one code have one program and one signature.
pub fn runnable_plans(
    alloc: Global,
    source: &Source<'_>,
    callings: &Callings,
    lists: &[Seq<u32>],
) -> Result<Vec<RunnablePlan>, Memory>
    requires calls { callings.now ≡ all_callings source.now.d.now source.now.f.now }
    requires lists { lists.now ≡ list_numbers source.now.d.now source.now.f.now }
    requires types { types_fit source.now.d.now.types ≡ true }
    ensures listed { IfOk result (λ list. map seen list.items ≡ all_runnables source.now.d.now source.now.f.now) }
    ensures coded { IfOk result (λ list. HaveOneCode list.items) }
{
    let signatures = signatures_of(alloc, source.d)?;
    let mut list = Vec::new(alloc);
    push_instances(
        &mut list,
        alloc,
        source,
        callings,
        signatures.as_slice(),
        lists,
        source.f.instances.items(),
    )?;
    Ok(list)
}
