//! The signatures of runnables.

ghost use Rattle.std.specs.Prelude.{◌≡◌, ◌++◌, IfOk, OnOk, replicate, true};
ghost use Rattle.plan_definitions.specs.Signatures.{limits_of, words_of, goes, arguments_of, words_of_item, words_at, words_of_variable, given, taken, mode_count, modes_of, access_sig, signature};
ghost use Rattle.plan_definitions.specs.WellFormed.{types_fit};

use crate::items::{item_at, kind_at};
use description_types::{
    Access, Argument, Component, DataType, Direction, InterfaceKind, TypeTable,
};
use plan_definitions::Item;
use rte_text::{Memory, Seq};
use rte_value::Limits;
use runnable_lang::{AccessKind, AccessSig, Signature};
use std::alloc::Global;

fn limits_of(types: &[DataType], of_type: u32) -> Limits
    ensures { result ≡ limits_of types.now of_type }
{
    match types.get(of_type as usize) {
        Some(found) => found.limits,
        None => Limits { low: 0, high: 0 },
    }
}

fn words_of(alloc: Global, types: &[DataType], of_type: u32) -> Result<Vec<Limits>, Memory>
    ensures { IfOk result (λ words. words.items ≡ words_of types.now of_type) }
{
    match types.get(of_type as usize) {
        Some(found) => vec![in alloc; found.limits; found.words as usize],
        None => Ok(Vec::new(alloc)),
    }
}

fn goes(way: Direction, argument: &Argument) -> bool
    ensures { result ≡ goes way argument.now }
{
    matches!(
        (way, argument.direction),
        (Direction::In, Direction::In) | (Direction::Out, Direction::Out)
    )
}

fn arguments_of(
    alloc: Global,
    types: &[DataType],
    way: Direction,
    arguments: &[Argument],
) -> Result<Vec<Limits>, Memory>
    ensures { IfOk result (λ words. words.items ≡ arguments_of types.now way arguments.now) }
{
    let mut words = Vec::new(alloc);
    for argument in arguments {
        if goes(way, argument) {
            words.push(limits_of(types, argument.of_type))?;
        }
    }
    Ok(words)
}

fn words_of_item(
    alloc: Global,
    types: &TypeTable,
    way: Direction,
    kind: &InterfaceKind,
    item: u32,
) -> Result<Vec<Limits>, Memory>
    ensures { IfOk result (λ words. words.items ≡ words_of_item types.now way kind.now item) }
{
    let data_types = types.data_types.items();
    match kind {
        InterfaceKind::SenderReceiver(elements) => match elements.items().get(item as usize) {
            Some(element) => words_of(alloc, data_types, element.of_type),
            None => Ok(Vec::new(alloc)),
        },
        InterfaceKind::ClientServer(operations) => match operations.items().get(item as usize) {
            Some(found) => arguments_of(alloc, data_types, way, found.arguments.items()),
            None => Ok(Vec::new(alloc)),
        },
        InterfaceKind::ModeSwitch(_) => Ok(Vec::new(alloc)),
    }
}

fn words_at(
    alloc: Global,
    types: &TypeTable,
    way: Direction,
    component: &Component,
    access: Access,
) -> Result<Vec<Limits>, Memory>
    ensures { IfOk result (λ words. words.items ≡ words_at types.now way component.now access.port access.item) }
{
    match kind_at(types, component, access.port) {
        Some(kind) => words_of_item(alloc, types, way, kind, access.item),
        None => Ok(Vec::new(alloc)),
    }
}

fn words_of_variable(
    alloc: Global,
    types: &TypeTable,
    component: &Component,
    variable: u32,
) -> Result<Vec<Limits>, Memory>
    ensures { IfOk result (λ words. words.items ≡ words_of_variable types.now component.now variable) }
{
    match component.behavior.variables.items().get(variable as usize) {
        Some(found) => words_of(alloc, types.data_types.items(), found.of_type),
        None => Ok(Vec::new(alloc)),
    }
}

fn given(
    alloc: Global,
    types: &TypeTable,
    component: &Component,
    access: Access,
) -> Result<Vec<Limits>, Memory>
    ensures { IfOk result (λ words. words.items ≡ given types.now component.now access) }
{
    use AccessKind as Kind;
    match access.kind {
        Kind::Write | Kind::Send | Kind::IWrite | Kind::Call | Kind::ACall => {
            words_at(alloc, types, Direction::In, component, access)
        }
        Kind::IrvWrite | Kind::IrvIWrite => {
            words_of_variable(alloc, types, component, access.item)
        }
        _ => Ok(Vec::new(alloc)),
    }
}

fn taken(
    alloc: Global,
    types: &TypeTable,
    component: &Component,
    access: Access,
) -> Result<Vec<Limits>, Memory>
    ensures { IfOk result (λ words. words.items ≡ taken types.now component.now access) }
{
    use AccessKind as Kind;
    match access.kind {
        Kind::Read | Kind::Receive | Kind::IRead | Kind::Call | Kind::TakeResult => {
            words_at(alloc, types, Direction::Out, component, access)
        }
        Kind::IrvRead | Kind::IrvIRead => words_of_variable(alloc, types, component, access.item),
        _ => Ok(Vec::new(alloc)),
    }
}

fn modes_at(types: &TypeTable, component: &Component, access: Access) -> usize
    ensures { result ≡ modes_of types.now component.now access }
{
    if !matches!(access.kind, AccessKind::Switch | AccessKind::Mode) {
        return 0;
    }
    match item_at(types, component.ports.items(), access.port, access.item) {
        Some((_, Item::Modes(count))) => count,
        _ => 0,
    }
}

#[tactic(auto, using(crate::proofs::Modes::few_modes))]
fn modes_of(types: &TypeTable, component: &Component, access: Access) -> u32
    requires { types_fit types.now ≡ true }
    ensures { result ≡ modes_of types.now component.now access }
{
    modes_at(types, component, access) as u32
}

fn access_sig(
    alloc: Global,
    types: &TypeTable,
    component: &Component,
    access: Access,
) -> Result<AccessSig, Memory>
    requires { types_fit types.now ≡ true }
    ensures { IfOk result (λ sig. sig ≡ access_sig types.now component.now access) }
{
    let ins = given(alloc, types, component, access)?;
    let outs = taken(alloc, types, component, access)?;
    let modes = modes_of(types, component, access);
    Ok(AccessSig {
        kind: access.kind,
        port: access.port,
        item: access.item,
        ins: Seq::of(ins),
        outs: Seq::of(outs),
        modes,
    })
}

/// The signature of a runnable of a component with these accesses, in their order: the limits of each word or argument that
/// goes through each access, and how many modes a mode port has (SWS_RTE: the signatures of Rte_Write, Rte_Read, Rte_Call and
/// the like). What an access gives or takes is none if it does not fit its port, or names nothing. The types fit, as those of
/// each description that is read: so no group has more than 32 modes.
pub fn signature_of(
    alloc: Global,
    types: &TypeTable,
    component: &Component,
    accesses: &[Access],
) -> Result<Signature, Memory>
    requires { types_fit types.now ≡ true }
    ensures { IfOk result (λ found. found.accesses ≡ signature types.now component.now accesses.now) }
{
    let mut list = Vec::new(alloc);
    for access in accesses {
        list.push(access_sig(alloc, types, component, *access)?)?;
    }
    Ok(Signature {
        accesses: Seq::of(list),
    })
}
