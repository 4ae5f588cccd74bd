//! What the accesses of runnables name.

ghost use Rattle.std.specs.Prelude.{◌≡◌, IfOk, map};
ghost use Rattle.plan_definitions.specs.Common.{target_of, callings as all_callings};

use crate::listed_callings::Callings;
use description_types::Access;
use plan_numbers::Source;
use rte_text::{Memory, Seq};
use runnable_lang::AccessKind;
use std::alloc::Global;

/// The number of what an access of a runnable of an instance names: of an element or variable, a point, a machine, a mode port
/// or an area.
fn target_of(
    source: &Source<'_>,
    callings: &Callings,
    instance: u32,
    runnable: u32,
    access: Access,
) -> u32
    requires { callings.now ≡ all_callings source.now.d.now source.now.f.now }
    ensures { result ≡ target_of source.now.d.now source.now.f.now instance runnable access }
{
    use AccessKind as Kind;
    match access.kind {
        Kind::IrvWrite | Kind::IrvRead | Kind::IrvIWrite | Kind::IrvIRead => {
            source.element_number(Some(instance), None, access.item)
        }
        Kind::Call | Kind::ACall => {
            callings.called(instance, runnable, access.port, access.item)
        }
        Kind::TakeResult => callings.left(instance, access.port, access.item),
        Kind::Switch => source.machine_number(Some(instance), access.port, 0),
        Kind::Mode => source.mode_port_number(instance, access.port),
        Kind::Enter => source.area_number(instance, access.item),
        _ => source.element_number(Some(instance), Some(access.port), access.item),
    }
}

/// The targets of all accesses of a runnable.
pub fn targets_of(
    alloc: Global,
    source: &Source<'_>,
    callings: &Callings,
    instance: u32,
    runnable: u32,
    accesses: &[Access],
) -> Result<Seq<u32>, Memory>
    requires { callings.now ≡ all_callings source.now.d.now source.now.f.now }
    ensures { IfOk result (λ list. list ≡ map (target_of source.now.d.now source.now.f.now instance runnable) accesses.now) }
{
    let mut list = Vec::new(alloc);
    for access in accesses {
        list.push(target_of(source, callings, instance, runnable, *access))?;
    }
    Ok(Seq::of(list))
}
