//! Data elements and variables, with their types.

ghost use Rattle.std.specs.Prelude.{◌≡◌, option_and_then, option_copied, slice_get};
ghost use Rattle.std.specs.Option.{option_map_or};
ghost use Rattle.bus_semantics.specs.declared.plan.ElemKind.TheVariants.{Unqueued};
ghost use Rattle.plan_definitions.specs.Elements.{element_in, policy_kind, variable_at};

use bus_semantics::ElemKind;
use description_types::{DataElement, DataType, InterfaceKind, SwImplPolicy, Variable};
use plan_numbers::{Source, component_of};

fn element_in(kind: &InterfaceKind, item: u32) -> Option<&DataElement>
    ensures { option_copied result ≡ element_in kind.now item }
{
    match kind {
        InterfaceKind::SenderReceiver(elements) => elements.items().get(item as usize),
        _ => None,
    }
}

/// The data element of an interface at a position, if the interface has such.
pub fn declared_in(kind: Option<&InterfaceKind>, item: u32) -> Option<&DataElement>
    ensures { option_copied result ≡ option_and_then (λ k. element_in k item) (option_copied kind.entry) }
{
    element_in(kind?, item)
}

/// A variable of an instance. The environment has none.
pub fn variable_at<'a>(source: &Source<'a>, owner: Option<u32>, item: u32) -> Option<&'a Variable>
    ensures { option_copied result ≡ variable_at source.now.d.now source.now.f.now owner item }
{
    let component = component_of(source.d, source.f, owner?)?;
    component.behavior.variables.items().get(item as usize)
}

/// The data type at a position.
pub fn type_at(source: &Source<'_>, position: u32) -> Option<DataType>
    ensures { result ≡ slice_get source.now.d.now.types.data_types position }
{
    let types = source.d.types.data_types.items();
    types.get(position as usize).copied()
}

fn policy_kind(policy: SwImplPolicy) -> ElemKind
    ensures { result ≡ policy_kind policy }
{
    match policy {
        SwImplPolicy::Standard => ElemKind::Unqueued,
        SwImplPolicy::Queued => ElemKind::Queued,
    }
}

/// The type of what is declared.
pub fn type_declared(source: &Source<'_>, declared: Option<&DataElement>) -> Option<DataType>
    ensures { result ≡ option_and_then (λ e. slice_get source.now.d.now.types.data_types e.of_type) (option_copied declared.entry) }
{
    type_at(source, declared?.of_type)
}

/// How a declared element is kept.
pub fn kind_declared(declared: Option<&DataElement>) -> ElemKind
    ensures { result ≡ option_map_or (λ e. policy_kind e.sw_impl_policy) (option_copied declared.entry) Unqueued }
{
    match declared {
        Some(element) => policy_kind(element.sw_impl_policy),
        None => ElemKind::Unqueued,
    }
}
