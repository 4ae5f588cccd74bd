//! What the environment has in a plan, by the forms that name it.

ghost use Rattle.std.specs.Prelude.{◌≡◌, is_none, ◌&&◌, if◌then◌else◌, Some, None, option_copied};
ghost use Rattle.bus_semantics.specs.Plan.{look, plan_of};
ghost use Rattle.script_reading.specs.Offers.{elem_offered, how_many, is_for, machine_offered, mode_port_offered, offered, point_offered};

use crate::forms::Form;
use bus_semantics::{BusPlan, ElemKind, ElemPlan};

/// Whether a form is for elements of this kind and side.
fn is_for(form: Form, element: &ElemPlan) -> bool
    ensures { result ≡ is_for form element.now }
{
    match (form, element.kind) {
        (Form::Write, ElemKind::Unqueued) | (Form::Send, ElemKind::Queued) => element.provided,
        (Form::Read, ElemKind::Unqueued) | (Form::Receive, ElemKind::Queued) => !element.provided,
        _ => false,
    }
}

/// The name of an element, if it is the environment's and the form is for it.
fn elem_offered(form: Form, element: &ElemPlan) -> Option<&[u8]>
    ensures { option_copied result ≡ elem_offered form element.now }
{
    if element.instance.is_none() && is_for(form, element) {
        Some(element.name.bytes())
    } else {
        None
    }
}

/// The name of the element of this number, if it is the environment's and the form is for it.
fn elem_at(plan: &BusPlan, form: Form, number: usize) -> Option<&[u8]>
    ensures { option_copied result ≡ look plan.now.elements number (elem_offered form) None }
{
    match plan.elements.items().get(number) {
        Some(element) => elem_offered(form, element),
        None => None,
    }
}

/// The name of the operation that is called at this point, if the point is the environment's.
fn point_at(plan: &BusPlan, number: usize) -> Option<&[u8]>
    ensures { option_copied result ≡ look plan.now.points number point_offered None }
{
    match plan.points.items().get(number) {
        Some(point) if point.runnable.is_none() => Some(point.name.bytes()),
        _ => None,
    }
}

/// The name of the mode element of this machine, if it is the environment's.
fn machine_at(plan: &BusPlan, number: usize) -> Option<&[u8]>
    ensures { option_copied result ≡ look plan.now.machines number machine_offered None }
{
    match plan.machines.items().get(number) {
        Some(machine) if machine.instance.is_none() => Some(machine.name.bytes()),
        _ => None,
    }
}

/// The name of the mode element of this mode port, if it is the environment's.
fn mode_port_at(plan: &BusPlan, number: usize) -> Option<&[u8]>
    ensures { option_copied result ≡ look plan.now.mode_ports number mode_port_offered None }
{
    match plan.mode_ports.items().get(number) {
        Some(port) if port.instance.is_none() => Some(port.name.bytes()),
        _ => None,
    }
}

/// The name of the environment's thing of this number, if the form is for it.
pub fn offered(plan: &BusPlan, form: Form, number: usize) -> Option<&[u8]>
    ensures { option_copied result ≡ offered form (plan_of plan.now) number }
{
    match form {
        Form::Write | Form::Send | Form::Read | Form::Receive => elem_at(plan, form, number),
        Form::Ask | Form::TakeResult => point_at(plan, number),
        Form::Switch => machine_at(plan, number),
        Form::SeeMode => mode_port_at(plan, number),
    }
}

/// How many things the plan has where the form looks.
pub fn how_many(plan: &BusPlan, form: Form) -> usize
    ensures { result ≡ how_many form (plan_of plan.now) }
{
    match form {
        Form::Write | Form::Send | Form::Read | Form::Receive => plan.elements.len(),
        Form::Ask | Form::TakeResult => plan.points.len(),
        Form::Switch => plan.machines.len(),
        Form::SeeMode => plan.mode_ports.len(),
    }
}
