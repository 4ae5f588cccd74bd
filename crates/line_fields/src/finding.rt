//! The first thing of a name. `home` is an instance, or None for the outer ports.

ghost use Rattle.std.specs.Prelude.{◌≡◌, position};
ghost use Rattle.bus_semantics.specs.Common.{same_number, instance_of, plan_of, runnable_of};
ghost use Rattle.line_fields.specs.Named.{is_area, is_elem, is_event, is_machine, is_mode_port, is_point, is_runnable, is_text};

use bus_semantics::{
    AreaPlan, BusPlan, ElemPlan, EventPlan, MachinePlan, ModePortPlan, PointPlan, RunnablePlan,
};
use rte_text::Text;

/// Whether both are the same number, or both none.
pub fn same_number(a: Option<u32>, b: Option<u32>) -> bool
    ensures { result ≡ same_number a b }
{
    match (a, b) {
        (None, None) => true,
        (Some(a), Some(b)) => a == b,
        _ => false,
    }
}

fn is_elem(home: Option<u32>, name: &[u8], elem: &ElemPlan) -> bool
    ensures { result ≡ is_elem home name.now elem.now }
{
    same_number(elem.instance, home) && elem.name.bytes() == name
}

/// The first element of this name that is the home's.
pub fn elem_named(p: &BusPlan, home: Option<u32>, name: &[u8]) -> Option<usize>
    ensures { result ≡ position (is_elem home name.now) (plan_of p.now).elements }
{
    p.elements
        .items()
        .iter()
        .position(|elem| is_elem(home, name, elem))
}

/// Whether it is the number of this place, or there is neither.
fn same_place(number: Option<u32>, place: Option<usize>) -> bool
    ensures { result ≡ same_number number place }
{
    match (number, place) {
        (None, None) => true,
        (Some(number), Some(place)) => number as usize == place,
        _ => false,
    }
}

fn is_point(caller: Option<usize>, name: &[u8], point: &PointPlan) -> bool
    ensures { result ≡ is_point caller name.now point.now }
{
    same_place(point.runnable, caller) && point.name.bytes() == name
}

/// The first point of this name at which the runnable of this place calls, or for None the environment.
pub fn point_named(p: &BusPlan, caller: Option<usize>, name: &[u8]) -> Option<usize>
    ensures { result ≡ position (is_point caller name.now) (plan_of p.now).points }
{
    p.points
        .items()
        .iter()
        .position(|point| is_point(caller, name, point))
}

fn is_area(home: Option<u32>, name: &[u8], area: &AreaPlan) -> bool
    ensures { result ≡ is_area home name.now area.now }
{
    same_number(Some(area.instance), home) && area.name.bytes() == name
}

/// The first exclusive area of this name that is the home's.
pub fn area_named(p: &BusPlan, home: Option<u32>, name: &[u8]) -> Option<usize>
    ensures { result ≡ position (is_area home name.now) (plan_of p.now).areas }
{
    p.areas
        .items()
        .iter()
        .position(|area| is_area(home, name, area))
}

fn is_machine(home: Option<u32>, name: &[u8], machine: &MachinePlan) -> bool
    ensures { result ≡ is_machine home name.now machine.now }
{
    same_number(machine.instance, home) && machine.name.bytes() == name
}

/// The first machine of this name that is the home's.
pub fn machine_named(p: &BusPlan, home: Option<u32>, name: &[u8]) -> Option<usize>
    ensures { result ≡ position (is_machine home name.now) (plan_of p.now).machines }
{
    p.machines
        .items()
        .iter()
        .position(|machine| is_machine(home, name, machine))
}

fn is_mode_port(home: Option<u32>, name: &[u8], port: &ModePortPlan) -> bool
    ensures { result ≡ is_mode_port home name.now port.now }
{
    same_number(port.instance, home) && port.name.bytes() == name
}

/// The first mode port of this name that is the home's.
pub fn mode_port_named(p: &BusPlan, home: Option<u32>, name: &[u8]) -> Option<usize>
    ensures { result ≡ position (is_mode_port home name.now) (plan_of p.now).mode_ports }
{
    p.mode_ports
        .items()
        .iter()
        .position(|port| is_mode_port(home, name, port))
}

/// The instance of a runnable.
pub fn instance_of(p: &BusPlan, runnable: u32) -> Option<u32>
    ensures { result ≡ instance_of (plan_of p.now) runnable }
{
    match p.runnables.items().get(runnable as usize) {
        Some(runnable) => Some(runnable.instance),
        None => None,
    }
}

fn is_event(p: &BusPlan, home: Option<u32>, name: &[u8], event: &EventPlan) -> bool
    ensures { result ≡ is_event (plan_of p.now) home name.now event.now }
{
    same_number(instance_of(p, event.runnable), home) && event.name.bytes() == name
}

/// The first event of this name that starts a runnable of the home.
pub fn event_named(p: &BusPlan, home: Option<u32>, name: &[u8]) -> Option<usize>
    ensures { result ≡ position (is_event (plan_of p.now) home name.now) (plan_of p.now).events }
{
    p.events
        .items()
        .iter()
        .position(|event| is_event(p, home, name, event))
}

fn is_runnable(home: Option<u32>, name: &[u8], runnable: &RunnablePlan) -> bool
    ensures { result ≡ is_runnable home name.now (runnable_of runnable.now) }
{
    same_number(Some(runnable.instance), home) && runnable.name.bytes() == name
}

/// Where the first runnable of this name stands that is the instance's.
fn place_of_runnable(runnables: &[RunnablePlan], home: Option<u32>, name: &[u8]) -> Option<usize>
    ensures { result ≡ position (λ r. is_runnable home name.now (runnable_of r)) runnables.now }
{
    runnables
        .iter()
        .position(|runnable| is_runnable(home, name, runnable))
}

/// The first runnable of this name that is the instance's.
pub fn runnable_named(p: &BusPlan, home: Option<u32>, name: &[u8]) -> Option<usize>
    ensures { result ≡ position (is_runnable home name.now) (plan_of p.now).runnables }
{
    place_of_runnable(p.runnables.items(), home, name)
}

fn is_text(name: &[u8], text: &Text) -> bool
    ensures { result ≡ is_text name.now text.now }
{
    text.bytes() == name
}

/// The first instance of this path.
pub fn instance_named(p: &BusPlan, path: &[u8]) -> Option<usize>
    ensures { result ≡ position (is_text path.now) (plan_of p.now).names }
{
    p.names.items().iter().position(|text| is_text(path, text))
}

/// The first mode of this name.
pub fn mode_named(machine: &MachinePlan, name: &[u8]) -> Option<usize>
    ensures { result ≡ position (is_text name.now) machine.now.modes }
{
    machine
        .modes
        .items()
        .iter()
        .position(|text| is_text(name, text))
}
