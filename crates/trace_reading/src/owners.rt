//! Whose names are whose. `home` is an instance, or None for the outer ports.

ghost use Rattle.std.specs.Prelude.{◌≡◌, ◌&&◌, Bool, false, not};
ghost use Rattle.bus_semantics.specs.Common.{words_of, plan_of, area_fits, elem_fits, event_fits, holds, is_queued, is_readable, is_unqueued, is_writable, key_fits, mode_port_fits};
ghost use Rattle.bus_semantics.specs.Common.{option_copied, option_map_or, own_point, result_point, serves_directly, switch_fits};
ghost use Rattle.bus_laws.specs.Common.{ElemPlan};

use crate::looking::{caller_of, queue_of, runnable_of_event, served_by};
use bus_semantics::{BusPlan, ElemKind, ElemPlan};
use line_fields::{instance_of, same_number};
use rte_value::{ActKey, Value};

/// Whether the runnable of a key serves a server that runs in its caller's task.
fn serves_directly(p: &BusPlan, key: ActKey) -> bool
    ensures { result ≡ serves_directly (plan_of p.now) key }
{
    match served_by(p, key) {
        Some(server) => queue_of(p, server).is_none(),
        None => false,
    }
}

/// Whether a key names a runnable, and a point exactly if this serves directly: one that is joined to its server.
pub fn key_fits(p: &BusPlan, key: ActKey) -> bool
    ensures { result ≡ key_fits (plan_of p.now) key }
{
    let direct = serves_directly(p, key);
    let known = (key.runnable as usize) < p.runnables.len();
    match key.point {
        None => known && !direct,
        Some(point) => known && (direct && same_number(p.server_of(point), served_by(p, key))),
    }
}

/// Whether an element is written explicitly: unqueued and provided, or a variable.
fn is_writable(element: &ElemPlan) -> bool
    ensures { result ≡ is_writable element.now }
{
    match element.kind {
        ElemKind::Unqueued => element.provided,
        ElemKind::Queued => false,
        ElemKind::Variable => true,
    }
}

/// Whether an element is read explicitly: unqueued and required, or a variable.
fn is_readable(element: &ElemPlan) -> bool
    ensures { result ≡ is_readable element.now }
{
    match element.kind {
        ElemKind::Unqueued => !element.provided,
        ElemKind::Queued => false,
        ElemKind::Variable => true,
    }
}

fn is_unqueued(element: &ElemPlan) -> bool
    ensures { result ≡ is_unqueued element.now }
{
    match element.kind {
        ElemKind::Unqueued => true,
        ElemKind::Queued => false,
        ElemKind::Variable => false,
    }
}

fn is_queued(element: &ElemPlan) -> bool
    ensures { result ≡ is_queued element.now }
{
    match element.kind {
        ElemKind::Unqueued => false,
        ElemKind::Queued => true,
        ElemKind::Variable => false,
    }
}

/// Whether a value has as many words as an element.
fn holds(value: &Value, element: &ElemPlan) -> bool
    ensures { result ≡ holds (words_of value.now) element.now }
{
    value.words().len() == element.words as usize
}

/// The element of this number, if it is the home's.
fn own_element(p: &BusPlan, home: Option<u32>, elem: u32) -> Option<&ElemPlan>
    ensures { (test : ElemPlan → Bool) → elem_fits (plan_of p.now) home test elem ≡ option_map_or test (option_copied result) false }
{
    let element = p.elements.items().get(elem as usize)?;
    if same_number(element.instance, home) {
        Some(element)
    } else {
        None
    }
}

/// Whether the element is the home's, and readable.
pub fn may_be_read(p: &BusPlan, home: Option<u32>, elem: u32) -> bool
    ensures { result ≡ elem_fits (plan_of p.now) home is_readable elem }
{
    match own_element(p, home, elem) {
        Some(element) => is_readable(element),
        None => false,
    }
}

/// Whether the element is the home's, and takes this value.
pub fn may_be_written(p: &BusPlan, home: Option<u32>, elem: u32, value: &Value) -> bool
    ensures { result ≡ elem_fits (plan_of p.now) home (λ e. is_writable e && holds (words_of value.now) e) elem }
{
    match own_element(p, home, elem) {
        Some(element) => is_writable(element) && holds(value, element),
        None => false,
    }
}

/// Whether the element is the home's, unqueued and provided.
pub fn is_provided(p: &BusPlan, home: Option<u32>, elem: u32) -> bool
    ensures { result ≡ elem_fits (plan_of p.now) home (λ e. is_unqueued e && e.provided) elem }
{
    match own_element(p, home, elem) {
        Some(element) => is_unqueued(element) && element.provided,
        None => false,
    }
}

/// Whether the element is the home's, unqueued and provided, and takes this value.
pub fn takes(p: &BusPlan, home: Option<u32>, elem: u32, value: &Value) -> bool
    ensures { result ≡ elem_fits (plan_of p.now) home (λ e. (is_unqueued e && e.provided) && holds (words_of value.now) e) elem }
{
    match own_element(p, home, elem) {
        Some(element) => is_unqueued(element) && element.provided && holds(value, element),
        None => false,
    }
}

/// Whether the element is the home's, unqueued and required.
pub fn is_required(p: &BusPlan, home: Option<u32>, elem: u32) -> bool
    ensures { result ≡ elem_fits (plan_of p.now) home (λ e. is_unqueued e && not e.provided) elem }
{
    match own_element(p, home, elem) {
        Some(element) => is_unqueued(element) && !element.provided,
        None => false,
    }
}

/// Whether the element is the home's, queued and provided, and takes this value.
pub fn may_be_sent(p: &BusPlan, home: Option<u32>, elem: u32, value: &Value) -> bool
    ensures { result ≡ elem_fits (plan_of p.now) home (λ e. (is_queued e && e.provided) && holds (words_of value.now) e) elem }
{
    match own_element(p, home, elem) {
        Some(element) => is_queued(element) && element.provided && holds(value, element),
        None => false,
    }
}

/// Whether the element is the home's, queued and required.
pub fn may_be_received(p: &BusPlan, home: Option<u32>, elem: u32) -> bool
    ensures { result ≡ elem_fits (plan_of p.now) home (λ e. is_queued e && not e.provided) elem }
{
    match own_element(p, home, elem) {
        Some(element) => is_queued(element) && !element.provided,
        None => false,
    }
}

/// Whether the event starts a runnable of the instance.
pub fn event_fits(p: &BusPlan, home: Option<u32>, event: u32) -> bool
    ensures { result ≡ event_fits (plan_of p.now) home event }
{
    let its_home = match runnable_of_event(p, event) {
        Some(runnable) => instance_of(p, runnable),
        None => None,
    };
    (event as usize) < p.events.len() && same_number(its_home, home)
}

/// Whether the point is the runnable's own, or for None the environment's own.
pub fn own_point(p: &BusPlan, runnable: Option<u32>, point: u32) -> bool
    ensures { result ≡ own_point (plan_of p.now) runnable point }
{
    (point as usize) < p.points.len() && same_number(caller_of(p, point), runnable)
}

/// Whether the point is one of a runnable of the instance at which it calls without waiting.
pub fn result_point(p: &BusPlan, home: Option<u32>, point: u32) -> bool
    ensures { result ≡ result_point (plan_of p.now) home point }
{
    match p.points.items().get(point as usize) {
        Some(point) => match point.runnable {
            Some(runnable) => point.asynchronous && same_number(instance_of(p, runnable), home),
            None => false,
        },
        None => false,
    }
}

/// Whether the exclusive area is the home's.
pub fn area_fits(p: &BusPlan, home: Option<u32>, area: u32) -> bool
    ensures { result ≡ area_fits (plan_of p.now) home area }
{
    match p.areas.items().get(area as usize) {
        Some(area) => same_number(Some(area.instance), home),
        None => false,
    }
}

/// Whether the machine is the home's, and has this mode.
pub fn switch_fits(p: &BusPlan, home: Option<u32>, machine: u32, mode: u32) -> bool
    ensures { result ≡ switch_fits (plan_of p.now) home machine mode }
{
    match p.machines.items().get(machine as usize) {
        Some(machine) => {
            same_number(machine.instance, home) && (mode as usize) < machine.modes.len()
        }
        None => false,
    }
}

/// Whether the mode port is the home's.
pub fn mode_port_fits(p: &BusPlan, home: Option<u32>, port: u32) -> bool
    ensures { result ≡ mode_port_fits (plan_of p.now) home port }
{
    match p.mode_ports.items().get(port as usize) {
        Some(port) => same_number(port.instance, home),
        None => false,
    }
}
