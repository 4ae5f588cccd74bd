//! Who made an entry, and points.

ghost use Rattle.std.specs.Prelude.{◌≡◌, option_copied};
ghost use Rattle.bus_semantics.specs.Plan.{plan_of};
ghost use Rattle.trace_reading.specs.Actors.{actor_in, caller_in, home_in, key_in, key_with, machine_in, point_in, runnable_in};

use crate::cuts::cut;
use crate::fields::numbered;
use crate::names::Names;
use bus_semantics::Actor;
use rte_value::ActKey;

/// `INSTANCE`, and `env` for the environment.
fn home_in(names: &Names, text: &[u8]) -> Option<Option<u32>>
    ensures { result ≡ home_in (plan_of names.now.plan.now) text.now }
{
    if text == b"env".as_slice() {
        return Some(None);
    }
    match names.instance(text) {
        Some(instance) => Some(Some(instance)),
        None => None,
    }
}

/// `INSTANCE:RUNNABLE`, by its place.
fn runnable_in(names: &Names, text: &[u8]) -> Option<usize>
    ensures { result ≡ runnable_in (plan_of names.now.plan.now) text.now }
{
    match cut(text, b':') {
        (path, Some(name)) => match names.instance(path) {
            Some(instance) => names.runnable(instance, name),
            None => None,
        },
        (_, None) => None,
    }
}

/// `INSTANCE:RUNNABLE`, and `env` for the environment.
fn caller_in(names: &Names, text: &[u8]) -> Option<Option<usize>>
    ensures { result ≡ caller_in (plan_of names.now.plan.now) text.now }
{
    if text == b"env".as_slice() {
        return Some(None);
    }
    match runnable_in(names, text) {
        Some(place) => Some(Some(place)),
        None => None,
    }
}

/// `INSTANCE:RUNNABLE.PORT.OPERATION`, and `env.PORT.OPERATION`.
pub fn point_in(names: &Names, text: &[u8]) -> Option<u32>
    ensures { result ≡ point_in (plan_of names.now.plan.now) text.now }
{
    match cut(text, b'.') {
        (caller, Some(name)) => match caller_in(names, caller) {
            Some(caller) => names.point(caller, name),
            None => None,
        },
        (_, None) => None,
    }
}

/// `INSTANCE.PORT.ELEMENT`, and `env.PORT.ELEMENT`.
fn machine_in(names: &Names, text: &[u8]) -> Option<u32>
    ensures { result ≡ machine_in (plan_of names.now.plan.now) text.now }
{
    match cut(text, b'.') {
        (home, Some(name)) => match home_in(names, home) {
            Some(home) => names.machine(home, name),
            None => None,
        },
        (_, None) => None,
    }
}

/// The runnable with the point that it serves, if there is one.
fn key_with(names: &Names, runnable: u32, point: Option<&[u8]>) -> Option<ActKey>
    ensures { result ≡ key_with (plan_of names.now.plan.now) runnable (option_copied point.entry) }
{
    match point {
        None => Some(ActKey {
            runnable,
            point: None,
        }),
        Some(text) => match point_in(names, text) {
            Some(point) => Some(ActKey {
                runnable,
                point: Some(point),
            }),
            None => None,
        },
    }
}

/// `INSTANCE:RUNNABLE`, and `INSTANCE:RUNNABLE@POINT` for a direct server.
fn key_in(names: &Names, text: &[u8]) -> Option<ActKey>
    ensures { result ≡ key_in (plan_of names.now.plan.now) text.now }
{
    let (runnable, point) = cut(text, b'@');
    match numbered(runnable_in(names, runnable)) {
        Some(runnable) => key_with(names, runnable, point),
        None => None,
    }
}

/// Who made an entry.
pub fn actor_in(names: &Names, text: &[u8]) -> Option<Actor>
    ensures { result ≡ actor_in (plan_of names.now.plan.now) text.now }
{
    if text == b"env".as_slice() {
        return Some(Actor::Env);
    }
    match cut(text, b':') {
        (_, None) => match machine_in(names, text) {
            Some(machine) => Some(Actor::Machine(machine)),
            None => None,
        },
        (_, Some(_)) => match key_in(names, text) {
            Some(key) => Some(Actor::Act(key)),
            None => None,
        },
    }
}
