//! What was done, with what the bus answered.

ghost use Rattle.std.specs.Prelude.{◌≡◌};
ghost use Rattle.bus_semantics.specs.Common.{plan_of, machine_itself};
ghost use Rattle.trace_reading.specs.Deeds.{call_deed, call_deed_at, called_at, caller_itself, data_deed, data_deed_at, home_of, mode_at, mode_deed, plain_deed, seen_deed, start_deed};
ghost use Rattle.trace_reading.specs.Deeds.{step_in, switch_deed};
ghost use Rattle.trace_reading.specs.Pieces.{line_of};

use crate::actors::point_in;
use crate::fields::{Fields, code_at, no_value, number_at, value_at};
use crate::names::Names;
use crate::words::{CallWord, DataWord, ModeWord, PlainWord};
use bus_semantics::{Actor, BusPlan, Deed, Version};
use line_fields::instance_of;
use rte_value::Step;

/// The instance whose names an actor uses. None for the environment.
fn home_of(p: &BusPlan, who: Actor) -> Option<u32>
    ensures { result ≡ home_of (plan_of p.now) who }
{
    match who {
        Actor::Act(key) => instance_of(p, key.runnable),
        Actor::Env | Actor::Machine(_) => None,
    }
}

/// The place of the runnable that an actor runs. None for the environment.
fn caller_itself(who: Actor) -> Option<usize>
    ensures { result ≡ caller_itself who }
{
    match who {
        Actor::Act(key) => Some(key.runnable as usize),
        Actor::Env | Actor::Machine(_) => None,
    }
}

/// The machine that an actor is.
fn machine_itself(who: Actor) -> Option<u32>
    ensures { result ≡ machine_itself who }
{
    match who {
        Actor::Machine(machine) => Some(machine),
        Actor::Env | Actor::Act(_) => None,
    }
}

/// What is done at the element of this number.
fn data_deed_at(word: DataWord, elem: u32, f: &Fields) -> Option<Deed>
    ensures { result ≡ data_deed_at word elem (line_of f.now) }
{
    let deed = match word {
        DataWord::Read => Deed::Read {
            elem,
            code: code_at(f.second)?,
            value: value_at(f.third)?,
        },
        DataWord::Write => Deed::Write {
            elem,
            value: value_at(f.second)?,
        },
        DataWord::Fetch => Deed::Fetch {
            elem,
            value: value_at(f.second)?,
        },
        DataWord::Publish => Deed::Publish {
            elem,
            value: value_at(f.second)?,
        },
        DataWord::Send => Deed::Send {
            elem,
            value: value_at(f.second)?,
            code: code_at(f.third)?,
        },
        DataWord::Receive => Deed::Receive {
            elem,
            code: code_at(f.second)?,
            value: value_at(f.third)?,
        },
        DataWord::IsUpdated => Deed::IsUpdated {
            elem,
            yes: f.second == b"1".as_slice(),
        },
        DataWord::Invalidate => Deed::Invalidate { elem },
    };
    Some(deed)
}

/// What is done at an element.
pub fn data_deed(names: &Names, who: Actor, word: DataWord, f: &Fields) -> Option<Deed>
    ensures { result ≡ data_deed (plan_of names.now.plan.now) who word (line_of f.now) }
{
    match names.elem(home_of(names.plan, who), f.first) {
        Some(elem) => data_deed_at(word, elem, f),
        None => None,
    }
}

/// The point of this name at which an actor does something. It takes the results of all runnables of its instance.
fn called_at(names: &Names, who: Actor, word: CallWord, name: &[u8]) -> Option<u32>
    ensures { result ≡ called_at (plan_of names.now.plan.now) who word name.now }
{
    match (who, word) {
        (Actor::Act(key), CallWord::TakeResult) => {
            names.result(instance_of(names.plan, key.runnable), name)
        }
        _ => names.point(caller_itself(who), name),
    }
}

/// What is done at the point of this number.
fn call_deed_at(word: CallWord, point: u32, f: &Fields) -> Option<Deed>
    ensures { result ≡ call_deed_at word point (line_of f.now) }
{
    let deed = match word {
        CallWord::Ask => Deed::Ask {
            point,
            value: value_at(f.second)?,
            code: code_at(f.third)?,
        },
        CallWord::Answer => Deed::Answer {
            point,
            code: code_at(f.second)?,
            value: value_at(f.third)?,
        },
        CallWord::TakeResult => Deed::TakeResult {
            point,
            code: code_at(f.second)?,
            value: value_at(f.third)?,
        },
    };
    Some(deed)
}

/// What is done at a point.
pub fn call_deed(names: &Names, who: Actor, word: CallWord, f: &Fields) -> Option<Deed>
    ensures { result ≡ call_deed (plan_of names.now.plan.now) who word (line_of f.now) }
{
    match called_at(names, who, word, f.first) {
        Some(point) => call_deed_at(word, point, f),
        None => None,
    }
}

/// A mode of a machine: its number, or in version two its name.
fn mode_at(names: &Names, v: Version, machine: Option<u32>, text: &[u8]) -> Option<u32>
    ensures { result ≡ mode_at v (plan_of names.now.plan.now) machine text.now }
{
    match (v, machine) {
        (Version::One, _) => number_at(text),
        (Version::Two, None) => None,
        (Version::Two, Some(machine)) => names.mode(machine, text),
    }
}

/// A phase of a machine.
fn step_in(names: &Names, v: Version, who: Actor, f: &Fields) -> Option<Step>
    ensures { result ≡ step_in v (plan_of names.now.plan.now) who (line_of f.now) }
{
    if f.first == b"close".as_slice() {
        let mode = mode_at(names, v, machine_itself(who), f.second)?;
        Some(Step::Close(mode))
    } else if f.first == b"exit".as_slice() {
        Some(Step::Exit)
    } else if f.first == b"transition".as_slice() {
        Some(Step::Transition)
    } else if f.first == b"entry".as_slice() {
        Some(Step::Entry)
    } else if f.first == b"stable".as_slice() {
        Some(Step::Stable)
    } else {
        None
    }
}

/// `switch X MODE C`.
fn switch_deed(names: &Names, v: Version, machine: u32, f: &Fields) -> Option<Deed>
    ensures { result ≡ switch_deed v (plan_of names.now.plan.now) machine (line_of f.now) }
{
    let mode = mode_at(names, v, Some(machine), f.second)?;
    let code = code_at(f.third)?;
    Some(Deed::Switch {
        machine,
        mode,
        code,
    })
}

/// `mode X MODE`.
fn seen_deed(names: &Names, v: Version, port: u32, f: &Fields) -> Option<Deed>
    ensures { result ≡ seen_deed v (plan_of names.now.plan.now) port (line_of f.now) }
{
    let mode = mode_at(names, v, names.plan.machine_of_port(port), f.second)?;
    Some(Deed::Mode { port, mode })
}

/// What is done with modes.
pub fn mode_deed(names: &Names, v: Version, who: Actor, word: ModeWord, f: &Fields) -> Option<Deed>
    ensures { result ≡ mode_deed v (plan_of names.now.plan.now) who word (line_of f.now) }
{
    let home = home_of(names.plan, who);
    match word {
        ModeWord::Switch => switch_deed(names, v, names.machine(home, f.first)?, f),
        ModeWord::Mode => seen_deed(names, v, names.mode_port(home, f.first)?, f),
        ModeWord::Phase => Some(Deed::Phase(step_in(names, v, who, f)?)),
    }
}

/// `start EVENT`, and for a server `start EVENT from POINT V`.
fn start_deed(names: &Names, event: u32, f: &Fields) -> Option<Deed>
    ensures { result ≡ start_deed (plan_of names.now.plan.now) event (line_of f.now) }
{
    if f.second != b"from".as_slice() {
        return Some(Deed::Start {
            event,
            point: None,
            value: no_value(),
        });
    }
    let point = point_in(names, f.third)?;
    let value = value_at(f.fourth)?;
    Some(Deed::Start {
        event,
        point: Some(point),
        value,
    })
}

/// What else is done.
pub fn plain_deed(names: &Names, who: Actor, word: PlainWord, f: &Fields) -> Option<Deed>
    ensures { result ≡ plain_deed (plan_of names.now.plan.now) who word (line_of f.now) }
{
    let home = home_of(names.plan, who);
    match word {
        PlainWord::Start => start_deed(names, names.event(home, f.first)?, f),
        PlainWord::Admit => Some(Deed::Admit {
            yes: f.first == b"yes".as_slice(),
        }),
        PlainWord::End => Some(Deed::End),
        PlainWord::Tick => Some(Deed::Tick),
        PlainWord::Return => Some(Deed::Return {
            code: code_at(f.first)?,
            value: value_at(f.second)?,
        }),
        PlainWord::Enter => Some(Deed::Enter {
            area: names.area(home, f.first)?,
        }),
        PlainWord::Leave => Some(Deed::Leave {
            area: names.area(home, f.first)?,
        }),
    }
}
