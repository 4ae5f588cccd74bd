//! What was done, with what the bus answered.

ghost use Rattle.std.specs.Prelude.{◌≡◌, ◌++◌, codes, decimal, Some, true, if◌then◌else◌};
ghost use Rattle.bus_semantics.specs.Common.{plan_of, deed_text, event_name, from_text, machine_name, mode_port_name, mode_text, phase_text, spaced, value_text, machine_of_port};
ghost use Rattle.bus_semantics.specs.Common.{machine_itself, lists_sound};
ghost use Rattle.trace_text.specs.Appending.{Appends};
ghost use Rattle.trace_text.specs.Short.{IsShort, IsShortFrom, IsShortMode, IsShortNumber, IsShortStep, IsShortValue};

use crate::actors::write_point;
use crate::fields::{
    write_code, write_number, write_spaced_number, write_spaced_value, write_text, write_value,
};
use crate::lists::{write_fetched, write_published};
use crate::names::{
    area_name, elem_name, event_name, machine_name, mode_name, mode_port_name, point_name,
};
use bus_semantics::{Actor, BusPlan, Deed, Version};
use rte_text::LineBuf;
use rte_value::{Code, Step, Value};

/// ` from POINT V` for a server, and nothing for any other.
fn write_from(p: &BusPlan, point: Option<u32>, value: &Value, out: &mut LineBuf)
    ensures text { Appends out.old out.new (from_text (plan_of p.now) point value.now) }
    ensures short { IsShortFrom point value.now }
{
    if let Some(point) = point {
        write_text(b" from ", out);
        write_point(p, point, out);
        write_spaced_value(value, out);
    }
}

/// ` start EVENT`, and for a server ` start EVENT from POINT V`.
fn write_start(p: &BusPlan, event: u32, point: Option<u32>, value: &Value, out: &mut LineBuf)
    ensures text { Appends out.old out.new (spaced (codes "start " ++ event_name (plan_of p.now) event ++ from_text (plan_of p.now) point value.now)) }
    ensures short { IsShortFrom point value.now }
{
    write_text(b" start ", out);
    write_text(event_name(p, event), out);
    write_from(p, point, value, out);
}

/// ` admit yes` or ` admit no`.
fn write_admit(yes: bool, out: &mut LineBuf)
    ensures { Appends out.old out.new (spaced (if yes then codes "admit yes" else codes "admit no")) }
{
    if yes {
        write_text(b" admit yes", out);
    } else {
        write_text(b" admit no", out);
    }
}

/// ` WORD NAME`. The word stands between its spaces.
fn write_named(word: &[u8], name: &[u8], out: &mut LineBuf)
    ensures { Appends out.old out.new (word.now ++ name.now) }
{
    write_text(word, out);
    write_text(name, out);
}

/// ` WORD NAME V`.
fn write_named_value(word: &[u8], name: &[u8], value: &Value, out: &mut LineBuf)
    ensures text { Appends out.old out.new (word.now ++ name.now ++ spaced (value_text value.now)) }
    ensures short { IsShortValue value.now }
{
    write_text(word, out);
    write_text(name, out);
    write_spaced_value(value, out);
}

/// ` write X V 0`.
fn write_written(name: &[u8], value: &Value, out: &mut LineBuf)
    ensures text { Appends out.old out.new (spaced (codes "write " ++ name.now ++ spaced (value_text value.now) ++ codes " 0")) }
    ensures short { IsShortValue value.now }
{
    write_text(b" write ", out);
    write_text(name, out);
    write_spaced_value(value, out);
    write_text(b" 0", out);
}

/// ` WORD NAME C V`: what the bus answers with a value.
fn write_taken(word: &[u8], name: &[u8], code: Code, value: &Value, out: &mut LineBuf)
    ensures text { Appends out.old out.new (word.now ++ name.now ++ spaced (decimal code) ++ spaced (value_text value.now)) }
    ensures short_code { IsShortNumber code }
    ensures short_value { IsShortValue value.now }
{
    write_text(word, out);
    write_text(name, out);
    write_code(code, out);
    write_value(value, out);
}

/// ` WORD NAME V C`: a value, and whether the bus accepts it.
fn write_given(word: &[u8], name: &[u8], value: &Value, code: Code, out: &mut LineBuf)
    ensures text { Appends out.old out.new (word.now ++ name.now ++ spaced (value_text value.now) ++ spaced (decimal code)) }
    ensures short_value { IsShortValue value.now }
    ensures short_code { IsShortNumber code }
{
    write_text(word, out);
    write_text(name, out);
    write_spaced_value(value, out);
    write_spaced_number(u32::from(code), out);
}

/// ` invalidate X 0`.
fn write_invalidated(name: &[u8], out: &mut LineBuf)
    ensures { Appends out.old out.new (spaced (codes "invalidate " ++ name.now ++ codes " 0")) }
{
    write_text(b" invalidate ", out);
    write_text(name, out);
    write_text(b" 0", out);
}

/// ` 1` or ` 0`.
fn write_flag(yes: bool, out: &mut LineBuf)
    ensures { Appends out.old out.new (if yes then codes " 1" else codes " 0") }
{
    if yes {
        write_text(b" 1", out);
    } else {
        write_text(b" 0", out);
    }
}

/// ` isUpdated X 1` or ` isUpdated X 0`.
fn write_updated(name: &[u8], yes: bool, out: &mut LineBuf)
    ensures { Appends out.old out.new (spaced (codes "isUpdated " ++ name.now ++ (if yes then codes " 1" else codes " 0"))) }
{
    write_text(b" isUpdated ", out);
    write_text(name, out);
    write_flag(yes, out);
}

/// ` return C V`.
fn write_return(code: Code, value: &Value, out: &mut LineBuf)
    ensures text { Appends out.old out.new (spaced (codes "return " ++ decimal code ++ spaced (value_text value.now))) }
    ensures short_code { IsShortNumber code }
    ensures short_value { IsShortValue value.now }
{
    write_text(b" return ", out);
    write_number(u32::from(code), out);
    write_spaced_value(value, out);
}

/// A mode of a machine: its number, or in version two its name.
fn write_mode_of(p: &BusPlan, machine: Option<u32>, mode: u32, v: Version, out: &mut LineBuf)
    ensures text { Appends out.old out.new (mode_text v (plan_of p.now) machine mode) }
    ensures short { IsShortMode v mode }
{
    match v {
        Version::One => write_number(mode, out),
        Version::Two => write_text(mode_name(p, machine, mode), out),
    }
}

/// ` switch X N C`.
fn write_switch(p: &BusPlan, machine: u32, mode: u32, code: Code, v: Version, out: &mut LineBuf)
    ensures text { Appends out.old out.new (spaced (codes "switch " ++ machine_name (plan_of p.now) machine ++ spaced (mode_text v (plan_of p.now) (Some machine) mode) ++ spaced (decimal code))) }
    ensures short_mode { IsShortMode v mode }
    ensures short_code { IsShortNumber code }
{
    write_text(b" switch ", out);
    write_text(machine_name(p, machine), out);
    write_text(b" ", out);
    write_mode_of(p, Some(machine), mode, v, out);
    write_spaced_number(u32::from(code), out);
}

/// ` mode X N`.
fn write_mode(p: &BusPlan, port: u32, mode: u32, v: Version, out: &mut LineBuf)
    ensures text { Appends out.old out.new (spaced (codes "mode " ++ mode_port_name (plan_of p.now) port ++ spaced (mode_text v (plan_of p.now) (machine_of_port (plan_of p.now) port) mode))) }
    ensures short { IsShortMode v mode }
{
    write_text(b" mode ", out);
    write_text(mode_port_name(p, port), out);
    write_text(b" ", out);
    write_mode_of(p, p.machine_of_port(port), mode, v, out);
}

/// The machine that an actor is.
fn machine_itself(actor: Actor) -> Option<u32>
    ensures { result ≡ machine_itself actor }
{
    match actor {
        Actor::Machine(machine) => Some(machine),
        _ => None,
    }
}

/// ` phase close N`, or ` phase` with the step's name.
fn write_phase(p: &BusPlan, actor: Actor, step: Step, v: Version, out: &mut LineBuf)
    ensures text { Appends out.old out.new (spaced (phase_text v (plan_of p.now) actor step)) }
    ensures short { IsShortStep v step }
{
    match step {
        Step::Close(mode) => {
            write_text(b" phase close ", out);
            write_mode_of(p, machine_itself(actor), mode, v, out);
        }
        Step::Exit => write_text(b" phase exit", out),
        Step::Transition => write_text(b" phase transition", out),
        Step::Entry => write_text(b" phase entry", out),
        Step::Stable => write_text(b" phase stable", out),
    }
}

/// Writes a space and what the actor did.
pub fn write_deed(p: &BusPlan, actor: Actor, deed: &Deed, v: Version, out: &mut LineBuf)
    requires { lists_sound (plan_of p.now) ≡ true }
    ensures text { Appends out.old out.new (spaced (deed_text v (plan_of p.now) actor deed.now)) }
    ensures short { IsShort v (plan_of p.now) deed.now }
{
    match deed {
        Deed::Tick => write_text(b" tick", out),
        Deed::Start {
            event,
            point,
            value,
        } => write_start(p, *event, *point, value, out),
        Deed::Admit { yes } => write_admit(*yes, out),
        Deed::Fetch { elem, value } => write_named_value(
            b" fetch ",
            elem_name(p, *elem),
            value,
            out,
        ),
        Deed::Write { elem, value } => write_written(elem_name(p, *elem), value, out),
        Deed::Read { elem, code, value } => write_taken(
            b" read ",
            elem_name(p, *elem),
            *code,
            value,
            out,
        ),
        Deed::Invalidate { elem } => write_invalidated(elem_name(p, *elem), out),
        Deed::IsUpdated { elem, yes } => write_updated(elem_name(p, *elem), *yes, out),
        Deed::Send { elem, value, code } => write_given(
            b" send ",
            elem_name(p, *elem),
            value,
            *code,
            out,
        ),
        Deed::Receive { elem, code, value } => write_taken(
            b" receive ",
            elem_name(p, *elem),
            *code,
            value,
            out,
        ),
        Deed::Ask { point, value, code } => write_given(
            b" ask ",
            point_name(p, *point),
            value,
            *code,
            out,
        ),
        Deed::Answer { point, code, value } => write_taken(
            b" answer ",
            point_name(p, *point),
            *code,
            value,
            out,
        ),
        Deed::TakeResult { point, code, value } => write_taken(
            b" result ",
            point_name(p, *point),
            *code,
            value,
            out,
        ),
        Deed::Return { code, value } => write_return(*code, value, out),
        Deed::Enter { area } => write_named(b" enter ", area_name(p, *area), out),
        Deed::Leave { area } => write_named(b" exit ", area_name(p, *area), out),
        Deed::Switch {
            machine,
            mode,
            code,
        } => write_switch(p, *machine, *mode, *code, v, out),
        Deed::Mode { port, mode } => write_mode(p, *port, *mode, v, out),
        Deed::Phase(step) => write_phase(p, actor, *step, v, out),
        Deed::Publish { elem, value } => write_named_value(
            b" publish ",
            elem_name(p, *elem),
            value,
            out,
        ),
        Deed::FetchAll { list, value } => write_fetched(p, *list, value, out),
        Deed::PublishAll {
            list,
            written,
            value,
        } => write_published(p, *list, *written, value, out),
        Deed::End => write_text(b" end", out),
    }
}
