//! What a component does, read from JSON, but for its programs.

ghost use Rattle.std.specs.Prelude.{◌≡◌, IfOk, codes, option_map};
ghost use Rattle.serde_json.specs.Find.{get};
ghost use Rattle.serde_json.specs.View.{view};
ghost use Rattle.declared_names.specs.Components.{mode_in};
ghost use Rattle.component_model.specs.Components.{access_reading, activation_reading, coherent_reading, disabling_modes_reading, disabling_reading, event_kind_reading, event_reading};
ghost use Rattle.component_model.specs.Components.{item_of_access, item_of_event, mode_of_event, pair_reading, port_of_access, port_of_event, variable_reading};
ghost use Rattle.declared_names.specs.Values.{text_in};

use crate::from_value::{FromValue, read_list};
use crate::port_reading::init_value;
use declared_names::{
    InComponent, TypeNames, copy_at, items_at, items_in, number_at, text_at, text_in, text_of_part,
    text_of_part_at,
};
use description_types::{
    Access, DisabledInModes, Event, EventKind, ItemPair, ModeActivation, Variable,
};
use program_reading::access_kind_of;
use rte_text::{Memory, Seq};
use runnable_lang::AccessKind;
use serde_json::Value;
use std::alloc::Global;

impl<'a> FromValue<TypeNames<'a>> for Variable {
    ghost reading = { variable_reading };

    fn from_value(alloc: Global, types: &TypeNames<'a>, value: &Value) -> Result<Variable, Memory> {
        let short_name = copy_at(alloc, value, "shortName")?;
        let init_value = init_value(alloc, value)?;
        Ok(Variable {
            short_name,
            of_type: types.data_types.find(text_at(value, "type")),
            init_value,
        })
    }
}

fn port_of_access(scope: &InComponent, kind: AccessKind, value: &Value) -> u32
    ensures { result ≡ port_of_access scope.now.names.now kind (view value.now) }
{
    match kind {
        AccessKind::IrvWrite
        | AccessKind::IrvRead
        | AccessKind::IrvIWrite
        | AccessKind::IrvIRead
        | AccessKind::Enter => 0,
        _ => scope.port(text_of_part(value, 1)),
    }
}

fn item_of_access(scope: &InComponent, kind: AccessKind, value: &Value) -> u32
    ensures { result ≡ item_of_access scope.now.interfaces.now scope.now.names.now kind (view value.now) }
{
    match kind {
        AccessKind::IrvWrite | AccessKind::IrvRead | AccessKind::IrvIWrite | AccessKind::IrvIRead =>
            scope.names.variables.find(text_of_part(value, 1)),
        AccessKind::Enter => scope.names.areas.find(text_of_part(value, 1)),
        AccessKind::Switch | AccessKind::Mode => 0,
        _ => scope.item(scope.port(text_of_part(value, 1)), text_of_part(value, 2)),
    }
}

impl<'s, 'a> FromValue<InComponent<'s, 'a>> for Access {
    ghost reading = { λ s d. access_reading s.interfaces.now s.names.now d };

    fn from_value(
        _alloc: Global,
        scope: &InComponent<'s, 'a>,
        value: &Value,
    ) -> Result<Access, Memory> {
        let kind = access_kind_of(text_of_part(value, 0));
        Ok(Access {
            kind,
            port: port_of_access(scope, kind, value),
            item: item_of_access(scope, kind, value),
        })
    }
}

impl<'s, 'a> FromValue<InComponent<'s, 'a>> for ItemPair {
    ghost reading = { λ s d. pair_reading s.interfaces.now s.names.now d };

    fn from_value(
        _alloc: Global,
        scope: &InComponent<'s, 'a>,
        value: &Value,
    ) -> Result<ItemPair, Memory> {
        let port = scope.port(text_of_part(value, 0));
        Ok(ItemPair {
            port,
            item: scope.item(port, text_of_part(value, 1)),
        })
    }
}

impl<'s, 'a> FromValue<InComponent<'s, 'a>> for Seq<ItemPair> {
    ghost reading = { λ s d. coherent_reading s.interfaces.now s.names.now d };

    fn from_value(
        alloc: Global,
        scope: &InComponent<'s, 'a>,
        value: &Value,
    ) -> Result<Seq<ItemPair>, Memory> {
        read_list(alloc, scope, items_in(value))
    }
}

fn port_of_event(scope: &InComponent, value: &Value) -> u32
    ensures { result ≡ port_of_event scope.now.names.now (view value.now) }
{
    scope.port(text_at(value, "port"))
}

fn item_of_event(scope: &InComponent, value: &Value, key: &str) -> u32
    ensures { result ≡ item_of_event scope.now.interfaces.now scope.now.names.now key.now (view value.now) }
{
    scope.item(port_of_event(scope, value), text_at(value, key))
}

fn mode_of_event(scope: &InComponent, value: &Value, part: usize) -> u32
    ensures { result ≡ mode_of_event scope.now.interfaces.now scope.now.names.now part (view value.now) }
{
    scope.mode(
        port_of_event(scope, value),
        text_of_part_at(value, "modes", part),
    )
}

fn activation_of(scope: &InComponent, word: &str, value: &Value) -> ModeActivation
    ensures { result ≡ activation_reading scope.now.interfaces.now scope.now.names.now word.now (view value.now) }
{
    if word == "onEntry" {
        ModeActivation::OnEntry(mode_of_event(scope, value, 0))
    } else if word == "onExit" {
        ModeActivation::OnExit(mode_of_event(scope, value, 0))
    } else {
        ModeActivation::OnTransition(
            mode_of_event(scope, value, 0),
            mode_of_event(scope, value, 1),
        )
    }
}

fn event_kind_of(scope: &InComponent, word: &str, value: &Value) -> EventKind
    ensures { result ≡ event_kind_reading scope.now.interfaces.now scope.now.names.now word.now (view value.now) }
{
    let port = port_of_event(scope, value);
    if word == "TimingEvent" {
        EventKind::Timing {
            period: number_at(value, "period", 0),
        }
    } else if word == "InitEvent" {
        EventKind::Init
    } else if word == "DataReceivedEvent" {
        EventKind::DataReceived {
            port,
            element: item_of_event(scope, value, "element"),
        }
    } else if word == "OperationInvokedEvent" {
        EventKind::OperationInvoked {
            port,
            operation: item_of_event(scope, value, "operation"),
        }
    } else if word == "AsynchronousServerCallReturnsEvent" {
        EventKind::CallReturns {
            port,
            operation: item_of_event(scope, value, "operation"),
        }
    } else if word == "SwcModeSwitchEvent" {
        EventKind::ModeSwitch {
            port,
            activation: activation_of(scope, text_at(value, "activation"), value),
        }
    } else {
        EventKind::ModeSwitchedAck { port }
    }
}

/// The modes of a port, within a component.
#[derive(Clone, Copy)]
pub struct ModesOfPort<'s, 'a> {
    scope: InComponent<'s, 'a>,
    port: u32,
}

impl<'s, 'a> FromValue<ModesOfPort<'s, 'a>> for u32 {
    ghost reading = { λ m d. mode_in m.scope.interfaces.now m.scope.names.now m.port (text_in d) };

    fn from_value(
        _alloc: Global,
        modes: &ModesOfPort<'s, 'a>,
        value: &Value,
    ) -> Result<u32, Memory> {
        Ok(modes.scope.mode(modes.port, text_in(value)))
    }
}

fn disabling(alloc: Global, scope: &InComponent, value: &Value) -> Result<DisabledInModes, Memory>
    ensures { IfOk result (λ m. m ≡ disabling_reading scope.now.interfaces.now scope.now.names.now (view value.now)) }
{
    let port = port_of_event(scope, value);
    let of_port = ModesOfPort {
        scope: *scope,
        port,
    };
    let modes = read_list(alloc, &of_port, items_at(value, "modes"))?;
    Ok(DisabledInModes { port, modes })
}

fn disabled_in_modes(
    alloc: Global,
    scope: &InComponent,
    value: &Value,
) -> Result<Option<DisabledInModes>, Memory>
    ensures { IfOk result (λ m. m ≡ option_map (disabling_reading scope.now.interfaces.now scope.now.names.now) (get (codes "disabledInModes") (view value.now))) }
{
    match value.get("disabledInModes") {
        Some(modes) => {
            let modes = disabling(alloc, scope, modes)?;
            Ok(Some(modes))
        }
        None => Ok(None),
    }
}

impl<'s, 'a> FromValue<InComponent<'s, 'a>> for Event {
    ghost reading = { λ s d. event_reading s.interfaces.now s.names.now d };

    fn from_value(
        alloc: Global,
        scope: &InComponent<'s, 'a>,
        value: &Value,
    ) -> Result<Event, Memory> {
        let short_name = copy_at(alloc, value, "shortName")?;
        let disabled_in_modes = disabled_in_modes(alloc, scope, value)?;
        Ok(Event {
            short_name,
            runnable: scope.names.runnables.find(text_at(value, "runnable")),
            kind: event_kind_of(scope, text_at(value, "kind"), value),
            disabled_in_modes,
        })
    }
}
