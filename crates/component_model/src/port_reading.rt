//! Ports, read from JSON.

ghost use Rattle.std.specs.Prelude.{◌≡◌, IfOk};
ghost use Rattle.serde_json.specs.View.{view};
ghost use Rattle.component_model.specs.Ports.{com_spec_reading, init_value_reading, port_kind_reading, port_reading};
ghost use Rattle.declared_names.specs.Values.{word_in};

use crate::from_value::{FromValue, read_list};
use declared_names::{
    InterfaceNames, Positions, copy_at, find_at, flag_at, items_at, items_in, number_at, text_at,
    word_in,
};
use description_types::{ComSpec, Port, PortKind};
use rte_text::{Memory, Seq};
use rte_value::Word;
use serde_json::Value;
use std::alloc::Global;

impl FromValue<()> for Word {
    ghost reading = { λ _ d. word_in d };

    fn from_value(_alloc: Global, _scope: &(), value: &Value) -> Result<Word, Memory> {
        Ok(word_in(value))
    }
}

/// The initial value, if there is one.
pub fn init_value(alloc: Global, value: &Value) -> Result<Option<Seq<Word>>, Memory>
    ensures { IfOk result (λ words. words ≡ init_value_reading (view value.now)) }
{
    match value.get("initValue") {
        Some(words) => {
            let words = read_list(alloc, &(), items_in(words))?;
            Ok(Some(words))
        }
        None => Ok(None),
    }
}

/// A port's interface, with the items of all interfaces.
#[derive(Clone, Copy)]
pub struct AtInterface<'s, 'a> {
    pub items: &'s [Positions<'a>],
    pub interface: u32,
}

impl<'s, 'a> FromValue<AtInterface<'s, 'a>> for ComSpec {
    ghost reading = { λ at d. com_spec_reading at.items.now at.interface d };

    fn from_value(
        alloc: Global,
        at: &AtInterface<'s, 'a>,
        value: &Value,
    ) -> Result<ComSpec, Memory> {
        let init_value = init_value(alloc, value)?;
        Ok(ComSpec {
            element: find_at(at.items, at.interface, text_at(value, "element")),
            init_value,
            handle_never_received: flag_at(value, "handleNeverReceived"),
            queue_length: number_at(value, "queueLength", 1),
            supports_asynchronous_mode_switch: flag_at(value, "supportsAsynchronousModeSwitch"),
        })
    }
}

fn port_kind_of(kind: &str) -> PortKind
    ensures { result ≡ port_kind_reading kind.now }
{
    if kind == "RPortPrototype" {
        PortKind::Required
    } else {
        PortKind::Provided
    }
}

impl<'a> FromValue<InterfaceNames<'a>> for Port {
    ghost reading = { port_reading };

    fn from_value(
        alloc: Global,
        names: &InterfaceNames<'a>,
        value: &Value,
    ) -> Result<Port, Memory> {
        let interface = names.interfaces.find(text_at(value, "interface"));
        let items = names.items.items();
        let short_name = copy_at(alloc, value, "shortName")?;
        let at = AtInterface { items, interface };
        let com_specs = read_list(alloc, &at, items_at(value, "comSpecs"))?;
        Ok(Port {
            kind: port_kind_of(text_at(value, "kind")),
            short_name,
            interface,
            com_specs,
        })
    }
}
