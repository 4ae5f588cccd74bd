//! Compositions, read from JSON.

ghost use Rattle.std.specs.Prelude.{◌≡◌, IfOk, map, option_map};
ghost use Rattle.serde_json.specs.View.{view};
ghost use Rattle.component_model.specs.Compositions.{composition_reading, connector_reading, connectors_between, ends_in, inner_port_reading, port_in_type, prototype_reading};
ghost use Rattle.component_model.specs.Compositions.{prototype_type_reading, type_named};
ghost use Rattle.declared_names.specs.Sizes.{AreSmall, IsSmall};

use crate::from_value::{FromValue, read_list};
use declared_names::{
    Positions, PrototypeNames, Scope, copy_at, declared, find_at, items_at, text_at,
    text_of_part_at,
};
use description_types::{Composition, Connector, InnerPort, Prototype, PrototypeType};
use rte_text::{Memory, Seq};
use serde_json::Value;
use std::alloc::Global;

fn type_named(names: &PrototypeNames, name: &str) -> PrototypeType
    ensures { result ≡ type_named names.now name.now }
{
    let component = names.components.find(name);
    if component < names.components.count() {
        PrototypeType::Component(component)
    } else {
        PrototypeType::Composition(names.compositions.find(name))
    }
}

impl<'a> FromValue<PrototypeNames<'a>> for PrototypeType {
    ghost reading = { prototype_type_reading };

    fn from_value(
        _alloc: Global,
        names: &PrototypeNames<'a>,
        value: &Value,
    ) -> Result<PrototypeType, Memory> {
        Ok(type_named(names, text_at(value, "type")))
    }
}

impl<'a> FromValue<PrototypeNames<'a>> for Prototype {
    ghost reading = { prototype_reading };

    fn from_value(
        alloc: Global,
        names: &PrototypeNames<'a>,
        value: &Value,
    ) -> Result<Prototype, Memory> {
        let short_name = copy_at(alloc, value, "shortName")?;
        Ok(Prototype {
            short_name,
            of_type: type_named(names, text_at(value, "type")),
        })
    }
}

/// What the connectors of a composition name: its prototypes, with their types, and its own ports.
#[derive(Drop)]
pub struct Ends<'a> {
    pub prototypes: Positions<'a>,
    pub types: Seq<PrototypeType>,
    pub outer: Positions<'a>,
}

fn ends_in<'a>(alloc: Global, names: &PrototypeNames, value: &'a Value) -> Result<Ends<'a>, Memory>
    requires { IsSmall (view value.now) }
    ensures { IfOk result (λ ends. ends ≡ ends_in names.now (view value.now)) }
{
    let types = read_list(alloc, names, items_at(value, "prototypes"))?;
    let prototypes = declared(alloc, value, "prototypes")?;
    match declared(alloc, value, "ports") {
        Ok(outer) => Ok(Ends {
            prototypes,
            types,
            outer,
        }),
        Err(memory) => {
            drop(prototypes);
            drop(types);
            Err(memory)
        }
    }
}

/// A composition's ends, with the ports of all types.
#[derive(Clone, Copy)]
pub struct InComposition<'s, 'a> {
    names: &'s PrototypeNames<'a>,
    ends: &'s Ends<'a>,
}

fn port_in_type(names: &PrototypeNames, found: Option<PrototypeType>, port: &str) -> u32
    ensures { result ≡ port_in_type names.now found port.now }
{
    match found {
        None => 0,
        Some(PrototypeType::Component(c)) => find_at(names.component_ports.items(), c, port),
        Some(PrototypeType::Composition(c)) => find_at(names.composition_ports.items(), c, port),
    }
}

impl InComposition<'_, '_> {
    fn inner_port(&self, value: &Value, key: &str) -> InnerPort
        ensures { result ≡ inner_port_reading self.now.names.now self.now.ends.now key.now (view value.now) }
    {
        let prototype = self.ends.prototypes.find(text_of_part_at(value, key, 0));
        let found = self.ends.types.items().get(prototype as usize).copied();
        let port = port_in_type(self.names, found, text_of_part_at(value, key, 1));
        InnerPort { prototype, port }
    }
}

impl<'s, 'a> FromValue<InComposition<'s, 'a>> for Connector {
    ghost reading = { λ c d. connector_reading c.names.now c.ends.now d };

    fn from_value(
        _alloc: Global,
        scope: &InComposition<'s, 'a>,
        value: &Value,
    ) -> Result<Connector, Memory> {
        if text_at(value, "kind") == "DelegationSwConnector" {
            Ok(Connector::Delegation {
                inner: scope.inner_port(value, "inner"),
                outer: scope.ends.outer.find(text_at(value, "outer")),
            })
        } else {
            Ok(Connector::Assembly {
                provider: scope.inner_port(value, "provider"),
                requester: scope.inner_port(value, "requester"),
            })
        }
    }
}

fn connectors_between(
    alloc: Global,
    names: &PrototypeNames,
    ends: &Ends,
    value: &Value,
) -> Result<Seq<Connector>, Memory>
    ensures { IfOk result (λ cs. cs ≡ connectors_between names.now ends.now (view value.now)) }
{
    let scope = InComposition { names, ends };
    let connectors = read_list(alloc, &scope, items_at(value, "connectors"))?;
    Ok(connectors)
}

fn connectors(
    alloc: Global,
    names: &PrototypeNames,
    value: &Value,
) -> Result<Seq<Connector>, Memory>
    requires { IsSmall (view value.now) }
    ensures { IfOk result (λ cs. cs ≡ connectors_between names.now (ends_in names.now (view value.now)) (view value.now)) }
{
    let ends = ends_in(alloc, names, value)?;
    let connectors = connectors_between(alloc, names, &ends, value);
    drop(ends);
    connectors
}

fn read_composition(alloc: Global, scope: &Scope, value: &Value) -> Result<Composition, Memory>
    requires { IsSmall (view value.now) }
    ensures { IfOk result (λ c. c ≡ composition_reading scope.now.interfaces scope.now.prototypes (view value.now)) }
{
    let short_name = copy_at(alloc, value, "shortName")?;
    let ports = read_list(alloc, &scope.interfaces, items_at(value, "ports"))?;
    let prototypes = read_list(alloc, &scope.prototypes, items_at(value, "prototypes"))?;
    let connectors = connectors(alloc, &scope.prototypes, value)?;
    Ok(Composition {
        short_name,
        ports,
        prototypes,
        connectors,
    })
}

/// The compositions that the values are.
pub fn read_compositions(
    alloc: Global,
    scope: &Scope,
    values: &[Value],
) -> Result<Seq<Composition>, Memory>
    requires { AreSmall (map view values.now) }
    ensures { IfOk result (λ cs. cs ≡ map (composition_reading scope.now.interfaces scope.now.prototypes) (map view values.now)) }
{
    let mut list = Vec::new(alloc);
    for value in values {
        list.push(read_composition(alloc, scope, value)?)?;
    }
    Ok(Seq::of(list))
}
