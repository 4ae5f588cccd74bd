//! The types of a description, read from JSON.

ghost use Rattle.std.specs.Prelude.{◌≡◌, IfOk, map};
ghost use Rattle.serde_json.specs.View.{view};
ghost use Rattle.component_model.specs.Types.{argument_reading, base_type_reading, data_element_reading, data_type_reading, direction_reading, error_reading, interface_kind_reading};
ghost use Rattle.component_model.specs.Types.{interface_reading, mode_element_reading, mode_group_reading, operation_reading, policy_reading, types_reading};
ghost use Rattle.declared_names.specs.Sizes.{AreSmall, IsSmall};
ghost use Rattle.declared_names.specs.Values.{text_in};

use crate::from_value::{FromValue, read_list};
use declared_names::{
    TypeNames, copy_at, declared_texts, items_at, small_number_at, text_at, text_at_in, text_in,
    word_at,
};
use description_types::{
    ApplicationError, Argument, BaseType, DataElement, DataType, Direction, Interface,
    InterfaceKind, ModeElement, ModeGroup, Operation, SwImplPolicy, TypeTable,
};
use rte_text::{Memory, Seq, Text};
use rte_value::Limits;
use serde_json::Value;
use std::alloc::Global;

impl FromValue<()> for Text {
    ghost reading = { λ _ d. text_in d };

    fn from_value(alloc: Global, _scope: &(), value: &Value) -> Result<Text, Memory> {
        Text::new(alloc, text_in(value).as_bytes())
    }
}

fn base_type_of(name: &str) -> BaseType
    ensures { result ≡ base_type_reading name.now }
{
    if name == "boolean" {
        BaseType::Boolean
    } else if name == "uint8" {
        BaseType::Uint8
    } else if name == "uint16" {
        BaseType::Uint16
    } else if name == "uint32" {
        BaseType::Uint32
    } else if name == "sint8" {
        BaseType::Sint8
    } else if name == "sint16" {
        BaseType::Sint16
    } else {
        BaseType::Sint32
    }
}

impl FromValue<()> for DataType {
    ghost reading = { λ _ d. data_type_reading d };

    fn from_value(_alloc: Global, _scope: &(), value: &Value) -> Result<DataType, Memory> {
        let (low, high) = (word_at(value, "lower"), word_at(value, "upper"));
        Ok(DataType {
            base: base_type_of(text_at(value, "baseType")),
            limits: Limits { low, high },
            words: small_number_at(value, "words"),
        })
    }
}

fn initial_mode(alloc: Global, value: &Value) -> Result<u32, Memory>
    requires { IsSmall (view value.now) }
    ensures { IfOk result (λ n. n ≡ (mode_group_reading (view value.now)).initial_mode) }
{
    let modes = declared_texts(alloc, value, "modes")?;
    Ok(modes.find(text_at(value, "initialMode")))
}

fn read_group(alloc: Global, value: &Value) -> Result<ModeGroup, Memory>
    requires { IsSmall (view value.now) }
    ensures { IfOk result (λ g. g ≡ mode_group_reading (view value.now)) }
{
    let short_name = copy_at(alloc, value, "shortName")?;
    let modes = read_list(alloc, &(), items_at(value, "modes"))?;
    let initial_mode = initial_mode(alloc, value)?;
    Ok(ModeGroup {
        short_name,
        modes,
        initial_mode,
    })
}

fn read_groups(alloc: Global, values: &[Value]) -> Result<Seq<ModeGroup>, Memory>
    requires { AreSmall (map view values.now) }
    ensures { IfOk result (λ gs. gs ≡ map mode_group_reading (map view values.now)) }
{
    let mut list = Vec::new(alloc);
    for value in values {
        list.push(read_group(alloc, value)?)?;
    }
    Ok(Seq::of(list))
}

fn policy_of(word: &str) -> SwImplPolicy
    ensures { result ≡ policy_reading word.now }
{
    if word == "queued" {
        SwImplPolicy::Queued
    } else {
        SwImplPolicy::Standard
    }
}

impl<'a> FromValue<TypeNames<'a>> for DataElement {
    ghost reading = { data_element_reading };

    fn from_value(
        alloc: Global,
        names: &TypeNames<'a>,
        value: &Value,
    ) -> Result<DataElement, Memory> {
        let short_name = copy_at(alloc, value, "shortName")?;
        Ok(DataElement {
            short_name,
            of_type: names.data_types.find(text_at(value, "type")),
            sw_impl_policy: policy_of(text_at(value, "swImplPolicy")),
        })
    }
}

fn direction_of(word: &str) -> Direction
    ensures { result ≡ direction_reading word.now }
{
    if word == "out" {
        Direction::Out
    } else {
        Direction::In
    }
}

impl<'a> FromValue<TypeNames<'a>> for Argument {
    ghost reading = { argument_reading };

    fn from_value(alloc: Global, names: &TypeNames<'a>, value: &Value) -> Result<Argument, Memory> {
        let short_name = copy_at(alloc, value, "shortName")?;
        Ok(Argument {
            short_name,
            of_type: names.data_types.find(text_at(value, "type")),
            direction: direction_of(text_at(value, "direction")),
        })
    }
}

impl FromValue<()> for ApplicationError {
    ghost reading = { λ _ d. error_reading d };

    fn from_value(alloc: Global, _scope: &(), value: &Value) -> Result<ApplicationError, Memory> {
        let short_name = copy_at(alloc, value, "shortName")?;
        Ok(ApplicationError {
            short_name,
            code: small_number_at(value, "code"),
        })
    }
}

impl<'a> FromValue<TypeNames<'a>> for Operation {
    ghost reading = { operation_reading };

    fn from_value(
        alloc: Global,
        names: &TypeNames<'a>,
        value: &Value,
    ) -> Result<Operation, Memory> {
        let short_name = copy_at(alloc, value, "shortName")?;
        let arguments = read_list(alloc, names, items_at(value, "arguments"))?;
        let errors = read_list(alloc, &(), items_at(value, "errors"))?;
        Ok(Operation {
            short_name,
            arguments,
            errors,
        })
    }
}

fn mode_element(alloc: Global, names: &TypeNames, value: &Value) -> Result<ModeElement, Memory>
    ensures { IfOk result (λ e. e ≡ mode_element_reading names.now (view value.now)) }
{
    let short_name = Text::new(
        alloc,
        text_at_in(value, "modeGroup", "shortName").as_bytes(),
    )?;
    Ok(ModeElement {
        short_name,
        of_type: names
            .mode_groups
            .find(text_at_in(value, "modeGroup", "type")),
    })
}

fn interface_kind(
    alloc: Global,
    names: &TypeNames,
    kind: &str,
    value: &Value,
) -> Result<InterfaceKind, Memory>
    ensures { IfOk result (λ k. k ≡ interface_kind_reading names.now kind.now (view value.now)) }
{
    if kind == "ClientServerInterface" {
        let operations = read_list(alloc, names, items_at(value, "operations"))?;
        Ok(InterfaceKind::ClientServer(operations))
    } else if kind == "ModeSwitchInterface" {
        let element = mode_element(alloc, names, value)?;
        Ok(InterfaceKind::ModeSwitch(element))
    } else {
        let elements = read_list(alloc, names, items_at(value, "dataElements"))?;
        Ok(InterfaceKind::SenderReceiver(elements))
    }
}

impl<'a> FromValue<TypeNames<'a>> for Interface {
    ghost reading = { interface_reading };

    fn from_value(
        alloc: Global,
        names: &TypeNames<'a>,
        value: &Value,
    ) -> Result<Interface, Memory> {
        let short_name = copy_at(alloc, value, "shortName")?;
        let kind = interface_kind(alloc, names, text_at(value, "kind"), value)?;
        Ok(Interface { short_name, kind })
    }
}

/// The types of the description.
pub fn read_types(alloc: Global, names: &TypeNames, value: &Value) -> Result<TypeTable, Memory>
    requires { IsSmall (view value.now) }
    ensures { IfOk result (λ t. t ≡ types_reading names.now (view value.now)) }
{
    let groups = items_at(value, "modeGroups");
    let data_types = read_list(alloc, &(), items_at(value, "dataTypes"))?;
    let mode_groups = read_groups(alloc, groups)?;
    let interfaces = read_list(alloc, names, items_at(value, "interfaces"))?;
    Ok(TypeTable {
        data_types,
        mode_groups,
        interfaces,
    })
}
