//! Which calls an access allows.

ghost use Rattle.std.specs.Prelude.{◌≡◌, ◌++◌, IfOk, OnOk, option_map};
ghost use Rattle.std.specs.List.{flat_map};
ghost use Rattle.plan_text.specs.Calls.{all_seen, at_site, seen, seen_parts};
ghost use Rattle.plan_text.specs.Listing.{given, given_by};
ghost use Rattle.plan_text.specs.Targets.{area_name, at_item, item_name_at, name_of, of_area, of_runnable, of_variable, port_name, target_by, targets_of, variable_name};
ghost use Rattle.plan_definitions.specs.Ports.{item_name};
ghost use Rattle.plan_definitions.specs.Signatures.{kind_at};

use description_types::{Access, Component, InterfaceKind, Runnable, TypeTable};
use rte_text::Memory;
use runnable_lang::AccessKind;
use std::alloc::Global;

/// A call: its word, and the names in it.
#[derive(Clone, Copy)]
pub struct Call<'a> {
    pub word: &'a [u8],
    pub parts: Parts<'a>,
}

/// The names in a call.
#[derive(Clone, Copy)]
pub enum Parts<'a> {
    One(&'a [u8]),
    Two(&'a [u8], &'a [u8]),
    Three(&'a [u8], &'a [u8], &'a [u8]),
}

fn item_name(kind: &InterfaceKind, item: u32) -> &[u8]
    ensures { result.now ≡ item_name kind.now item }
{
    match kind {
        InterfaceKind::SenderReceiver(elements) => match elements.items().get(item as usize) {
            Some(element) => element.short_name.bytes(),
            None => &[],
        },
        InterfaceKind::ClientServer(operations) => match operations.items().get(item as usize) {
            Some(operation) => operation.short_name.bytes(),
            None => &[],
        },
        InterfaceKind::ModeSwitch(element) => element.short_name.bytes(),
    }
}

/// An access of a runnable, with what its positions refer to.
#[derive(Clone, Copy)]
struct Site<'a> {
    types: &'a TypeTable,
    component: &'a Component,
    runnable: &'a Runnable,
    access: &'a Access,
}

impl<'a> Site<'a> {
    fn port_name(&self) -> &'a [u8]
        ensures { result.now ≡ port_name self.now.component.now self.now.access.now.port }
    {
        match self.component.ports.items().get(self.access.port as usize) {
            Some(port) => port.short_name.bytes(),
            None => &[],
        }
    }

    fn kind(&self) -> Option<&'a InterfaceKind>
        ensures { option_map (λ kind. kind.now) result ≡ kind_at self.now.types.now self.now.component.now self.now.access.now.port }
    {
        let port = self.component.ports.items().get(self.access.port as usize)?;
        let interface = self.types.interfaces.items().get(port.interface as usize)?;
        Some(&interface.kind)
    }

    fn item_name(&self) -> &'a [u8]
        ensures { result.now ≡ item_name_at self.now.types.now self.now.component.now self.now.access.now.port self.now.access.now.item }
    {
        match self.kind() {
            Some(kind) => item_name(kind, self.access.item),
            None => &[],
        }
    }

    fn variable_name(&self) -> &'a [u8]
        ensures { result.now ≡ variable_name self.now.component.now self.now.access.now.item }
    {
        let variables = self.component.behavior.variables.items();
        match variables.get(self.access.item as usize) {
            Some(variable) => variable.short_name.bytes(),
            None => &[],
        }
    }

    fn area_name(&self) -> &'a [u8]
        ensures { result.now ≡ area_name self.now.component.now self.now.access.now.item }
    {
        let areas = self.component.behavior.exclusive_areas.items();
        match areas.get(self.access.item as usize) {
            Some(area) => area.bytes(),
            None => &[],
        }
    }

    fn at_item(&self, word: &'a [u8]) -> Call<'a>
        ensures { seen result ≡ at_site at_item self.now word.now }
    {
        let parts = Parts::Two(self.port_name(), self.item_name());
        Call { word, parts }
    }

    fn of_runnable(&self, word: &'a [u8]) -> Call<'a>
        ensures { seen result ≡ at_site of_runnable self.now word.now }
    {
        let runnable = self.runnable.short_name.bytes();
        let parts = Parts::Three(runnable, self.port_name(), self.item_name());
        Call { word, parts }
    }

    fn of_variable(&self, word: &'a [u8]) -> Call<'a>
        ensures { seen result ≡ at_site of_variable self.now word.now }
    {
        let parts = Parts::Two(self.runnable.short_name.bytes(), self.variable_name());
        Call { word, parts }
    }

    fn of_area(&self, word: &'a [u8]) -> Call<'a>
        ensures { seen result ≡ at_site of_area self.now word.now }
    {
        let parts = Parts::One(self.area_name());
        Call { word, parts }
    }

    /// The call of the access; of an area that by which it is entered.
    fn call(&self) -> Call<'a>
        ensures { seen result ≡ at_site target_by self.now self.now.access.now.kind }
    {
        match self.access.kind {
            AccessKind::Write => self.at_item(b"Rte_Write"),
            AccessKind::Read => self.at_item(b"Rte_Read"),
            AccessKind::Invalidate => self.at_item(b"Rte_Invalidate"),
            AccessKind::IsUpdated => self.at_item(b"Rte_IsUpdated"),
            AccessKind::Send => self.at_item(b"Rte_Send"),
            AccessKind::Receive => self.at_item(b"Rte_Receive"),
            AccessKind::IWrite => self.of_runnable(b"Rte_IWrite"),
            AccessKind::IRead => self.of_runnable(b"Rte_IRead"),
            AccessKind::IrvWrite => self.of_variable(b"Rte_IrvWrite"),
            AccessKind::IrvRead => self.of_variable(b"Rte_IrvRead"),
            AccessKind::IrvIWrite => self.of_variable(b"Rte_IrvIWrite"),
            AccessKind::IrvIRead => self.of_variable(b"Rte_IrvIRead"),
            AccessKind::Call | AccessKind::ACall => self.at_item(b"Rte_Call"),
            AccessKind::TakeResult => self.at_item(b"Rte_Result"),
            AccessKind::Switch => self.at_item(b"Rte_Switch"),
            AccessKind::Mode => self.at_item(b"Rte_Mode"),
            AccessKind::Enter => self.of_area(b"Rte_Enter"),
        }
    }

    fn add_calls(&self, calls: &mut Vec<Call<'a>>) -> Result<(), Memory>
        ensures { OnOk result (all_seen calls.new.items ≡ all_seen calls.old.items ++ at_site targets_of self.now) }
    {
        calls.push(self.call())?;
        if matches!(self.access.kind, AccessKind::Enter) {
            calls.push(self.of_area(b"Rte_Exit"))?;
        }
        Ok(())
    }
}

fn add_given_by<'a>(
    types: &'a TypeTable,
    component: &'a Component,
    runnable: &'a Runnable,
    calls: &mut Vec<Call<'a>>,
) -> Result<(), Memory>
    ensures { OnOk result (all_seen calls.new.items ≡ all_seen calls.old.items ++ given_by types.now component.now runnable.now) }
{
    for access in runnable.accesses.items() {
        let site = Site {
            types,
            component,
            runnable,
            access,
        };
        site.add_calls(calls)?;
    }
    Ok(())
}

/// The calls that each access of the component allows, in declared order.
pub fn given<'a>(
    alloc: Global,
    types: &'a TypeTable,
    component: &'a Component,
) -> Result<Vec<Call<'a>>, Memory>
    ensures { IfOk result (λ calls. all_seen calls.items ≡ given types.now component.now) }
{
    let mut calls = Vec::new(alloc);
    for runnable in component.behavior.runnables.items() {
        add_given_by(types, component, runnable, &mut calls)?;
    }
    Ok(calls)
}
