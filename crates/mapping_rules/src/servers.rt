//! Servers, and the tasks in which they run.

ghost use Rattle.std.specs.Prelude.{◌≡◌, ◌==◌, ◌||◌, ℕ, [], ◌++◌, IfOk, IsTrue, OnOk, Some, is_some, length, map, option_and_then, option_copied, slice_get, true};
ghost use Rattle.bus_semantics.specs.Common.{list_all, position_from, option_map_or};
ghost use Rattle.plan_definitions.specs.Common.{Access, end_at, provider_of, from, invokes, invocation_of, serves_outside, task_of_server, tasks_behind, waits_by};
ghost use Rattle.mapping_rules.specs.Listed.{invoked_at, invoked_in};

use crate::joined::{Outside, Providers};
use crate::mapped::Mapped;
use description_types::{Access, Component, Description, End, Event, EventKind, Flat};
use plan_numbers::Table;
use rte_text::Memory;
use runnable_lang::AccessKind;
use std::alloc::Global;

/// The events of a component by which its operations are invoked, by port and operation.
type Invocations = Table<(u32, u32), usize>;

/// Which event serves an operation of an instance, who calls it, and in which task it runs.
#[derive(Drop)]
pub struct Servers<'a> {
    pub mapped: &'a Mapped<'a>,
    outside: Outside<'a>,
    /// None if no component serves an operation: then no task waits for one.
    providers: Option<Providers<'a>>,
    /// For each component.
    invocations: Vec<Invocations>,
    ghost same_outside: { outside.f.now ≡ mapped.now.names.f.now },
    ghost same_joins: { option_map_or (λ p. p.f.now) providers mapped.now.names.f.now ≡ mapped.now.names.f.now },
    ghost unserved: { (is_some providers || list_all (λ t. length t.entries.items == 0) invocations.items) ≡ true },
    ghost are_invocations: { map (λ t. t.entries.items) invocations.items ≡ map invoked_in mapped.now.names.d.now.components },
}

fn push_invoked(
    list: &mut Vec<((u32, u32), usize)>,
    number: usize,
    kind: EventKind,
) -> Result<(), Memory>
    ensures { OnOk result (list.new.items ≡ list.old.items ++ invoked_at number kind) }
{
    if let EventKind::OperationInvoked { port, operation } = kind {
        list.push(((port, operation), number))?;
    }
    Ok(())
}

fn list_invoked(alloc: Global, events: &[Event]) -> Result<Vec<((u32, u32), usize)>, Memory>
    ensures { IfOk result (λ list. list.items ≡ from 0 (λ m e. invoked_at m e.kind) events.now) }
{
    let mut list = Vec::new(alloc);
    for (number, event) in events.iter().enumerate() {
        push_invoked(&mut list, number, event.kind)?;
    }
    Ok(list)
}

fn invocations_in(alloc: Global, component: &Component) -> Result<Invocations, Memory>
    ensures { IfOk result (λ table. table.entries.items ≡ invoked_in component.now) }
{
    let list = list_invoked(alloc, component.behavior.events.items())?;
    let table = Table::new(alloc, list)?;
    Ok(table)
}

fn invocations_of(alloc: Global, components: &[Component]) -> Result<Vec<Invocations>, Memory>
    ensures { IfOk result (λ list. map (λ t. t.entries.items) list.items ≡ map invoked_in components.now) }
{
    let mut list = Vec::new(alloc);
    for component in components {
        list.push(invocations_in(alloc, component)?)?;
    }
    Ok(list)
}

fn invocations_at(list: &[Invocations], number: u32) -> Option<&Invocations>
    ensures { option_copied result ≡ slice_get list.now number }
{
    list.get(number as usize)
}

fn is_empty(table: &Invocations) -> bool
    ensures { result ≡ (length table.now.entries.items == 0) }
{
    table.entries.is_empty()
}

fn serve_nothing(list: &[Invocations]) -> bool
    ensures { result ≡ list_all (λ t. length t.entries.items == 0) list.now }
{
    list.iter().all(|table| is_empty(table))
}

/// Who provides what is required, and None if no component serves an operation: then nobody asks for it.
fn providers_of<'a>(
    alloc: Global,
    f: &'a Flat,
    list: &[Invocations],
) -> Result<Option<Providers<'a>>, Memory>
    ensures f { IfOk result (λ found. option_map_or (λ p. p.f.now) found f.now ≡ f.now) }
    ensures unserved { IfOk result (λ found. (is_some found || list_all (λ t. length t.entries.items == 0) list.now) ≡ true) }
{
    if serve_nothing(list) {
        return Ok(None);
    }
    let providers = Providers::new(alloc, f)?;
    Ok(Some(providers))
}

impl<'a> Servers<'a> {
    /// The servers of a description and of its flat form, whose mapped events are these.
    pub fn new(alloc: Global, mapped: &'a Mapped<'a>) -> Result<Servers<'a>, Memory>
        ensures { IfOk result (λ servers. servers.mapped.now ≡ mapped.now) }
    {
        let f = mapped.names.f;
        let invocations = invocations_of(alloc, mapped.names.d.components.items())?;
        let providers = providers_of(alloc, f, invocations.as_slice())?;
        let outside = Outside::new(alloc, f)?;
        Ok(Servers {
            mapped,
            outside,
            providers,
            invocations,
        })
    }

    fn invocation_in(&self, component: u32, port: u32, operation: u32) -> Option<usize>
        ensures { result ≡ option_and_then (λ c. position_from (λ e. invokes port operation e.kind) 0 c.behavior.events) (slice_get self.now.mapped.now.names.d.now.components component) }
    {
        match invocations_at(self.invocations.as_slice(), component) {
            Some(table) => table.find((port, operation)),
            None => None,
        }
    }

    /// The first event of an instance by which an operation is invoked, by its position in the component.
    pub fn invocation_of(&self, instance: usize, port: u32, operation: u32) -> Option<usize>
        ensures { result ≡ invocation_of self.now.mapped.now.names.d.now self.now.mapped.now.names.f.now instance port operation }
    {
        let mapped = self.mapped;
        match mapped.names.f.instances.items().get(instance) {
            Some(found) => self.invocation_in(found.component, port, operation),
            None => None,
        }
    }

    /// Whether an operation that an instance provides is joined to the environment.
    pub fn serves_outside(&self, instance: usize, port: u32, operation: u32) -> bool
        ensures { result ≡ serves_outside self.now.mapped.now.names.f.now instance port operation }
    {
        self.outside.has(instance, port, operation)
    }

    fn task_of_server(&self, instance: usize, port: u32, operation: u32) -> &[u32]
        ensures { result.now ≡ task_of_server self.now.mapped.now.names.d.now self.now.mapped.now.names.f.now instance port operation }
    {
        match self.invocation_of(instance, port, operation) {
            Some(event) => self.mapped.tasks_of_event((instance, event)),
            None => &[],
        }
    }

    fn tasks_behind(&self, provided: End) -> &[u32]
        ensures { result.now ≡ tasks_behind self.now.mapped.now.names.d.now self.now.mapped.now.names.f.now provided }
    {
        match provided.instance {
            Some(instance) => {
                self.task_of_server(instance as usize, provided.port, provided.element)
            },
            None => &[],
        }
    }

    fn tasks_behind_any(&self, provided: Option<End>) -> &[u32]
        ensures { result.now ≡ option_map_or (tasks_behind self.now.mapped.now.names.d.now self.now.mapped.now.names.f.now) provided [] }
    {
        match provided {
            Some(provided) => self.tasks_behind(provided),
            None => &[],
        }
    }

    fn tasks_joined(&self, instance: usize, port: u32, item: u32) -> &[u32]
        ensures { result.now ≡ option_map_or (tasks_behind self.now.mapped.now.names.d.now self.now.mapped.now.names.f.now) (provider_of self.now.mapped.now.names.f.now.joins (end_at (Some instance) port item)) [] }
    {
        match &self.providers {
            Some(providers) => self.tasks_behind_any(providers.provider_of(instance, port, item)),
            None => &[],
        }
    }

    /// Whether no component serves an operation, so that no task waits for one.
    pub fn serve_nothing(&self) -> bool
        ensures { IsTrue result → (i : ℕ) (a : Access) → waits_by self.now.mapped.now.names.d.now self.now.mapped.now.names.f.now i a ≡ [] }
    {
        self.providers.is_none()
    }

    /// The tasks that a runnable of an instance waits for by an access: those of the queued server that it calls.
    pub fn waits_by(&self, instance: usize, access: Access) -> &[u32]
        ensures { result.now ≡ waits_by self.now.mapped.now.names.d.now self.now.mapped.now.names.f.now instance access }
    {
        match access.kind {
            AccessKind::Call => self.tasks_joined(instance, access.port, access.item),
            _ => &[],
        }
    }
}
