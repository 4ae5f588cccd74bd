//! Components, read from JSON.

ghost use Rattle.std.specs.Prelude.{◌≡◌, IfOk, map, option_map};
ghost use Rattle.std.specs.Arc.{arc_value};
ghost use Rattle.runnable_lang.specs.Trees.{program_tree};
ghost use Rattle.serde_json.specs.View.{view};
ghost use Rattle.declared_names.specs.Components.{component_names};
ghost use Rattle.component_model.specs.Programs.{behavior_reading, behavior_tree, component_reading, component_tree, first_names, runnable_reading, runnable_tree, runnables_in};
ghost use Rattle.program_reading.specs.Programs.{program_reading};
ghost use Rattle.declared_names.specs.Sizes.{AreSmall, HaveFewArguments, IsSmall};
ghost use Rattle.declared_names.specs.Values.{seen};

use crate::from_value::read_list;
use crate::servers::{Servers, first_names, servers_in};
use declared_names::{
    ComponentNames, InComponent, Scope, TypeNames, component_names, copy_at, flag_at, items_at,
    text_at, value_at,
};
use description_types::{Behavior, Component, Runnable};
use program_reading::read_program;
use rte_text::{Memory, Seq};
use runnable_lang::Program;
use serde_json::Value;
use std::alloc::Global;
use std::sync::Arc;

/// The program of the statements, which such an event starts.
fn started_by(
    alloc: Global,
    scope: &InComponent,
    event: Option<&Value>,
    statements: &Value,
) -> Result<Program, Memory>
    requires value { IsSmall (view statements.now) }
    requires arguments { HaveFewArguments scope.now.interfaces.now }
    ensures { IfOk result (λ p. program_tree p
        ≡ program_reading scope.now.interfaces.now scope.now.names.now (first_names scope.now.interfaces.now scope.now.names.now (option_map seen event.entry)) (view statements.now)) }
{
    let first = first_names(alloc, scope, event)?;
    read_program(alloc, scope, &first, statements)
}

/// The program of a runnable, to be shared by the plans of its instances.
fn program(
    alloc: Global,
    scope: &InComponent,
    servers: &Servers,
    value: &Value,
) -> Result<Arc<Program, Global>, Memory>
    requires value { IsSmall (view value.now) }
    requires arguments { HaveFewArguments scope.now.interfaces.now }
    ensures { IfOk result (λ p. program_tree (arc_value p)
        ≡ (runnable_reading scope.now.interfaces.now scope.now.names.now (map seen servers.now.events.items) servers.now.runnables (view value.now)).program) }
{
    let nothing = Value::Null;
    let event = servers.event_of(text_at(value, "shortName"));
    let program = started_by(alloc, scope, event, value_at(value, "program", &nothing))?;
    let shared = Arc::new(alloc, program)?;
    Ok(shared)
}

fn read_runnable(
    alloc: Global,
    scope: &InComponent,
    servers: &Servers,
    value: &Value,
) -> Result<Runnable, Memory>
    requires value { IsSmall (view value.now) }
    requires arguments { HaveFewArguments scope.now.interfaces.now }
    ensures { IfOk result (λ r. runnable_tree r
        ≡ runnable_reading scope.now.interfaces.now scope.now.names.now (map seen servers.now.events.items) servers.now.runnables (view value.now)) }
{
    let short_name = copy_at(alloc, value, "shortName")?;
    let accessed = items_at(value, "accesses");
    let listed = items_at(value, "coherent");
    let accesses = read_list(alloc, scope, accessed)?;
    let coherent = read_list(alloc, scope, listed)?;
    let program = program(alloc, scope, servers, value)?;
    Ok(Runnable {
        short_name,
        can_be_invoked_concurrently: flag_at(value, "canBeInvokedConcurrently"),
        accesses,
        coherent,
        program,
    })
}

fn read_runnables(
    alloc: Global,
    scope: &InComponent,
    servers: &Servers,
    values: &[Value],
) -> Result<Seq<Runnable>, Memory>
    requires values { AreSmall (map view values.now) }
    requires arguments { HaveFewArguments scope.now.interfaces.now }
    ensures { IfOk result (λ rs. map runnable_tree rs
        ≡ map (runnable_reading scope.now.interfaces.now scope.now.names.now (map seen servers.now.events.items) servers.now.runnables) (map view values.now)) }
{
    let mut list = Vec::new(alloc);
    for value in values {
        list.push(read_runnable(alloc, scope, servers, value)?)?;
    }
    Ok(Seq::of(list))
}

fn runnables(alloc: Global, scope: &InComponent, value: &Value) -> Result<Seq<Runnable>, Memory>
    requires value { IsSmall (view value.now) }
    requires arguments { HaveFewArguments scope.now.interfaces.now }
    ensures { IfOk result (λ rs. map runnable_tree rs
        ≡ runnables_in scope.now.interfaces.now scope.now.names.now (view value.now)) }
{
    let servers = servers_in(alloc, value)?;
    let runnables = read_runnables(alloc, scope, &servers, items_at(value, "runnables"));
    drop(servers);
    runnables
}

fn read_behavior(
    alloc: Global,
    types: &TypeNames,
    scope: &InComponent,
    value: &Value,
) -> Result<Behavior, Memory>
    requires value { IsSmall (view value.now) }
    requires arguments { HaveFewArguments scope.now.interfaces.now }
    ensures { IfOk result (λ b. behavior_tree b ≡ behavior_reading types.now scope.now.interfaces.now scope.now.names.now (view value.now)) }
{
    let areas = items_at(value, "exclusiveAreas");
    let declared = items_at(value, "variables");
    let starting = items_at(value, "events");
    let exclusive_areas = read_list(alloc, &(), areas)?;
    let variables = read_list(alloc, types, declared)?;
    let runnables = runnables(alloc, scope, value)?;
    let events = read_list(alloc, scope, starting)?;
    Ok(Behavior {
        exclusive_areas,
        variables,
        runnables,
        events,
    })
}

/// The behavior of a component with these names.
fn behavior_with(
    alloc: Global,
    scope: &Scope,
    names: &ComponentNames,
    inner: &Value,
) -> Result<Behavior, Memory>
    requires inner { IsSmall (view inner.now) }
    requires arguments { HaveFewArguments scope.now.interfaces }
    ensures { IfOk result (λ b. behavior_tree b ≡ behavior_reading scope.now.types scope.now.interfaces names.now (view inner.now)) }
{
    let component = InComponent {
        interfaces: &scope.interfaces,
        names,
    };
    read_behavior(alloc, &scope.types, &component, inner)
}

fn behavior(alloc: Global, scope: &Scope, value: &Value, inner: &Value) -> Result<Behavior, Memory>
    requires value { IsSmall (view value.now) }
    requires inner { IsSmall (view inner.now) }
    requires arguments { HaveFewArguments scope.now.interfaces }
    ensures { IfOk result (λ b. behavior_tree b
        ≡ behavior_reading scope.now.types scope.now.interfaces (component_names scope.now.interfaces (view value.now) (view inner.now)) (view inner.now)) }
{
    let names = component_names(alloc, &scope.interfaces, value, inner)?;
    let behavior = behavior_with(alloc, scope, &names, inner);
    drop(names);
    behavior
}

/// The behavior that the value has, or one of nothing.
fn behavior_of(alloc: Global, scope: &Scope, value: &Value) -> Result<Behavior, Memory>
    requires value { IsSmall (view value.now) }
    requires arguments { HaveFewArguments scope.now.interfaces }
    ensures { IfOk result (λ b. behavior_tree b ≡ (component_reading scope.now (view value.now)).behavior) }
{
    let nothing = Value::Null;
    behavior(alloc, scope, value, value_at(value, "behavior", &nothing))
}

/// The component that the value is.
pub fn read_component(alloc: Global, scope: &Scope, value: &Value) -> Result<Component, Memory>
    requires value { IsSmall (view value.now) }
    requires arguments { HaveFewArguments scope.now.interfaces }
    ensures { IfOk result (λ c. component_tree c ≡ component_reading scope.now (view value.now)) }
{
    let short_name = copy_at(alloc, value, "shortName")?;
    let ports = read_list(alloc, &scope.interfaces, items_at(value, "ports"))?;
    let behavior = behavior_of(alloc, scope, value)?;
    Ok(Component {
        short_name,
        ports,
        behavior,
    })
}
