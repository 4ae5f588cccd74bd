//! Which inner ports each outer port is delegated to.

ghost use Rattle.std.specs.Prelude.{◌≡◌, ◌<◌, ◌==◌, ◌++◌, [], ◌∷◌, ℕ, IfOk, OnOk, length, if◌then◌else◌};
ghost use Rattle.description_types.specs.declared.description.PrototypeType.TheVariants as of_type;
ghost use Rattle.description_types.specs.Connectors.{ports_of};
ghost use Rattle.composition_tables.specs.Ends.{delegated, inner_ports};
ghost use Rattle.std.specs.Option.{option_to_list};
ghost use Rattle.composition_tables.specs.Trees.{ports_at, IsDelegated};

use crate::connectors::{connectors_of, lets_join, outer_ports};
use description_types::{Connector, Description, InnerPort};
use rte_text::Memory;
use std::alloc::Global;

fn no_ports(alloc: Global, count: usize) -> Result<Vec<Vec<InnerPort>>, Memory>
    ensures long { IfOk result (λ by_port. length by_port.items ≡ count) }
    ensures empty { IfOk result (λ by_port. (port : ℕ) → ports_at by_port.items port ≡ []) }
{
    let mut by_port = Vec::new(alloc);
    for _ in 0..count {
        by_port.push(Vec::new(alloc))?;
    }
    Ok(by_port)
}

fn add_port(by_port: &mut Vec<Vec<InnerPort>>, outer: u32, inner: InnerPort) -> Result<(), Memory>
    requires { outer < length by_port.old.items }
    ensures long { length by_port.new.items ≡ length by_port.old.items }
    ensures added { OnOk result ((port : ℕ) → ports_at by_port.new.items port ≡ (if outer == port then ports_at by_port.old.items port ++ inner ∷ [] else ports_at by_port.old.items port)) }
{
    by_port[outer as usize].push(inner)?;
    Ok(())
}

fn add_delegation(
    d: &Description,
    composition: usize,
    connector: Connector,
    by_port: &mut Vec<Vec<InnerPort>>,
) -> Result<(), Memory>
    requires { length by_port.old.items ≡ length (ports_of d.now (of_type.Composition composition)) }
    ensures long { length by_port.new.items ≡ length by_port.old.items }
    ensures added { OnOk result ((port : ℕ) → ports_at by_port.new.items port ≡ ports_at by_port.old.items port ++ option_to_list (delegated d.now composition port connector)) }
{
    if !lets_join(d, composition, connector) {
        return Ok(());
    }
    match connector {
        Connector::Delegation { inner, outer } => add_port(by_port, outer, inner),
        Connector::Assembly { .. } => Ok(()),
    }
}

fn delegations_in(
    alloc: Global,
    d: &Description,
    composition: usize,
) -> Result<Vec<Vec<InnerPort>>, Memory>
    ensures { IfOk result (λ by_port. (port : ℕ) → ports_at by_port.items port ≡ inner_ports d.now composition port) }
{
    let mut by_port = no_ports(alloc, outer_ports(d, composition).len())?;
    for connector in connectors_of(d, composition) {
        add_delegation(d, composition, *connector, &mut by_port)?;
    }
    Ok(by_port)
}

/// For each composition and outer port, the inner ports that it is delegated to by connectors that may join them.
pub fn delegations(alloc: Global, d: &Description) -> Result<Vec<Vec<Vec<InnerPort>>>, Memory>
    ensures { IfOk result (λ table. IsDelegated d.now table.items) }
{
    let mut table = Vec::new(alloc);
    for composition in 0..d.compositions.len() {
        table.push(delegations_in(alloc, d, composition)?)?;
    }
    Ok(table)
}
