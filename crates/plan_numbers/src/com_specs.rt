//! What ports say of their items.

ghost use Rattle.std.specs.Prelude.{◌≡◌, IfOk, Some, map, nat_eq, option_and_then, option_copied, slice_get};
ghost use Rattle.std.specs.List.{find};
ghost use Rattle.plan_definitions.specs.Common.{root_ports, com_spec_of, ports_of};
ghost use Rattle.plan_numbers.specs.ComSpecs.{AreTables, items_of_ports, named_items};

use crate::owners::ports_of;
use crate::positions::Positions;
use description_types::{ComSpec, Component, Description, Flat, Port};
use rte_text::{Memory, Seq};
use std::alloc::Global;

/// For each port of each component, and each outer port of the root, the items of which it says something, in its order.
#[derive(Drop)]
pub struct PortTables {
    pub components: Seq<Seq<Positions<u32>>>,
    pub root: Seq<Positions<u32>>,
}

fn named_items(alloc: Global, port: &Port) -> Result<Positions<u32>, Memory>
    ensures { IfOk result (λ items. items ≡ named_items port.now) }
{
    let items: Vec<u32> = port
        .com_specs
        .items()
        .iter()
        .map(|s| s.element)
        .collect(alloc)?;
    Positions::of(alloc, items.as_slice())
}

fn items_of_ports(alloc: Global, ports: &[Port]) -> Result<Seq<Positions<u32>>, Memory>
    ensures { IfOk result (λ tables. tables ≡ items_of_ports ports.now) }
{
    let mut tables = Vec::new(alloc);
    for port in ports {
        tables.push(named_items(alloc, port)?)?;
    }
    Ok(Seq::of(tables))
}

fn items_of_components(
    alloc: Global,
    components: &[Component],
) -> Result<Seq<Seq<Positions<u32>>>, Memory>
    ensures { IfOk result (λ tables. tables ≡ map (λ c. items_of_ports c.ports) components.now) }
{
    let mut tables = Vec::new(alloc);
    for component in components {
        tables.push(items_of_ports(alloc, component.ports.items())?)?;
    }
    Ok(Seq::of(tables))
}

/// The tables of a description.
pub fn port_tables(alloc: Global, d: &Description, f: &Flat) -> Result<PortTables, Memory>
    ensures { IfOk result (λ tables. AreTables d.now tables) }
{
    let components = items_of_components(alloc, d.components.items())?;
    let root = items_of_ports(alloc, ports_of(d, f, None))?;
    Ok(PortTables { components, root })
}

#[tactic(auto, using(crate::proofs::Finding::slice_get_map))]
fn tables_of<'a>(
    tables: &'a PortTables,
    d: &Description,
    f: &Flat,
    owner: Option<u32>,
) -> &'a [Positions<u32>]
    requires { AreTables d.now tables.now }
    ensures { result.now ≡ items_of_ports (ports_of d.now f.now owner) }
{
    let Some(instance) = owner else {
        return tables.root.items();
    };
    let Some(found) = f.instances.items().get(instance as usize) else {
        return &[];
    };
    match tables.components.items().get(found.component as usize) {
        Some(ports) => ports.items(),
        None => &[],
    }
}

fn placed(specs: &[ComSpec], position: Option<usize>) -> Option<&ComSpec>
    ensures { option_copied result ≡ option_and_then (slice_get specs.now) position }
{
    specs.get(position?)
}

fn spec_named<'a>(specs: &'a [ComSpec], table: &Positions<u32>, item: u32) -> Option<&'a ComSpec>
    requires { table.now ≡ map (λ s. s.element) specs.now }
    ensures { option_copied result ≡ find (λ s. nat_eq s.element item) specs.now }
{
    let position = table.find(item);
    placed(specs, position)
}

#[tactic(auto, using(crate::proofs::Finding::slice_get_map))]
fn spec_at<'a>(
    ports: &'a [Port],
    tables: &[Positions<u32>],
    port: u32,
    item: u32,
) -> Option<&'a ComSpec>
    requires { tables.now ≡ items_of_ports ports.now }
    ensures { option_copied result ≡ option_and_then (λ p. find (λ s. nat_eq s.element item) p.com_specs) (slice_get ports.now port) }
{
    let found = ports.get(port as usize)?;
    let table = tables.get(port as usize)?;
    spec_named(found.com_specs.items(), table, item)
}

/// What a port says of an item.
pub fn com_spec_of<'a>(
    d: &'a Description,
    f: &Flat,
    tables: &PortTables,
    owner: Option<u32>,
    port: u32,
    item: u32,
) -> Option<&'a ComSpec>
    requires { AreTables d.now tables.now }
    ensures { option_copied result ≡ com_spec_of d.now f.now owner port item }
{
    spec_at(
        ports_of(d, f, owner),
        tables_of(tables, d, f, owner),
        port,
        item,
    )
}
