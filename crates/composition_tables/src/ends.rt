//! What the tables of a description say.

ghost use Rattle.std.specs.Prelude.{◌≡◌, ◌≤◌, ◌<◌, [], length, min, slice_get};
ghost use Rattle.composition_tables.specs.Ends.{inner_ports, number_from, offset};
ghost use Rattle.description_types.specs.Paths.{prototypes_of};
ghost use Rattle.composition_tables.specs.Trees.{IsTree, items_of, ports_at, start_in};
ghost use Rattle.std.specs.Option.{option_map_or};

use crate::tree::Tree;
use description_types::InnerPort;

fn ports_at(by_port: &[Vec<InnerPort>], port: u32) -> &[InnerPort]
    ensures { result.now ≡ ports_at by_port.now port }
{
    match by_port.get(port as usize) {
        Some(ports) => ports.as_slice(),
        None => &[],
    }
}

fn ports_of_composition(table: &[Vec<Vec<InnerPort>>], composition: u32) -> &[Vec<InnerPort>]
    ensures { result.now ≡ option_map_or items_of (slice_get table.now composition) [] }
{
    match table.get(composition as usize) {
        Some(by_port) => by_port.as_slice(),
        None => &[],
    }
}

/// The inner ports that a composition delegates its outer port to.
pub fn inner_ports<'a>(tree: &'a Tree, composition: u32, port: u32) -> &'a [InnerPort]
    requires { IsTree tree.now }
    ensures { result.now ≡ inner_ports tree.now.d.now composition port }
{
    let by_port = ports_of_composition(tree.delegations.as_slice(), composition);
    ports_at(by_port, port)
}

fn starts_at(table: &[Vec<Vec<u32>>], depth: usize) -> &[Vec<u32>]
    ensures { result.now ≡ option_map_or items_of (slice_get table.now depth) [] }
{
    match table.get(depth) {
        Some(starts) => starts.as_slice(),
        None => &[],
    }
}

fn start_in(starts: &[Vec<u32>], composition: u32, prototype: usize) -> u32
    ensures { result ≡ start_in starts.now composition prototype }
{
    match starts.get(composition as usize) {
        Some(list) => list.get(prototype).copied().unwrap_or(0),
        None => 0,
    }
}

/// How many instances stand before those of a prototype, up to the cap.
pub fn start_of(tree: &Tree, depth: usize, composition: u32, prototype: u32) -> u32
    requires is_tree { IsTree tree.now }
    requires within { depth ≤ 8 }
    requires declared { prototype < length (prototypes_of tree.now.d.now composition) }
    ensures { result ≡ min (offset tree.now.d.now depth composition prototype) 1025 }
{
    start_at(tree, depth, composition, prototype as usize)
}

/// How many instances stand before those of the prototype at a position, up to the cap.
pub fn start_at(tree: &Tree, depth: usize, composition: u32, prototype: usize) -> u32
    requires is_tree { IsTree tree.now }
    requires within { depth ≤ 8 }
    requires declared { prototype < length (prototypes_of tree.now.d.now composition) }
    ensures { result ≡ min (offset tree.now.d.now depth composition prototype) 1025 }
{
    start_in(
        starts_at(tree.starts.as_slice(), depth),
        composition,
        prototype,
    )
}

/// A number so many further on.
pub fn number_from(first: u32, further: u32) -> u32
    requires { further ≤ 1025 }
    ensures { result ≡ number_from first further }
{
    first.saturating_add(further)
}
