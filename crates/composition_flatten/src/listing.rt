//! The component instances, listed.

ghost use Rattle.std.specs.Prelude.{◌≡◌, ◌≤◌, ◌<◌, ◌++◌, [], codes, IfOk, OnOk};
ghost use Rattle.composition_tables.specs.Counts.{IsCounted};
ghost use Rattle.composition_flatten.specs.Named.{named_below, named_of};

use composition_tables::counts::{DEPTH_LIMIT, count_below};
use composition_tables::prototypes::prototypes_of;
use description_types::{Description, Instance, Prototype, PrototypeType};
use rte_text::{Memory, Text};
use std::alloc::Global;

fn joined(alloc: Global, prefix: &[u8], name: &Text) -> Result<Vec<u8>, Memory>
    ensures { IfOk result (λ path. path.items ≡ prefix.now ++ name.now) }
{
    let mut path = Vec::from_slice(alloc, prefix)?;
    path.extend_from_slice(name.bytes())?;
    Ok(path)
}

fn joined_inside(alloc: Global, prefix: &[u8], name: &Text) -> Result<Vec<u8>, Memory>
    ensures { IfOk result (λ path. path.items ≡ (prefix.now ++ name.now) ++ codes "/") }
{
    let mut path = joined(alloc, prefix, name)?;
    path.extend_from_slice("/".as_bytes())?;
    Ok(path)
}

#[cycle(listing)]
fn list_below(
    alloc: Global,
    d: &Description,
    levels: &[Vec<u32>],
    depth: usize,
    composition: u32,
    prefix: &[u8],
    listed: &mut Vec<Instance>,
) -> Result<(), Memory>
    requires counted { IsCounted d.now levels.now }
    requires within { depth ≤ 8 }
    ensures { OnOk result (listed.new.items ≡ listed.old.items ++ named_below d.now depth composition prefix.now) }
{
    if depth == 0 {
        return Ok(());
    }
    for prototype in prototypes_of(d, composition as usize) {
        list_prototype(alloc, d, levels, depth - 1, prototype, prefix, listed)?;
    }
    Ok(())
}

#[cycle(listing)]
fn list_prototype(
    alloc: Global,
    d: &Description,
    levels: &[Vec<u32>],
    depth: usize,
    prototype: &Prototype,
    prefix: &[u8],
    listed: &mut Vec<Instance>,
) -> Result<(), Memory>
    requires counted { IsCounted d.now levels.now }
    requires within { depth < 8 }
    ensures { OnOk result (listed.new.items ≡ listed.old.items ++ named_of (named_below d.now depth) prototype.now.of_type (prefix.now ++ prototype.now.short_name)) }
{
    match prototype.of_type {
        PrototypeType::Component(component) => {
            let path = joined(alloc, prefix, &prototype.short_name)?;
            listed.push(Instance {
                path: Text::of(path),
                component,
            })?;
            Ok(())
        }
        PrototypeType::Composition(held) => {
            if count_below(levels, depth, held) == 0 {
                return Ok(());
            }
            let inside = joined_inside(alloc, prefix, &prototype.short_name)?;
            list_below(alloc, d, levels, depth, held, inside.as_slice(), listed)
        }
    }
}

/// The instances of the root that stand at most 8 deep. Those of a composition are looked for only if it has some.
pub fn list_instances(
    alloc: Global,
    d: &Description,
    levels: &[Vec<u32>],
) -> Result<Vec<Instance>, Memory>
    requires { IsCounted d.now levels.now }
    ensures { IfOk result (λ listed. listed.items ≡ named_below d.now 8 d.now.root []) }
{
    let mut listed = Vec::new(alloc);
    list_below(alloc, d, levels, DEPTH_LIMIT, d.root, &[], &mut listed)?;
    Ok(listed)
}
