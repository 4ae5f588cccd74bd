//! The texts of places.

ghost use Rattle.std.specs.Prelude.{◌≡◌, ◌++◌, IfOk, OnOk};
ghost use Rattle.std.specs.Fmt.{decimal};
ghost use Rattle.plan_definitions.specs.Spots.{in_component, runnable_text, spot_text, path_text, program_text};

use itoa::Buffer;
use plan_definitions::Spot;
use rte_text::{Memory, Text};
use std::alloc::Global;

fn put_number(text: &mut Vec<u8>, number: usize) -> Result<(), Memory>
    ensures { OnOk result (text.new.items ≡ text.old.items ++ decimal number) }
{
    text.extend_from_slice(Buffer::new().format(number).as_bytes())?;
    Ok(())
}

fn in_component(
    alloc: Global,
    component: usize,
    list: &str,
    position: usize,
) -> Result<Vec<u8>, Memory>
    ensures { IfOk result (λ text. text.items ≡ in_component component list.now position) }
{
    let mut text = Vec::from_slice(alloc, "/components/".as_bytes())?;
    put_number(&mut text, component)?;
    text.extend_from_slice(list.as_bytes())?;
    put_number(&mut text, position)?;
    Ok(text)
}

fn runnable_text(alloc: Global, component: usize, runnable: usize) -> Result<Vec<u8>, Memory>
    ensures { IfOk result (λ text. text.items ≡ runnable_text component runnable) }
{
    in_component(alloc, component, "/behavior/runnables/", runnable)
}

fn access_text(
    alloc: Global,
    component: usize,
    runnable: usize,
    access: usize,
) -> Result<Vec<u8>, Memory>
    ensures { IfOk result (λ text. text.items ≡ spot_text component (Spot.Access runnable access)) }
{
    let mut text = runnable_text(alloc, component, runnable)?;
    text.extend_from_slice("/accesses/".as_bytes())?;
    put_number(&mut text, access)?;
    Ok(text)
}

fn list_text(
    alloc: Global,
    component: usize,
    runnable: usize,
    list: usize,
) -> Result<Vec<u8>, Memory>
    ensures { IfOk result (λ text. text.items ≡ spot_text component (Spot.List runnable list)) }
{
    let mut text = runnable_text(alloc, component, runnable)?;
    text.extend_from_slice("/coherent/".as_bytes())?;
    put_number(&mut text, list)?;
    Ok(text)
}

/// The JSON pointer of a place in a component.
pub fn spot_text(alloc: Global, component: usize, spot: Spot) -> Result<Text, Memory>
    ensures { IfOk result (λ text. text ≡ spot_text component spot) }
{
    let text = match spot {
        Spot::Port(port) => in_component(alloc, component, "/ports/", port)?,
        Spot::Access { runnable, access } => access_text(alloc, component, runnable, access)?,
        Spot::Event(event) => in_component(alloc, component, "/behavior/events/", event)?,
        Spot::List { runnable, list } => list_text(alloc, component, runnable, list)?,
    };
    Ok(Text::of(text))
}

fn put_path(text: &mut Vec<u8>, path: &[usize]) -> Result<(), Memory>
    ensures { OnOk result (text.new.items ≡ text.old.items ++ path_text path.now) }
{
    for position in path {
        text.extend_from_slice("/".as_bytes())?;
        put_number(text, *position)?;
    }
    Ok(())
}

/// The JSON pointer of a statement of a program, or of the whole program if the path is empty.
pub fn program_text(
    alloc: Global,
    component: usize,
    runnable: usize,
    path: &[usize],
) -> Result<Text, Memory>
    ensures { IfOk result (λ text. text ≡ program_text component runnable path.now) }
{
    let mut text = runnable_text(alloc, component, runnable)?;
    text.extend_from_slice("/program".as_bytes())?;
    put_path(&mut text, path)?;
    Ok(Text::of(text))
}
