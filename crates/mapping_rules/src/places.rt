//! The texts of places.

ghost use Rattle.std.specs.Prelude.{◌≡◌, ◌++◌, codes, IfOk, OnOk, option_and_then, slice_get};
ghost use Rattle.std.specs.Fmt.{decimal};
ghost use Rattle.std.specs.Option.{option_map_or};
ghost use Rattle.plan_definitions.specs.Parts.{component_of};
ghost use Rattle.plan_definitions.specs.MappingRefusals.{event_text, mapped_text, mapping_text, path_of, runnable_text};

use crate::instances::Part;
use crate::naming::Names;
use description_types::Flat;
use itoa::Buffer;
use rte_text::{Memory, Text};
use std::alloc::Global;

fn put_number(text: &mut Vec<u8>, number: usize) -> Result<(), Memory>
    ensures { OnOk result (text.new.items ≡ text.old.items ++ decimal number) }
{
    text.extend_from_slice(Buffer::new().format(number).as_bytes())?;
    Ok(())
}

/// The JSON pointer of a mapped event.
pub fn mapped_text(alloc: Global, number: usize) -> Result<Text, Memory>
    ensures { IfOk result (λ text. text ≡ mapped_text number) }
{
    let mut text = Vec::from_slice(alloc, "/mapping/events/".as_bytes())?;
    put_number(&mut text, number)?;
    Ok(Text::of(text))
}

/// The JSON pointer of the mapping.
pub fn mapping_text(alloc: Global) -> Result<Text, Memory>
    ensures { IfOk result (λ text. text ≡ mapping_text) }
{
    let text = Vec::from_slice(alloc, "/mapping".as_bytes())?;
    Ok(Text::of(text))
}

fn path_of(f: &Flat, instance: usize) -> &[u8]
    ensures { result.now ≡ path_of f.now instance }
{
    match f.instances.items().get(instance) {
        Some(found) => found.path.bytes(),
        None => &[],
    }
}

fn event_name<'a>(names: &Names<'a>, event: Part) -> &'a [u8]
    ensures { result.now ≡ option_map_or (λ v. v.short_name) (option_and_then (λ c. slice_get c.behavior.events event.1) (component_of names.now.d.now names.now.f.now event.0)) (codes "") }
{
    match names.component_of(event.0) {
        Some(component) => match component.behavior.events.items().get(event.1) {
            Some(found) => found.short_name.bytes(),
            None => &[],
        },
        None => &[],
    }
}

fn runnable_name<'a>(names: &Names<'a>, runnable: Part) -> &'a [u8]
    ensures { result.now ≡ option_map_or (λ v. v.short_name) (option_and_then (λ c. slice_get c.behavior.runnables runnable.1) (component_of names.now.d.now names.now.f.now runnable.0)) (codes "") }
{
    match names.component_of(runnable.0) {
        Some(component) => match component.behavior.runnables.items().get(runnable.1) {
            Some(found) => found.short_name.bytes(),
            None => &[],
        },
        None => &[],
    }
}

/// An event of an instance, as in a trace.
pub fn event_text(alloc: Global, names: &Names<'_>, event: Part) -> Result<Text, Memory>
    ensures { IfOk result (λ text. text ≡ event_text names.now.d.now names.now.f.now event) }
{
    let mut text = Vec::from_slice(alloc, path_of(names.f, event.0))?;
    text.extend_from_slice(".".as_bytes())?;
    text.extend_from_slice(event_name(names, event))?;
    Ok(Text::of(text))
}

/// A runnable of an instance, as in a trace.
pub fn runnable_text(alloc: Global, names: &Names<'_>, runnable: Part) -> Result<Text, Memory>
    ensures { IfOk result (λ text. text ≡ runnable_text names.now.d.now names.now.f.now runnable) }
{
    let mut text = Vec::from_slice(alloc, path_of(names.f, runnable.0))?;
    text.extend_from_slice(":".as_bytes())?;
    text.extend_from_slice(runnable_name(names, runnable))?;
    Ok(Text::of(text))
}
