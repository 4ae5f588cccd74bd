//! Names of calls, and the text of a header.

ghost use Rattle.std.specs.Prelude.{◌≡◌, ◌++◌, IfOk, OnOk, codes};
ghost use Rattle.std.specs.List.{flat_map};
ghost use Rattle.indexmap.specs.IndexMap.{keys};
ghost use Rattle.plan_text.specs.Calls.{seen, seen_parts};
ghost use Rattle.plan_text.specs.Headers.{header_text, title};
ghost use Rattle.plan_text.specs.Noting.{AreKept, kept};
ghost use Rattle.plan_text.specs.Targets.{name_of};

use crate::calls::{Call, Parts};
use crate::header_listing::Calls;
use rte_text::Memory;
use std::alloc::Global;

fn add_part(part: &[u8], name: &mut Vec<u8>) -> Result<(), Memory>
    ensures { OnOk result (name.new.items ≡ name.old.items ++ (codes "_" ++ part.now)) }
{
    name.push(b'_')?;
    name.extend_from_slice(part)
}

fn add_parts(parts: &Parts, name: &mut Vec<u8>) -> Result<(), Memory>
    ensures { OnOk result (name.new.items ≡ name.old.items ++ flat_map (λ part. codes "_" ++ part) (seen_parts parts.now)) }
{
    match parts {
        Parts::One(first) => add_part(first, name),
        Parts::Two(first, second) => {
            add_part(first, name)?;
            add_part(second, name)
        }
        Parts::Three(first, second, third) => {
            add_part(first, name)?;
            add_part(second, name)?;
            add_part(third, name)
        }
    }
}

/// The name of a call: its word, and each name in it behind `_`.
pub fn name_of(alloc: Global, call: &Call) -> Result<Vec<u8>, Memory>
    ensures { IfOk result (λ name. name.items ≡ name_of (seen call.now)) }
{
    let mut name = Vec::from_slice(alloc, call.word)?;
    add_parts(&call.parts, &mut name)?;
    Ok(name)
}

fn add_title(name: &[u8], text: &mut Vec<u8>) -> Result<(), Memory>
    ensures { OnOk result (text.new.items ≡ text.old.items ++ title name.now) }
{
    text.extend_from_slice(b"/* Rte_")?;
    text.extend_from_slice(name)?;
    text.extend_from_slice(b".h */\n")
}

fn add_line(name: &[u8], text: &mut Vec<u8>) -> Result<(), Memory>
    ensures { OnOk result (text.new.items ≡ text.old.items ++ (name.now ++ codes "\n")) }
{
    text.extend_from_slice(name)?;
    text.push(b'\n')?;
    Ok(())
}

fn add_lines(calls: &Calls, text: &mut Vec<u8>) -> Result<(), Memory>
    ensures { OnOk result (text.new.items ≡ text.old.items ++ flat_map (λ name. name.items ++ codes "\n") (keys calls.now)) }
{
    for name in calls.keys() {
        add_line(name.as_slice(), text)?;
    }
    Ok(())
}

/// The text of the header of this name that lists these calls.
pub fn header_text(alloc: Global, name: &[u8], calls: &Calls) -> Result<Vec<u8>, Memory>
    requires { AreKept calls.now }
    ensures { IfOk result (λ text. text.items ≡ header_text name.now (kept calls.now)) }
{
    let mut text = Vec::new(alloc);
    add_title(name, &mut text)?;
    add_lines(calls, &mut text)?;
    Ok(text)
}
