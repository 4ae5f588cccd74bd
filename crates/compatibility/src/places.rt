//! The texts of places.

ghost use Rattle.std.specs.Prelude.{◌≡◌, ◌++◌, IfOk, OnOk};
ghost use Rattle.std.specs.Fmt.{decimal};
ghost use Rattle.plan_definitions.specs.JoinRefusals.{in_composition};

use itoa::Buffer;
use rte_text::{Memory, Text};
use std::alloc::Global;

fn put_number(text: &mut Vec<u8>, number: usize) -> Result<(), Memory>
    ensures { OnOk result (text.new.items ≡ text.old.items ++ decimal number) }
{
    text.extend_from_slice(Buffer::new().format(number).as_bytes())?;
    Ok(())
}

/// The JSON pointer of a position in a list of a composition, if the list has this key.
pub fn in_composition(
    alloc: Global,
    composition: usize,
    list: &str,
    position: usize,
) -> Result<Text, Memory>
    ensures { IfOk result (λ text. text ≡ in_composition composition list.now position) }
{
    let mut text = Vec::from_slice(alloc, "/compositions/".as_bytes())?;
    put_number(&mut text, composition)?;
    text.extend_from_slice(list.as_bytes())?;
    put_number(&mut text, position)?;
    Ok(Text::of(text))
}
