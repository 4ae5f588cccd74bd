//! The script of two nodes.

ghost use Rattle.std.specs.Prelude.{◌≡◌, [], Some, IfOk};
ghost use Rattle.bus_semantics.specs.declared.script.Mapping.{Mapping};
ghost use Rattle.bus_semantics.specs.Common.{plan_of, IsSound};
ghost use Rattle.line_fields.specs.Texts.{lines_of};
ghost use Rattle.script_reading.specs.Numbers.{HasFewNumbers};
ghost use Rattle.script_reading.specs.Reading.{IfBadLine, IfRead, IsScriptBy, first_bad};
ghost use Rattle.script_reading.specs.Reserved.{saying_around};
ghost use Rattle.pair_run.specs.Linked.{linked_in};

use crate::Memory;
use bus_semantics::BusPlan;
use script_reading::{ScriptRead, read_script_around};
use signal_link::LinkElem;
use std::alloc::Global;

/// Of each element of the plan whether it is linked.
fn linked_in(alloc: Global, p: &BusPlan, links: &[LinkElem]) -> Result<Vec<bool>, Memory>
    ensures { IfOk result (λ linked. linked.items ≡ linked_in (plan_of p.now) links.now) }
{
    let mut linked = vec![in alloc; false; p.elements.items().len()]?;
    for link in links {
        if let Some(is_linked) = linked.get_mut(link.out_elem as usize) {
            *is_linked = true;
        }
    }
    Ok(linked)
}

/// Reads the script of two nodes over the plan of the first. A line that receives from a linked element has cause 2: for the script there
/// is no such element. All else is as in a script of one node.
pub fn read_pair_script(alloc: Global, p: &BusPlan, links: &[LinkElem], bytes: &[u8]) -> ScriptRead
    requires sound { (m : Mapping) × IsSound (plan_of p.now) m }
    requires few { HasFewNumbers (plan_of p.now) }
    ensures read { IfRead result (λ lines. IsScriptBy
        (saying_around (plan_of p.now) (linked_in (plan_of p.now) links.now)) bytes.now lines) }
    ensures bad_line { IfBadLine result (λ line cause. first_bad
        (saying_around (plan_of p.now) (linked_in (plan_of p.now) links.now)) [] (lines_of bytes.now) ≡ Some (line, cause)) }
{
    match linked_in(alloc, p, links) {
        Ok(linked) => read_script_around(alloc, p, linked.as_slice(), bytes),
        Err(_) => ScriptRead::Memory,
    }
}
