//! Coherent lists: what is fetched or published at one moment.

ghost use Rattle.std.specs.Prelude.{◌≡◌, ◌++◌, ◌%◌, ◌==◌, codes, decimal, true, if◌then◌else◌};
ghost use Rattle.bus_semantics.specs.Common.{elems_of, plan_of, lists_sound, mask_text, position_of, spaced, value_text};
ghost use Rattle.trace_text.specs.Appending.{Appends};
ghost use Rattle.trace_text.specs.Beside.{first_beside};
ghost use Rattle.trace_text.specs.Short.{IsShortNumber, IsShortValue};

use crate::fields::{write_number, write_spaced_value, write_text};
use bus_semantics::BusPlan;
use rte_text::LineBuf;
use rte_value::Value;

/// The first list of the runnable that a coherent list belongs to. None for a list that there is not.
fn first_beside(p: &BusPlan, list: u32) -> Option<u32>
    ensures { result ≡ first_beside (plan_of p.now) list }
{
    match p.lists.items().get(list as usize) {
        Some(coherent) => match p.runnables.items().get(coherent.runnable as usize) {
            Some(runnable) => runnable.lists.items().get(0).copied(),
            None => None,
        },
        None => None,
    }
}

/// The place of a coherent list among the lists of its runnable, from 0, which have consecutive numbers. 0 for a list that there is
/// not.
fn position_of(p: &BusPlan, list: u32) -> u32
    requires { lists_sound (plan_of p.now) ≡ true }
    ensures { result ≡ position_of (plan_of p.now) list }
{
    match first_beside(p, list) {
        Some(first) => list - first,
        None => 0,
    }
}

/// `1` if the lowest mark is set, else `0`.
fn write_mark(marks: u16, out: &mut LineBuf)
    ensures { Appends out.old out.new (if marks % 2 == 1 then codes "1" else codes "0") }
{
    if marks % 2 == 1 {
        write_text(b"1", out);
    } else {
        write_text(b"0", out);
    }
}

/// One digit for each element, `1` if it is marked.
fn write_marks(written: u16, elems: &[u32], out: &mut LineBuf)
    ensures { Appends out.old out.new (mask_text written elems.now) }
{
    let mut marks = written;
    for _ in 0..elems.len() {
        write_mark(marks, out);
        marks /= 2;
    }
}

/// ` fetchAll L V`.
pub fn write_fetched(p: &BusPlan, list: u32, value: &Value, out: &mut LineBuf)
    requires { lists_sound (plan_of p.now) ≡ true }
    ensures text { Appends out.old out.new (spaced (codes "fetchAll " ++ decimal (position_of (plan_of p.now) list) ++ spaced (value_text value.now))) }
    ensures short_place { IsShortNumber (position_of (plan_of p.now) list) }
    ensures short_value { IsShortValue value.now }
{
    write_text(b" fetchAll ", out);
    write_number(position_of(p, list), out);
    write_spaced_value(value, out);
}

/// ` publishAll L MASK V`.
pub fn write_published(p: &BusPlan, list: u32, written: u16, value: &Value, out: &mut LineBuf)
    requires { lists_sound (plan_of p.now) ≡ true }
    ensures text { Appends out.old out.new (spaced (codes "publishAll " ++ decimal (position_of (plan_of p.now) list) ++ spaced (mask_text written (elems_of (plan_of p.now) list)) ++ spaced (value_text value.now))) }
    ensures short_place { IsShortNumber (position_of (plan_of p.now) list) }
    ensures short_value { IsShortValue value.now }
{
    write_text(b" publishAll ", out);
    write_number(position_of(p, list), out);
    write_text(b" ", out);
    write_marks(written, p.elems_of(list), out);
    write_spaced_value(value, out);
}
