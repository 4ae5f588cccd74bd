//! What was done with a coherent list. It has no name: a line has its place among the lists of its runnable.

ghost use Rattle.std.specs.Prelude.{◌≡◌, ◌≤◌, ◌==◌, length, if◌then◌else◌};
ghost use Rattle.bus_semantics.specs.Plan.{plan_of};
ghost use Rattle.trace_reading.specs.Lists.{list_at, list_deed, list_deed_at, list_in, marks_at, marks_in};
ghost use Rattle.trace_reading.specs.Pieces.{line_of};

use crate::fields::{Fields, number_at, value_at};
use crate::words::ListWord;
use bus_semantics::{Actor, BusPlan, Deed};

/// The list at this place among those of a runnable.
fn list_in(p: &BusPlan, runnable: u32, place: u32) -> Option<u32>
    ensures { result ≡ list_in (plan_of p.now) runnable place }
{
    match p.runnables.items().get(runnable as usize) {
        Some(runnable) => runnable.lists.items().get(place as usize).copied(),
        None => None,
    }
}

/// The list of an actor's runnable whose place the text is.
fn list_at(p: &BusPlan, who: Actor, text: &[u8]) -> Option<u32>
    ensures { result ≡ list_at (plan_of p.now) who text.now }
{
    match who {
        Actor::Act(key) => list_in(p, key.runnable, number_at(text)?),
        Actor::Env | Actor::Machine(_) => None,
    }
}

/// 1 if the digit is.
fn mark_in(digit: u8) -> u16
    ensures { result ≡ (if digit == 49 then 1 else 0) }
{
    if digit == b'1' { 1 } else { 0 }
}

/// The marks of these digits, the first one's lowest.
fn marks_in(text: &[u8]) -> u16
    requires { length text.now ≤ 16 }
    ensures { result ≡ marks_in text.now }
{
    let mut marks = 0u16;
    let mut left = text.len();
    while left > 0 {
        left -= 1;
        marks = marks * 2 + mark_in(text[left]);
    }
    marks
}

/// The marks that the text is: at most 16 digits.
fn marks_at(text: &[u8]) -> Option<u16>
    ensures { result ≡ marks_at text.now }
{
    if text.len() <= 16 {
        Some(marks_in(text))
    } else {
        None
    }
}

/// What is done with the list of this number.
fn list_deed_at(word: ListWord, list: u32, f: &Fields) -> Option<Deed>
    ensures { result ≡ list_deed_at word list (line_of f.now) }
{
    let deed = match word {
        ListWord::FetchAll => Deed::FetchAll {
            list,
            value: value_at(f.second)?,
        },
        ListWord::PublishAll => Deed::PublishAll {
            list,
            written: marks_at(f.second)?,
            value: value_at(f.third)?,
        },
    };
    Some(deed)
}

/// What is done with a list.
pub fn list_deed(p: &BusPlan, who: Actor, word: ListWord, f: &Fields) -> Option<Deed>
    ensures { result ≡ list_deed (plan_of p.now) who word (line_of f.now) }
{
    match list_at(p, who, f.first) {
        Some(list) => list_deed_at(word, list, f),
        None => None,
    }
}
