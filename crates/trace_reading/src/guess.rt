//! The entry that a line may be the text of.

ghost use Rattle.std.specs.Prelude.{◌≡◌};
ghost use Rattle.bus_semantics.specs.Plan.{plan_of};
ghost use Rattle.trace_reading.specs.Guess.{deed_in, guess, guess_of};
ghost use Rattle.trace_reading.specs.Pieces.{line_of};

use crate::actors::actor_in;
use crate::deeds::{call_deed, data_deed, mode_deed, plain_deed};
use crate::fields::{Fields, split};
use crate::lists::list_deed;
use crate::names::Names;
use crate::words::{call_word, data_word, list_word, mode_word, plain_word};
use bus_semantics::{Actor, Deed, Entry, Version};

/// What was done.
fn deed_in(names: &Names, v: Version, who: Actor, f: &Fields) -> Option<Deed>
    ensures { result ≡ deed_in v (plan_of names.now.plan.now) who (line_of f.now) }
{
    if let Some(word) = data_word(f.word) {
        return data_deed(names, who, word, f);
    }
    if let Some(word) = plain_word(f.word) {
        return plain_deed(names, who, word, f);
    }
    if let Some(word) = call_word(f.word) {
        return call_deed(names, who, word, f);
    }
    if let Some(word) = mode_word(f.word) {
        return mode_deed(names, v, who, word, f);
    }
    match list_word(f.word) {
        Some(word) => list_deed(names.plan, who, word, f),
        None => None,
    }
}

/// The entry of these fields.
fn entry_in(names: &Names, v: Version, f: &Fields) -> Option<Entry>
    ensures { result ≡ guess v (plan_of names.now.plan.now) (line_of f.now) }
{
    let actor = actor_in(names, f.who)?;
    let deed = deed_in(names, v, actor, f)?;
    Some(Entry { actor, deed })
}

/// The entry that the text may be that of, without its newline.
pub fn guess(names: &Names, v: Version, text: &[u8]) -> Option<Entry>
    ensures { result ≡ guess_of v (plan_of names.now.plan.now) text.now }
{
    entry_in(names, v, &split(text))
}
