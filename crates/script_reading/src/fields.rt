//! The fields of a line of a script.

ghost use Rattle.std.specs.Prelude.{◌∷◌};
ghost use Rattle.line_fields.specs.Texts.{parts};
ghost use Rattle.script_reading.specs.Pieces.{AreFields};

use line_fields::cut;

/// The fields of a line, which one space separates.
#[derive(Clone, Copy)]
pub enum Fields<'a> {
    One(&'a [u8]),
    Two(&'a [u8], &'a [u8]),
    Three(&'a [u8], &'a [u8], &'a [u8]),
    /// Four or more.
    More,
}

/// The fields of a line of which these are the first two, and what stands after them.
fn after_two<'a>(first: &'a [u8], second: &'a [u8], after: &'a [u8]) -> Fields<'a>
    ensures { AreFields (first.now ∷ second.now ∷ parts 32 after.now) result }
{
    match cut(after, b' ') {
        (third, None) => Fields::Three(first, second, third),
        (_, Some(_)) => Fields::More,
    }
}

/// The fields of a line of which this is the first, and what stands after it.
fn after_one<'a>(first: &'a [u8], after: &'a [u8]) -> Fields<'a>
    ensures { AreFields (first.now ∷ parts 32 after.now) result }
{
    match cut(after, b' ') {
        (second, None) => Fields::Two(first, second),
        (second, Some(after)) => after_two(first, second, after),
    }
}

/// The fields of a line.
pub fn split_fields(text: &[u8]) -> Fields<'_>
    ensures { AreFields (parts 32 text.now) result }
{
    match cut(text, b' ') {
        (first, None) => Fields::One(first),
        (first, Some(after)) => after_one(first, after),
    }
}
