//! The values of frames that come in any pieces.

ghost use Rattle.std.specs.Prelude.{◌≡◌, ◌<◌, ◌^◌, ◌++◌, List, ℕ, false, is_none, length, take};
ghost use Rattle.signal_link.specs.Frames.{Pair};
ghost use Rattle.signal_link.specs.Links.{AreLinks};
ghost use Rattle.signal_link.specs.Feeding.{IsFed, feed_of};
ghost use Rattle.signal_link.specs.Parts.{IsPart, begun_of, kept_of};
ghost use Rattle.signal_link.specs.Unframing.{Finds, StandsFor, after_feed, fresh, given, used_by};

use crate::advancing::advance;
use crate::header::Header;
use crate::link_elem::LinkElem;
use crate::part::Part;
use rte_value::Value;
use std::marker::Model;

/// What a feed found in the bytes that no good frame ended before: those that are kept, and then the piece. A good frame is one of
/// a value that its link takes.
#[derive(Clone, Copy, Debug)]
pub enum Found {
    /// A good frame, with which the bytes begin.
    Whole {
        /// The number of its link.
        link: u16,
        /// Its value.
        value: Value,
    },
    /// The beginning of a good frame.
    More,
    /// Bytes that neither begin with a good frame nor are the beginning of one. Every later feed finds this too.
    BadFrame,
}

/// What a feed answers.
#[derive(Clone, Copy, Debug)]
pub struct Fed {
    /// How many bytes of the piece were used.
    pub used: u32,
    /// What was found.
    pub found: Found,
}

/// Finds the values of frames in bytes that come in pieces, which may be cut anywhere. It keeps the bytes of a frame that is not
/// finished, or that a bad frame came. It takes no memory.
#[derive(Drop)]
pub struct Unframer {
    links: Vec<LinkElem>,
    part: Part,
}

impl Model for Unframer {
    ghost use Rattle.signal_link.specs.Unframing.{Kept};
    ghost use Rattle.signal_link.specs.Links.{AreLinks};
    ghost use Rattle.signal_link.specs.Parts.{IsPart, begun_of};

    ghost Value = { Kept };

    ghost view = { λ u. record { links = u.links.items; begun = begun_of u.part } };

    ghost invariant = { λ u. AreLinks u.links.items × IsPart u.links.items u.part };
}

impl Unframer {
    /// An unframer for frames of these links, each under its place in the list. No byte came yet.
    pub fn new(links: Vec<LinkElem>) -> Unframer
        requires { AreLinks links.items }
        ensures { result ≡ fresh links.items }
    {
        Unframer {
            links,
            part: Part::InHeader(Header::Nothing),
        }
    }

    /// The links.
    pub fn links(&self) -> &[LinkElem]
        ensures { result.now ≡ self.now.links }
    {
        self.links.as_slice()
    }

    /// Uses bytes of the piece: up to the end of the first good frame if one ends in it, else all. It looks at the bytes that are
    /// kept and then the piece. `Whole` comes exactly if these begin with a good frame, with this frame's link and value;
    /// `BadFrame` exactly if they neither begin with one nor are the beginning of one, and after a bad frame; else `More`. Of a
    /// whole frame it uses what was missing and keeps nothing, else it uses all of the piece. It keeps the bytes of a frame that
    /// is not finished, or that a bad one came. So if it stands for the bytes that it was fed and the values that it gave, it then
    /// does so with those that it used and the one that it gave.
    pub fn feed(&mut self, piece: &[u8]) -> Fed
        requires { length piece.now < 2 ^ 32 }
        ensures found { Finds self.old piece.now result.found }
        ensures used { result.used ≡ used_by self.old piece.now result.found }
        ensures kept { self.new ≡ after_feed self.old piece.now result.found }
        ensures stands { (bytes : List ℕ) (pairs : List Pair) → StandsFor self.old bytes pairs →
            StandsFor self.new (bytes ++ take result.used piece.now) (pairs ++ given result.found) }
    {
        let links = self.links.as_slice();
        let part = &mut self.part;
        feed_part(links, part, piece)
    }
}

/// Uses bytes of the piece, after those that the part stands for.
fn feed_part(links: &[LinkElem], part: &mut Part, piece: &[u8]) -> Fed
    requires links { AreLinks links.now }
    requires part { IsPart links.now part.old }
    requires short { length piece.now < 2 ^ 32 }
    ensures fed { IsFed (kept_of links.now part.old) (feed_of piece.now result) (kept_of links.now part.new) }
    ensures part { IsPart links.now part.new }
{
    if part.is_bad() {
        return Fed {
            used: piece.len() as u32,
            found: Found::BadFrame,
        };
    }
    feed_begun(links, part, piece)
}

/// Uses bytes of the piece as `feed_part` does, if no bad frame came before.
fn feed_begun(links: &[LinkElem], part: &mut Part, piece: &[u8]) -> Fed
    requires links { AreLinks links.now }
    requires part { IsPart links.now part.old }
    requires begun { is_none (begun_of part.old) ≡ false }
    requires short { length piece.now < 2 ^ 32 }
    ensures fed { IsFed (kept_of links.now part.old) (feed_of piece.now result) (kept_of links.now part.new) }
    ensures part { IsPart links.now part.new }
{
    for (at, byte) in piece.iter().enumerate() {
        match advance(links, part, *byte) {
            Found::More => {}
            Found::Whole { link, value } => {
                return Fed {
                    used: at as u32 + 1,
                    found: Found::Whole { link, value },
                };
            }
            Found::BadFrame => {
                return Fed {
                    used: piece.len() as u32,
                    found: Found::BadFrame,
                };
            }
        }
    }
    Fed {
        used: piece.len() as u32,
        found: Found::More,
    }
}
