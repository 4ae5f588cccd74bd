//! A frame that comes byte by byte.

ghost use Rattle.std.specs.Prelude.{◌≡◌, ◌++◌, ◌∷◌, [], List, ℕ, Some};
ghost use Rattle.signal_link.specs.Links.{AreLinks};
ghost use Rattle.signal_link.specs.Parts.{IsFound, IsNext, IsPart, begun_of};

use crate::header::Header;
use crate::link_elem::LinkElem;
use crate::part::Part;
use crate::unframer::Found;

/// Takes the next byte.
fn push(links: &[LinkElem], part: &mut Part, byte: u8)
    requires links { AreLinks links.now }
    requires part { IsPart links.now part.old }
    ensures { (kept : List ℕ) → begun_of part.old ≡ Some kept → IsNext links.now (kept ++ byte ∷ []) part.new }
{
    match part {
        Part::InHeader(header) => {
            let next = header.after(links, byte);
            *part = next;
        }
        Part::InWords(payload) => {
            if !payload.push(byte) {
                *part = Part::Bad;
            }
        }
        Part::Bad => {}
    }
}

/// What the bytes show that came. Behind a whole frame nothing of the next came.
fn show(part: &mut Part) -> Found
    ensures { (links : List LinkElem) (bytes : List ℕ) → IsNext links bytes part.old → IsFound links bytes result part.new }
{
    match part {
        Part::InHeader(_) => Found::More,
        Part::InWords(payload) => match payload.value() {
            Some(value) => {
                let link = payload.number;
                *part = Part::InHeader(Header::Nothing);
                Found::Whole { link, value }
            }
            None => Found::More,
        },
        Part::Bad => Found::BadFrame,
    }
}

/// Takes the next byte, and tells what the bytes show.
pub(crate) fn advance(links: &[LinkElem], part: &mut Part, byte: u8) -> Found
    requires links { AreLinks links.now }
    requires part { IsPart links.now part.old }
    ensures { (kept : List ℕ) → begun_of part.old ≡ Some kept → IsFound links.now (kept ++ byte ∷ []) result part.new }
{
    push(links, part, byte);
    show(part)
}
