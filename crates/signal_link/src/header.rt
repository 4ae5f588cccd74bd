//! The header of a frame that is coming.

ghost use Rattle.std.specs.Prelude.{List, ◌++◌, ◌∷◌, [], ◌<◌, length};
ghost use Rattle.byteorder.specs.Endian.{big_bytes};
ghost use Rattle.signal_link.specs.declared.link_elem.LinkElem.{LinkElem};
ghost use Rattle.signal_link.specs.Links.{AreLinks};
ghost use Rattle.signal_link.specs.Parts.{IsHeader, IsNext, header_bytes};

use crate::frame_buf::MARK;
use crate::link_elem::LinkElem;
use crate::part::Part;
use crate::payload::Payload;

/// What came of the header of a frame. Some good frame begins so.
#[derive(Clone, Copy)]
pub(crate) enum Header {
    /// Nothing.
    Nothing,
    /// The mark.
    Mark,
    /// The mark and the high byte of the link's number.
    High(u8),
    /// The mark and the link's number.
    Number(u16),
}

impl Header {
    /// What stands after the next byte of the frame.
    pub(crate) fn after(self, links: &[LinkElem], byte: u8) -> Part
        requires links { AreLinks links.now }
        requires header { IsHeader links.now self }
        ensures { IsNext links.now (header_bytes self ++ byte ∷ []) result }
    {
        match self {
            Header::Nothing => after_nothing(byte),
            Header::Mark => after_mark(links, byte),
            Header::High(high) => after_high(links, high, byte),
            Header::Number(number) => after_number(links, number, byte),
        }
    }
}

/// What stands after the first byte.
fn after_nothing(byte: u8) -> Part
    ensures { (links : List LinkElem) → IsNext links (byte ∷ []) result }
{
    if byte == MARK {
        Part::InHeader(Header::Mark)
    } else {
        Part::Bad
    }
}

/// What stands after the mark and this byte.
fn after_mark(links: &[LinkElem], byte: u8) -> Part
    requires { AreLinks links.now }
    ensures { IsNext links.now (0x52 ∷ byte ∷ []) result }
{
    if byte as usize * 256 < links.len() {
        Part::InHeader(Header::High(byte))
    } else {
        Part::Bad
    }
}

/// What stands after the mark and these bytes.
fn after_high(links: &[LinkElem], high: u8, byte: u8) -> Part
    requires links { AreLinks links.now }
    ensures { IsNext links.now (0x52 ∷ high ∷ byte ∷ []) result }
{
    let number = u16::from_be_bytes([high, byte]);
    if (number as usize) < links.len() {
        Part::InHeader(Header::Number(number))
    } else {
        Part::Bad
    }
}

/// What stands after the mark, this number of a link and this byte.
fn after_number(links: &[LinkElem], number: u16, byte: u8) -> Part
    requires links { AreLinks links.now }
    requires number { number < length links.now }
    ensures { IsNext links.now ((0x52 ∷ big_bytes 2 number) ++ byte ∷ []) result }
{
    let link = links[number as usize];
    if byte == link.words {
        Part::InWords(Payload::new(number, link))
    } else {
        Part::Bad
    }
}
