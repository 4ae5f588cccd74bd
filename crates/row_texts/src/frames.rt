//! Frames of values that are cut and turned, and what an unframer shows of them.

ghost use Rattle.std.specs.Prelude.{◌≤◌, IfOk};
ghost use Rattle.signal_link.specs.Links.{AreLinks};

use rte_value::{Limits, Value, Word};
use signal_link::{Found, FrameBuf, LinkElem, Unframer, frame};
use std::alloc::{AllocError, Global};

/// How many bytes the frame of a value of one word has.
const FRAME: usize = 12;

/// What bytes show, fed to a new unframer.
#[derive(Clone, Copy, PartialEq, Eq)]
enum Shown {
    /// They may become a frame.
    More,
    /// They can't, from this byte on, the first of which is 1.
    Bad(usize),
    /// They are the frame of a value.
    Good,
    /// A value of which they are not the frame.
    Another,
}

/// One link, of one word from -1 to 1,000.
fn one_link(alloc: Global) -> Result<Vec<LinkElem>, AllocError>
    ensures { IfOk result (λ links. AreLinks links.items) }
{
    let limits = Limits {
        low: -1,
        high: 1_000,
    };
    let link = LinkElem {
        out_elem: 0,
        in_elem: 0,
        words: 1,
        limits,
    };
    Ok(vec![in alloc; link]?)
}

/// The frame of a word for link 0.
fn frame_of(word: Word) -> [u8; FRAME] {
    let mut held = FrameBuf::new();
    frame(0, &Value::of_word(word), &mut held);
    let mut bytes = [0; FRAME];
    for (byte, framed) in bytes.iter_mut().zip(held.bytes()) {
        *byte = *framed;
    }
    bytes
}

/// Whether the bytes are the frame of the value for the link.
fn is_frame_of(link: u16, value: &Value, bytes: &[u8]) -> bool {
    let mut held = FrameBuf::new();
    frame(link, value, &mut held);
    held.bytes() == bytes
}

/// What was found in the bytes with a piece that ends at this byte, if that is more than their beginning.
fn shown_by(found: Found, bytes: &[u8], end: usize) -> Option<Shown> {
    match found {
        Found::More => None,
        Found::BadFrame => Some(Shown::Bad(end)),
        Found::Whole { link, value } => {
            if is_frame_of(link, &value, bytes) {
                Some(Shown::Good)
            } else {
                Some(Shown::Another)
            }
        }
    }
}

/// What the bytes show that are fed one by one.
fn show_each(alloc: Global, bytes: &[u8; FRAME]) -> Result<Shown, AllocError> {
    let mut unframer = Unframer::new(one_link(alloc)?);
    for (at, byte) in bytes.iter().enumerate() {
        if let Some(shown) = shown_by(unframer.feed(&[*byte]).found, bytes, at + 1) {
            return Ok(shown);
        }
    }
    Ok(Shown::More)
}

/// What the bytes show that are fed in two pieces, the first of so many bytes.
fn show_cut(alloc: Global, bytes: &[u8; FRAME], cut: usize) -> Result<Shown, AllocError>
    requires { cut ≤ 12 }
{
    let mut unframer = Unframer::new(one_link(alloc)?);
    let (first, rest) = bytes.split_at(cut);
    if let Some(shown) = shown_by(unframer.feed(first).found, bytes, cut) {
        return Ok(shown);
    }
    match shown_by(unframer.feed(rest).found, bytes, FRAME) {
        Some(shown) => Ok(shown),
        None => Ok(Shown::More),
    }
}

/// What bytes that show this byte by byte are to show in two pieces, the first of so many bytes: a bad byte shows with its piece.
fn cut_of(shown: Shown, cut: usize) -> Shown {
    match shown {
        Shown::Bad(at) if at <= cut => Shown::Bad(cut),
        Shown::Bad(_) => Shown::Bad(FRAME),
        _ => shown,
    }
}

/// At how many cuts the bytes show something else than byte by byte.
fn differing_cuts(alloc: Global, bytes: &[u8; FRAME], shown: Shown) -> Result<u32, AllocError> {
    let mut count = 0u32;
    for cut in 0..=FRAME {
        if show_cut(alloc, bytes, cut)? != cut_of(shown, cut) {
            count = count.saturating_add(1);
        }
    }
    Ok(count)
}

/// The bytes with this one at a place, if there is such a place.
fn turned(bytes: &[u8; FRAME], place: usize, byte: u8) -> [u8; FRAME] {
    let mut turned = *bytes;
    if let Some(old) = turned.get_mut(place) {
        *old = byte;
    }
    turned
}

/// Appends what a run of values shows, from the first to the last.
fn push_run(
    alloc: Global,
    text: &mut Vec<u8>,
    first: u8,
    last: u8,
    shown: Shown,
) -> Result<(), AllocError> {
    let values = if first == last {
        format!(in alloc; " {first}")?
    } else {
        format!(in alloc; " {first} to {last}")?
    };
    text.extend_from_slice(values.as_bytes())?;
    match shown {
        Shown::More => text.extend_from_slice(b" more;"),
        Shown::Good => text.extend_from_slice(b" good;"),
        Shown::Another => text.extend_from_slice(b" another;"),
        Shown::Bad(at) => {
            let bad = format!(in alloc; " bad at {at};")?;
            text.extend_from_slice(bad.as_bytes())
        }
    }
}

/// Appends what the bytes show with each value at this place, and at how many cuts that differs.
fn push_place(
    alloc: Global,
    text: &mut Vec<u8>,
    bytes: &[u8; FRAME],
    place: usize,
) -> Result<(), AllocError> {
    let zero = turned(bytes, place, 0);
    let mut first = 0u8;
    let mut before = show_each(alloc, &zero)?;
    let mut differing = differing_cuts(alloc, &zero, before)?;
    for byte in 1..=255u8 {
        let other = turned(bytes, place, byte);
        let shown = show_each(alloc, &other)?;
        differing = differing.saturating_add(differing_cuts(alloc, &other, shown)?);
        if shown != before {
            push_run(alloc, text, first, byte - 1, before)?;
            first = byte;
            before = shown;
        }
    }
    push_run(alloc, text, first, 255, before)?;
    let differ = format!(in alloc; " {differing} cuts differ\n")?;
    text.extend_from_slice(differ.as_bytes())
}

/// The bytes of the frame of a word for link 0, of one word from -1 to 1,000. Then for each of the bytes: what the frame shows with each value in
/// its place, fed byte by byte, and at how many cuts something else shows, of all these frames in two pieces.
pub fn turns_shown(alloc: Global, word: Word) -> Result<Vec<u8>, AllocError> {
    let bytes = frame_of(word);
    let mut text = Vec::new(alloc);
    for byte in bytes {
        let shown = format!(in alloc; "{byte} ")?;
        text.extend_from_slice(shown.as_bytes())?;
    }
    text.push(b'\n')?;
    for place in 0..FRAME {
        let number = format!(in alloc; "byte {}:", place + 1)?;
        text.extend_from_slice(number.as_bytes())?;
        push_place(alloc, &mut text, &bytes, place)?;
    }
    Ok(text)
}
