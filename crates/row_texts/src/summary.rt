//! What a row shows in place of all that was told.

use std::alloc::{AllocError, Global};

/// How many lines are shown from the beginning.
const FIRST_LINES: usize = 8;

/// What a row shows of what was told.
#[derive(Clone, Copy)]
pub enum Shown<'a> {
    /// All of it.
    All,
    /// That it is this text, or the first line that is not.
    Against(&'a [u8]),
    /// Its first eight lines, how many come after them, and its last line.
    Ends,
    /// In how many lines the piece stands, and what comes after it in the last of them.
    LastWith(&'a [u8]),
    /// In how many lines the piece stands.
    TimesWith(&'a [u8]),
}

fn push_number(alloc: Global, text: &mut Vec<u8>, number: u64) -> Result<(), AllocError> {
    let digits = number.to_string(alloc)?;
    text.extend_from_slice(digits.as_bytes())
}

fn push_all(text: &mut Vec<u8>, lines: &[&[u8]]) -> Result<(), AllocError> {
    for line in lines {
        text.extend_from_slice(line)?;
    }
    Ok(())
}

/// Appends how many lines there are but the last, and the last.
fn push_end(alloc: Global, text: &mut Vec<u8>, lines: &[&[u8]]) -> Result<(), AllocError> {
    let [between @ .., last] = lines else {
        return Ok(());
    };
    text.extend_from_slice(b".. ")?;
    push_number(alloc, text, between.len() as u64)?;
    text.extend_from_slice(b" lines ..\n")?;
    text.extend_from_slice(last)
}

fn push_ends(alloc: Global, text: &mut Vec<u8>, lines: &[&[u8]]) -> Result<(), AllocError> {
    match lines.split_at_checked(FIRST_LINES) {
        Some((first, rest)) => {
            push_all(text, first)?;
            push_end(alloc, text, rest)
        }
        None => push_all(text, lines),
    }
}

fn push_ends_of(alloc: Global, text: &mut Vec<u8>, told: &[u8]) -> Result<(), AllocError> {
    let lines: Vec<&[u8]> = told.split_inclusive(|byte| *byte == b'\n').collect(alloc)?;
    push_ends(alloc, text, lines.as_slice())
}

/// What comes after the piece in a line, if the line has it.
fn after<'a>(line: &'a [u8], piece: &[u8]) -> Option<&'a [u8]> {
    for at in 0..line.len() {
        let (_, rest) = line.split_at(at);
        if let Some(more) = rest.strip_prefix(piece) {
            return Some(more);
        }
    }
    None
}

/// In how many lines the piece stands, and what comes after it in the last of them.
fn places<'a>(told: &'a [u8], piece: &[u8]) -> (u64, &'a [u8]) {
    let mut count: u64 = 0;
    let mut last: &[u8] = b"nothing";
    for line in told.split(|byte| *byte == b'\n') {
        if let Some(more) = after(line, piece) {
            count = count.saturating_add(1);
            last = more;
        }
    }
    (count, last)
}

fn push_last(
    alloc: Global,
    text: &mut Vec<u8>,
    told: &[u8],
    piece: &[u8],
) -> Result<(), AllocError> {
    let (count, last) = places(told, piece);
    push_number(alloc, text, count)?;
    text.extend_from_slice(b" times, at last ")?;
    text.extend_from_slice(last)?;
    text.extend_from_slice(b"\n")
}

fn push_times(
    alloc: Global,
    text: &mut Vec<u8>,
    told: &[u8],
    piece: &[u8],
) -> Result<(), AllocError> {
    let (count, _) = places(told, piece);
    push_number(alloc, text, count)?;
    text.extend_from_slice(b" times\n")
}

/// The lines of a text; after its last newline comes an empty one.
fn lines_of(alloc: Global, text: &[u8]) -> Result<Vec<&[u8]>, AllocError> {
    text.split(|byte| *byte == b'\n').collect(alloc)
}

/// A line as it is shown.
fn line_shown<'a>(line: Option<&&'a [u8]>) -> &'a [u8] {
    match line {
        Some(line) if !line.is_empty() => line,
        _ => b"nothing",
    }
}

/// Appends the first line that is not as wanted.
fn push_difference(
    alloc: Global,
    text: &mut Vec<u8>,
    got: &[&[u8]],
    wanted: &[&[u8]],
) -> Result<(), AllocError> {
    let same = got
        .iter()
        .zip(wanted.iter())
        .take_while(|(line, other)| line == other)
        .count();
    text.extend_from_slice(b"line ")?;
    push_number(alloc, text, same.saturating_add(1) as u64)?;
    text.extend_from_slice(b" is ")?;
    text.extend_from_slice(line_shown(got.get(same)))?;
    text.extend_from_slice(b" in place of ")?;
    text.extend_from_slice(line_shown(wanted.get(same)))?;
    text.extend_from_slice(b"\n")
}

/// Appends that what was told is as expected, or the first line that is not.
fn push_comparison(
    alloc: Global,
    text: &mut Vec<u8>,
    told: &[u8],
    expected: &[u8],
) -> Result<(), AllocError> {
    if told == expected {
        return text.extend_from_slice(b"as expected\n");
    }
    let got = lines_of(alloc, told)?;
    let wanted = lines_of(alloc, expected)?;
    let pushed = push_difference(alloc, text, got.as_slice(), wanted.as_slice());
    drop(got);
    drop(wanted);
    pushed
}

fn push_summary(
    alloc: Global,
    text: &mut Vec<u8>,
    told: &[u8],
    shown: &Shown,
) -> Result<(), AllocError> {
    match shown {
        Shown::All => text.extend_from_slice(told),
        Shown::Against(expected) => push_comparison(alloc, text, told, expected),
        Shown::Ends => push_ends_of(alloc, text, told),
        Shown::LastWith(piece) => push_last(alloc, text, told, piece),
        Shown::TimesWith(piece) => push_times(alloc, text, told, piece),
    }
}

/// What a row shows of what was told.
pub fn summarized(alloc: Global, told: &[u8], shown: &Shown) -> Result<Vec<u8>, AllocError> {
    let mut text = Vec::new(alloc);
    push_summary(alloc, &mut text, told, shown)?;
    Ok(text)
}
