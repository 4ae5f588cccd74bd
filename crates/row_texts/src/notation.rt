//! How a row writes long texts, and bytes that have no letter.
//!
//! `\n`, `\t`, `\r`, `\\` and `\xHH` stand for a byte, and `«N PIECE»` stands for the piece N times over.

use crate::fault::Fault;
use std::alloc::{AllocError, Global};

/// What a `#` in a repeated piece stands for.
#[derive(Clone, Copy)]
pub enum HashSign {
    /// The number of the repetition, counted from 0.
    Number,
    /// A `#`.
    Itself,
}

/// The byte of an escape, which is read from behind its backslash, and what comes after it.
fn read_escape(part: &str) -> Option<(u8, &str)> {
    for (letter, byte) in [('n', b'\n'), ('t', b'\t'), ('r', b'\r')] {
        if let Some(rest) = part.strip_prefix(letter) {
            return Some((byte, rest));
        }
    }
    let (digits, rest) = part.strip_prefix('x')?.split_at_checked(2)?;
    Some((u8::from_str_radix(digits, 16).ok()?, rest))
}

/// Appends the bytes of an escape and of what comes after it.
fn push_escape(bytes: &mut Vec<u8>, part: &str) -> Result<(), Fault> {
    let Some((byte, rest)) = read_escape(part) else {
        return Err(Fault::NoText);
    };
    bytes.push(byte)?;
    bytes.extend_from_slice(rest.as_bytes())?;
    Ok(())
}

/// Appends the bytes of a text that has no repetition and no two backslashes in a row.
fn push_unescaped(bytes: &mut Vec<u8>, text: &str) -> Result<(), Fault> {
    let mut parts = text.split('\\');
    bytes.extend_from_slice(parts.next().unwrap_or("").as_bytes())?;
    for part in parts {
        push_escape(bytes, part)?;
    }
    Ok(())
}

/// Appends the bytes of a text that has no repetition.
fn push_text(bytes: &mut Vec<u8>, text: &str) -> Result<(), Fault> {
    let mut parts = text.split(r"\\");
    push_unescaped(bytes, parts.next().unwrap_or(""))?;
    for part in parts {
        bytes.push(b'\\')?;
        push_unescaped(bytes, part)?;
    }
    Ok(())
}

fn push_number(alloc: Global, bytes: &mut Vec<u8>, number: u32) -> Result<(), AllocError> {
    let digits = number.to_string(alloc)?;
    bytes.extend_from_slice(digits.as_bytes())
}

/// Appends a piece with the number for each `#`.
fn push_numbered(
    alloc: Global,
    bytes: &mut Vec<u8>,
    piece: &str,
    number: u32,
) -> Result<(), Fault> {
    let mut parts = piece.split('#');
    push_text(bytes, parts.next().unwrap_or(""))?;
    for part in parts {
        push_number(alloc, bytes, number)?;
        push_text(bytes, part)?;
    }
    Ok(())
}

/// Appends `N PIECE`.
fn push_repetition(
    alloc: Global,
    bytes: &mut Vec<u8>,
    text: &str,
    sign: HashSign,
) -> Result<(), Fault> {
    let Some((count, piece)) = text.split_once(' ') else {
        return Err(Fault::NoText);
    };
    let Ok(count) = count.parse() else {
        return Err(Fault::NoText);
    };
    let count: u32 = count;
    for number in 0..count {
        match sign {
            HashSign::Number => push_numbered(alloc, bytes, piece, number)?,
            HashSign::Itself => push_text(bytes, piece)?,
        }
    }
    Ok(())
}

/// Appends `N PIECE` and what comes after its end.
fn push_part(alloc: Global, bytes: &mut Vec<u8>, part: &str, sign: HashSign) -> Result<(), Fault> {
    let Some((repetition, rest)) = part.split_once('»') else {
        return Err(Fault::NoText);
    };
    push_repetition(alloc, bytes, repetition, sign)?;
    push_text(bytes, rest)
}

/// Appends the bytes that a text stands for.
pub fn push_expanded(
    alloc: Global,
    bytes: &mut Vec<u8>,
    text: &str,
    sign: HashSign,
) -> Result<(), Fault> {
    let mut parts = text.split('«');
    push_text(bytes, parts.next().unwrap_or(""))?;
    for part in parts {
        push_part(alloc, bytes, part, sign)?;
    }
    Ok(())
}

/// The bytes that a text stands for.
pub fn expanded(alloc: Global, text: &str, sign: HashSign) -> Result<Vec<u8>, Fault> {
    let mut bytes = Vec::new(alloc);
    push_expanded(alloc, &mut bytes, text, sign)?;
    Ok(bytes)
}
