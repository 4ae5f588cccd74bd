//! The edits of a description.

use crate::fault::Fault;
use crate::notation::{HashSign, expanded, push_expanded};
use std::alloc::{AllocError, Global};

/// What comes before the piece and what comes after it, at each place where it stands.
fn places_of<'a>(
    alloc: Global,
    text: &'a [u8],
    piece: &[u8],
) -> Result<Vec<(&'a [u8], &'a [u8])>, AllocError> {
    let mut places = Vec::new(alloc);
    for at in 0..text.len() {
        let (before, rest) = text.split_at(at);
        if let Some(after) = rest.strip_prefix(piece) {
            places.push((before, after))?;
        }
    }
    Ok(places)
}

/// The two sides of an edit. The second may be empty, with no space before it.
fn sides(edit: &str) -> Option<(&str, &str)> {
    match edit.split_once(" => ") {
        Some(sides) => Some(sides),
        None => Some((edit.strip_suffix(" =>")?, "")),
    }
}

/// The fault that the text of an edit stands so often.
fn stands(alloc: Global, from: &str, count: usize) -> Fault {
    match String::from_str(alloc, from) {
        Ok(from) => Fault::Stands { from, count },
        Err(memory) => Fault::Memory(memory),
    }
}

/// The one place of the first text of an edit.
fn one_of<'a>(
    alloc: Global,
    places: &[(&'a [u8], &'a [u8])],
    from: &str,
) -> Result<(&'a [u8], &'a [u8]), Fault> {
    match places {
        &[place] => Ok(place),
        _ => Err(stands(alloc, from, places.len())),
    }
}

/// What comes before the first text of an edit and what comes after it.
fn place_of<'a>(
    alloc: Global,
    description: &'a [u8],
    from: &str,
) -> Result<(&'a [u8], &'a [u8]), Fault> {
    let piece = expanded(alloc, from, HashSign::Itself)?;
    let places = places_of(alloc, description, piece.as_slice());
    drop(piece);
    let places = places?;
    one_of(alloc, places.as_slice(), from)
}

/// Appends the description after one edit.
fn push_edited(
    alloc: Global,
    edited: &mut Vec<u8>,
    description: &[u8],
    edit: &str,
) -> Result<(), Fault> {
    let Some((from, to)) = sides(edit) else {
        return Err(Fault::NoEdit);
    };
    let (before, after) = place_of(alloc, description, from)?;
    edited.extend_from_slice(before)?;
    push_expanded(alloc, edited, to, HashSign::Number)?;
    edited.extend_from_slice(after)?;
    Ok(())
}

/// The description after the edits, each made to what the earlier ones left.
pub fn edited(alloc: Global, description: Vec<u8>, edits: &str) -> Result<Vec<u8>, Fault> {
    let mut edited = description;
    for edit in edits.split(" ;; ") {
        let mut next = Vec::new(alloc);
        push_edited(alloc, &mut next, edited.as_slice(), edit)?;
        edited = next;
    }
    Ok(edited)
}
