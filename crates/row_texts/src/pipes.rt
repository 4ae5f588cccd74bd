//! A pipe, call by call.

ghost use Rattle.std.specs.Prelude.{◌≡◌, [], nat_le, true, IfOk};
ghost use Rattle.std.specs.List.{list_all};
ghost use Rattle.signal_link.specs.Pipes.{AreCuts};

use crate::fault::Fault;
use signal_link::{Got, Link, PipeLink, Sent};
use std::alloc::{AllocError, Global};

/// So many bytes a call receives at most.
const MOST_GIVEN: usize = 16;

/// Whether each is of at least one byte.
fn are_some(cuts: &[u32]) -> bool
    ensures { result ≡ list_all (nat_le 1) cuts.now }
{
    cuts.iter().all(|cut| 1 <= *cut)
}

/// Whether there is one, and each is of at least one byte.
fn are_cuts(cuts: &[u32]) -> bool
    ensures { result ≡ true → AreCuts cuts.now }
{
    0 < cuts.len() && are_some(cuts)
}

/// The number of bytes of this text.
fn cut_of(text: &str) -> Result<u32, Fault> {
    match text.parse() {
        Ok(number) => Ok(number),
        Err(_) => Err(Fault::NoRow),
    }
}

/// The cuts between the commas of a text.
pub fn cuts_of(alloc: Global, text: &str) -> Result<Vec<u32>, Fault>
    ensures { IfOk result (λ cuts. AreCuts cuts.items) }
{
    let cuts: Vec<u32> = text.split(',').map(cut_of).try_collect(alloc)?;
    if are_cuts(cuts.as_slice()) {
        Ok(cuts)
    } else {
        drop(cuts);
        Err(Fault::NoRow)
    }
}

/// Receives into a room of so many bytes, 16 at most, and appends what was given.
fn push_received(text: &mut Vec<u8>, pipe: &mut PipeLink, room: usize) -> Result<(), AllocError> {
    let mut held = [0u8; MOST_GIVEN];
    match pipe.receive(&mut held[..room.min(MOST_GIVEN)]) {
        Got::Gave(count) => {
            text.extend_from_slice(b"gave ")?;
            for byte in held.iter().take(count as usize) {
                text.push(*byte)?;
            }
            text.push(b'\n')?;
            Ok(())
        }
        Got::Failed => text.extend_from_slice(b"failed\n"),
    }
}

/// Sends a piece, and appends how much of it was taken.
fn push_sent(
    alloc: Global,
    text: &mut Vec<u8>,
    pipe: &mut PipeLink,
    piece: &[u8],
) -> Result<(), AllocError> {
    match pipe.send(piece) {
        Sent::Took(count) => {
            let took = format!(in alloc; "took {count}\n")?;
            text.extend_from_slice(took.as_bytes())
        }
        Sent::Failed => text.extend_from_slice(b"failed\n"),
    }
}

/// What a pipe answers to calls: a number receives so many bytes, at most 16, and any other word is sent.
pub fn calls_shown(alloc: Global, pipe: PipeLink, calls: &str) -> Result<Vec<u8>, AllocError> {
    let mut pipe = pipe;
    let mut text = Vec::new(alloc);
    for call in calls.split_ascii_whitespace() {
        match call.parse::<usize>() {
            Ok(room) => push_received(&mut text, &mut pipe, room)?,
            Err(_) => push_sent(alloc, &mut text, &mut pipe, call.as_bytes())?,
        }
    }
    Ok(text)
}

/// A pipe of this room, 1 if it is none, with these cuts and failing calls.
pub fn pipe_of(
    alloc: Global,
    room: u32,
    cuts: Vec<u32>,
    fails: Vec<u64>,
) -> Result<PipeLink, AllocError>
    requires { AreCuts cuts.items }
    ensures { IfOk result (λ pipe. pipe.way ≡ []) }
{
    PipeLink::new(alloc, room.max(1), cuts, fails)
}
