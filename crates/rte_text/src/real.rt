//! The shelf of real files and the sink of standard output: the edge to the system.
//!
//! What the system gives and takes is known to no clause, so they tell no files and no bytes.

ghost use Rattle.std.specs.Prelude.{◌≡◌, ◌<◌, ◌≤◌, length, IfSome};
ghost use Rattle.std.specs.Io.KnownBytes.{Appends};
ghost use Rattle.rte_text.specs.Shelves.{IfBytes, OnTooLong};
ghost use Rattle.rte_text.specs.Sinks.{TakesPiece};

use crate::{FILE_LIMIT, Fetched, Put, Shelf, Sink};
use std::alloc::Global;
use std::fs;
use std::io::{self, Print, Read, Write};
use std::marker::Model;
use std::rt::Files;

/// How many bytes are read at once.
const CHUNK: usize = 4_096;

/// Reads to the end, which is where a read gives nothing, or until more than `FILE_LIMIT` bytes came. If the bytes of the reader
/// are known and within the limit, it gives all of them.
fn read_to_end<F: Read>(alloc: Global, file: &mut F) -> Fetched
    ensures within_limit { IfBytes result (λ bytes. length bytes ≤ 8388608) }
    ensures whole { IfBytes result (λ bytes. IfSome (F.remaining file.old) (λ rest. bytes ≡ rest)) }
    ensures long { OnTooLong result (IfSome (F.remaining file.old) (λ rest. 8388608 < length rest)) }
{
    let mut bytes = Vec::new(alloc);
    let mut chunk = [0; CHUNK];
    for _ in 0..u64::MAX {
        let Ok(count) = file.read(&mut chunk) else {
            return Fetched::Failed;
        };
        if count == 0 {
            return Fetched::Bytes(bytes);
        }
        if count > FILE_LIMIT - bytes.len() {
            return Fetched::TooLong;
        }
        if bytes.extend_from_slice(&chunk[..count]).is_err() {
            return Fetched::Memory;
        }
    }
    Fetched::Failed
}

/// Writes the piece to its end. A writer that takes nothing is a fault. At a fault the writer took a prefix of it.
fn write_to_end<W: Write>(out: &mut W, piece: &[u8]) -> Put
    ensures { TakesPiece result (W.contents out.old) (W.contents out.new) piece.now }
{
    let mut rest = piece;
    for _ in 0..u64::MAX {
        if rest.is_empty() {
            return Put::Done;
        }
        let Ok(count) = out.write(rest) else {
            return Put::Failed;
        };
        if count == 0 {
            return Put::Failed;
        }
        rest = &rest[count..];
    }
    Put::Failed
}

/// The files of the system, by path, seen as its two counts.
#[derive(Drop)]
pub struct FileShelf<R> {
    rt: R,
    faults: u64,
    long_files: u64,
}

impl<R> Model for FileShelf<R> {
    ghost use Rattle.rte_text.specs.Shelves.{ShelfCounts};

    ghost Value = { ShelfCounts };

    ghost view = { λ s. record { faults = s.faults; long_files = s.long_files } };
}

impl<R: Files> FileShelf<R> {
    /// A shelf that reads through this handle, with both counts at 0.
    pub fn new(rt: R) -> FileShelf<R>
        ensures faults { result.faults ≡ 0 }
        ensures long_files { result.long_files ≡ 0 }
    {
        FileShelf {
            rt,
            faults: 0,
            long_files: 0,
        }
    }

    /// The bytes of the file at this path.
    fn read(&self, alloc: Global, path: &str) -> Fetched
        ensures { IfBytes result (λ bytes. length bytes ≤ 8388608) }
    {
        match fs::open(&self.rt, path) {
            Ok(mut file) => read_to_end(alloc, &mut file),
            Err(_) => Fetched::Failed,
        }
    }
}

impl<R: Files> Shelf for FileShelf<R> {
    ghost use Rattle.std.specs.Prelude.{None};

    ghost files = { λ _. None };

    ghost faults = { λ s. s.faults };

    ghost long_files = { λ s. s.long_files };

    ghost fetches = { λ _. 0 };

    fn fetch(&mut self, alloc: Global, name: &str) -> Fetched {
        let answer = self.read(alloc, name);
        match &answer {
            Fetched::Failed => self.faults = self.faults.saturating_add(1),
            Fetched::TooLong => self.long_files = self.long_files.saturating_add(1),
            Fetched::Bytes(_) | Fetched::Memory => {}
        }
        answer
    }
}

/// Standard output, seen as its count of faults.
#[derive(Drop)]
pub struct StdSink<R> {
    rt: R,
    faults: u64,
}

impl<R> Model for StdSink<R> {
    ghost use Rattle.std.specs.Prelude.{ℕ};

    ghost Value = { ℕ };

    ghost view = { λ s. s.faults };
}

impl<R: Print> StdSink<R> {
    /// A sink that writes through this handle, with its count at 0.
    pub fn new(rt: R) -> StdSink<R>
        ensures { result ≡ 0 }
    {
        StdSink { rt, faults: 0 }
    }
}

impl<R: Print> Sink for StdSink<R> {
    ghost use Rattle.std.specs.Prelude.{None};

    ghost told = { λ _. None };

    ghost faults = { λ s. s };

    fn put(&mut self, piece: &[u8]) -> Put {
        let answer = write_to_end(&mut io::writer(&self.rt), piece);
        if let Put::Failed = answer {
            self.faults = self.faults.saturating_add(1);
        }
        answer
    }
}
