//! A shelf in memory, which fails where it is told to.

ghost use Rattle.std.specs.Prelude.{◌≡◌, find, bytes_eq, string_bytes, option_copied};

use crate::{FILE_LIMIT, Fetched, Shelf};
use std::alloc::Global;
use std::marker::Model;

/// Files in memory, and the calls that fail, numbered from 0 in the order of calls.
///
/// Of two files with one name the first is held.
#[derive(Debug, Drop)]
pub struct MemoryShelf {
    held: Vec<(String, Vec<u8>)>,
    fails: Vec<u64>,
    calls: u64,
    faults: u64,
    long_files: u64,
}

impl Model for MemoryShelf {
    ghost use Rattle.std.specs.Prelude.{map, string_bytes};
    ghost use Rattle.rte_text.specs.MemoryShelves.{HeldFiles};

    ghost Value = { HeldFiles };

    ghost view = { λ s. record {
      files = map (λ file. (string_bytes file.0, file.1.items)) s.held.items;
      fails = s.fails.items;
      calls = s.calls;
      faults = s.faults;
      long_files = s.long_files;
    } };
}

/// The first of these files that has this name.
fn first_named<'a>(files: &'a [(String, Vec<u8>)], name: &str) -> Option<&'a (String, Vec<u8>)>
    ensures { option_copied result ≡ find (λ file. bytes_eq (string_bytes file.0) name.now) files.now }
{
    files.iter().find(|file| file.0.as_str() == name)
}

impl MemoryShelf {
    ghost use Rattle.std.specs.Prelude.{map};
    ghost use Rattle.rte_text.specs.MemoryShelves.{file_named, Answers, counted};

    /// A shelf of these files, no call of which was made yet. The calls of these numbers will fail.
    pub fn new(files: Vec<(String, Vec<u8>)>, fails: Vec<u64>) -> MemoryShelf
        ensures files { result.files ≡ map (λ file. (string_bytes file.0, file.1.items)) files.items }
        ensures fails { result.fails ≡ fails.items }
        ensures calls { result.calls ≡ 0 }
        ensures faults { result.faults ≡ 0 }
        ensures long_files { result.long_files ≡ 0 }
    {
        MemoryShelf {
            held: files,
            fails,
            calls: 0,
            faults: 0,
            long_files: 0,
        }
    }

    /// The bytes held under this name.
    fn held_under(&self, name: &str) -> Option<&[u8]>
        ensures { option_copied result ≡ file_named self.now.files name.now }
    {
        let (_, bytes) = first_named(self.held.as_slice(), name)?;
        Some(bytes.as_slice())
    }

    /// The answer to the next call.
    fn answer(&self, alloc: Global, name: &str) -> Fetched
        ensures { Answers self.now name.now result }
    {
        if self.fails.as_slice().contains(&self.calls) {
            return Fetched::Failed;
        }
        let Some(bytes) = self.held_under(name) else {
            return Fetched::Failed;
        };
        if bytes.len() > FILE_LIMIT {
            return Fetched::TooLong;
        }
        match Vec::from_slice(alloc, bytes) {
            Ok(copy) => Fetched::Bytes(copy),
            Err(_) => Fetched::Memory,
        }
    }

    /// Counts a call with this answer.
    fn count(&mut self, answer: &Fetched)
        ensures { self.new ≡ counted self.old answer.now }
    {
        self.calls = self.calls.saturating_add(1);
        match answer {
            Fetched::Failed => self.faults = self.faults.saturating_add(1),
            Fetched::TooLong => self.long_files = self.long_files.saturating_add(1),
            Fetched::Bytes(_) | Fetched::Memory => {}
        }
    }
}

impl Shelf for MemoryShelf {
    ghost use Rattle.std.specs.Prelude.{Some};
    ghost use Rattle.rte_text.specs.MemoryShelves.{file_named, Answers, counted};

    ghost files = { λ s. Some (file_named s.files) };

    ghost faults = { λ s. s.faults };

    ghost long_files = { λ s. s.long_files };

    ghost fetches = { λ s. s.calls };

    fn fetch(&mut self, alloc: Global, name: &str) -> Fetched
        ensures answer { Answers self.old name.now result }
        ensures counted { self.new ≡ counted self.old result }
    {
        let answer = self.answer(alloc, name);
        self.count(&answer);
        answer
    }
}
