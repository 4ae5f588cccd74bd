//! Where files come from.

use std::alloc::Global;

/// How many bytes a file may have: 8 MiB.
pub const FILE_LIMIT: usize = 8_388_608;

/// What a shelf answers to a fetch.
#[derive(Debug, Drop, PartialEq, Eq)]
pub enum Fetched {
    /// All bytes of the file, at most `FILE_LIMIT`.
    Bytes(Vec<u8>),
    /// The file is missing, or it could not be read.
    Failed,
    /// The file has more than `FILE_LIMIT` bytes.
    TooLong,
    /// There was no memory for the bytes.
    Memory,
}

/// Where files come from: a folder, or memory.
///
/// A shelf counts its faults and the files that it found too long; each count stands at its last
/// value, 2^64 - 1. A shelf may tell its files, and then it counts its fetches too.
pub trait Shelf {
    ghost use Rattle.std.specs.Prelude.{◌≡◌, ℕ, ◌+◌, ◌<◌, ◌≤◌, length, OnSome};
    ghost use Rattle.rte_text.specs.Counts.{last_count};
    ghost use Rattle.rte_text.specs.Shelves.{ToldFiles, IfBytes, OnTooLong, FaultsAfter, LongFilesAfter, HeldWhereTold, LongWhereTold, FailsWhereMissing};

    ghost files: { Self → ToldFiles };

    ghost faults: { Self → ℕ };

    ghost long_files: { Self → ℕ };

    ghost fetches: { Self → ℕ };

    /// The bytes of the file of this name. A missing name is a fault, as is a read that fails. There are at most 8,388,608 of
    /// them; if the shelf tells its files, they are those held under the name. `Failed` and `TooLong` come only if their count
    /// rose. Files stay, and counts never fall.
    fn fetch(&mut self, alloc: Global, name: &str) -> Fetched
        ensures files_stay { files self.new ≡ files self.old }
        ensures faults_never_fall { faults self.old ≤ faults self.new }
        ensures faults { FaultsAfter result (faults self.old) (faults self.new) }
        ensures long_files_never_fall { long_files self.old ≤ long_files self.new }
        ensures long_files { LongFilesAfter result (long_files self.old) (long_files self.new) }
        ensures within_limit { IfBytes result (λ bytes. length bytes ≤ 8388608) }
        ensures held { IfBytes result (HeldWhereTold (files self.old) name.now) }
        ensures long { OnTooLong result (LongWhereTold (files self.old) name.now) }
        ensures missing { FailsWhereMissing (files self.old) name.now result }
        ensures counted { OnSome (files self.old) (fetches self.old < last_count → fetches self.new ≡ fetches self.old + 1) };
}
