//! The files that a command reads.

ghost use Rattle.std.specs.Prelude.{◌≡◌, ◌≤◌, ◌<◌, length, map, IfErr, IfOk, OnOk};
ghost use Rattle.rte_text.specs.Shelves.{HeldWhereTold};
ghost use Rattle.commands.specs.Fetching.{counts_of, AreHeldWhereTold, AreWithin, IsFetched, IsOneUnfetched, IsUnfetched};

use crate::stop::Stop;
use rte_text::{Fetched, Shelf};
use std::alloc::Global;

/// The bytes of the file of this name. `place` is its place among those that the command reads.
fn fetch_one<S: Shelf>(alloc: Global, shelf: &mut S, name: &str, place: u8) -> Result<Vec<u8>, Stop>
    ensures files_stay { S.files shelf.new ≡ S.files shelf.old }
    ensures fetched { IsFetched (S.files shelf.old) (S.fetches shelf.old) (S.fetches shelf.new) }
    ensures held { IfOk result (λ file. HeldWhereTold (S.files shelf.old) name.now file.items) }
    ensures within { IfOk result (λ file. length file.items ≤ 8388608) }
    ensures counts { OnOk result (counts_of (S.faults shelf.new) (S.long_files shelf.new) ≡
        counts_of (S.faults shelf.old) (S.long_files shelf.old)) }
    ensures stopped { IfErr result (IsOneUnfetched (S.files shelf.old) name.now place
        (counts_of (S.faults shelf.old) (S.long_files shelf.old))
        (counts_of (S.faults shelf.new) (S.long_files shelf.new))) }
{
    match shelf.fetch(alloc, name) {
        Fetched::Bytes(bytes) => Ok(bytes),
        Fetched::Failed => Err(Stop::NotRead { place }),
        Fetched::TooLong => Err(Stop::NotRead { place }),
        Fetched::Memory => Err(Stop::Memory),
    }
}

/// The bytes of the files of these names, at most 255, fetched in their order up to the first that cannot be had.
pub fn fetch_all<S: Shelf>(
    alloc: Global,
    shelf: &mut S,
    names: &[&str],
) -> Result<Vec<Vec<u8>>, Stop>
    requires few { length names.now < 256 }
    ensures files_stay { S.files shelf.new ≡ S.files shelf.old }
    ensures held { IfOk result (λ files. AreHeldWhereTold (S.files shelf.old) (map (λ name. name.now) names.now)
        (map (λ file. file.items) files.items)) }
    ensures within { IfOk result (λ files. AreWithin (map (λ file. file.items) files.items)) }
    ensures counts { OnOk result (counts_of (S.faults shelf.new) (S.long_files shelf.new) ≡
        counts_of (S.faults shelf.old) (S.long_files shelf.old)) }
    ensures stopped { IfErr result (IsUnfetched (S.files shelf.old) (map (λ name. name.now) names.now)
        (counts_of (S.faults shelf.old) (S.long_files shelf.old))
        (counts_of (S.faults shelf.new) (S.long_files shelf.new))
        (S.fetches shelf.old) (S.fetches shelf.new)) }
{
    let mut files = Vec::new(alloc);
    let mut place = 0u8;
    for name in names {
        place += 1;
        match fetch_one(alloc, shelf, name, place) {
            Ok(file) => {
                if files.push(file).is_err() {
                    return Err(Stop::Memory);
                }
            }
            Err(stop) => return Err(stop),
        }
    }
    Ok(files)
}
