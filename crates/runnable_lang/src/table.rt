//! A signature's accesses, with hints where each one stands.

ghost use Rattle.std.specs.Prelude.{◌≡◌, IfOk, IfSome, length};
ghost use Rattle.std.specs.List.{IsAmong};
ghost use Rattle.runnable_lang.specs.Accesses.{kind_number};

use crate::program::{AccessKind, AccessSig};
use std::alloc::{AllocError, Global};

/// A kind's number, a port and an item.
pub type Key = (u8, u32, u32);

/// The number of a kind, in the order of the kinds.
pub fn number(kind: AccessKind) -> u8
    ensures { result ≡ kind_number kind }
{
    kind as u8
}

/// The accesses of a signature, and where each key stands among them, in the order of the keys. No
/// answer rests on these hints: they only spare most statements a look at all accesses.
#[derive(Drop)]
pub struct Table<'a> {
    pub accesses: &'a [AccessSig],
    hints: Vec<(Key, usize)>,
}

impl Table<'_> {
    /// A table of the accesses. Without memory it has no hints.
    pub fn new(alloc: Global, accesses: &[AccessSig]) -> Table<'_>
        ensures { result.accesses.now ≡ accesses.now }
    {
        match hints_of(alloc, accesses) {
            Ok(hints) => Table { accesses, hints },
            Err(_) => {
                let hints = Vec::new(alloc);
                Table { accesses, hints }
            }
        }
    }

    /// One of the accesses, with this key if the hints have one.
    pub fn hinted(&self, key: Key) -> Option<&AccessSig>
        ensures { IfSome result (λ access. IsAmong self.now.accesses.now access.now) }
    {
        let first = self.hints.partition_point(|hint| hint.0 < key);
        let hint = self.hints.get(first)?;
        self.accesses.get(hint.1)
    }
}

/// The key and the position of each access, in the order of the keys.
fn hints_of(alloc: Global, accesses: &[AccessSig]) -> Result<Vec<(Key, usize)>, AllocError>
    ensures { IfOk result (λ hints. length hints.items ≡ length accesses.now) }
{
    let mut hints = Vec::new(alloc);
    for (position, access) in accesses.iter().enumerate() {
        let key = (number(access.kind), access.port, access.item);
        hints.push((key, position))?;
    }
    hints.sort()?;
    Ok(hints)
}
