//! The numbers by which shared instructions name the accesses of a signature.

ghost use Rattle.std.specs.Prelude.{◌≡◌, ◌<◌, ◌^◌, IfOk};
ghost use Rattle.runnable_lang.specs.declared.program.AccessKind.{AccessKind};
ghost use Rattle.task_generator.specs.Numbers.{counted, numbers};
ghost use Rattle.task_generator.specs.Counts.{count_of};

use crate::Memory;
use implicit_buffers::{is_read_early, is_written_late};
use runnable_lang::{AccessKind, AccessSig};
use std::alloc::Global;

/// The next number of an access, of one that fetches, and of one that publishes.
#[derive(Clone, Copy)]
pub struct Counts {
    pub all: usize,
    pub fetched: usize,
    pub published: usize,
}

impl Counts {
    /// The next number of an access of this kind.
    fn of(&self, kind: AccessKind) -> usize
        ensures { result ≡ count_of self.now kind }
    {
        if is_read_early(kind) {
            self.fetched
        } else if is_written_late(kind) {
            self.published
        } else {
            self.all
        }
    }

    /// One more access, of this kind.
    fn add(&mut self, kind: AccessKind)
        requires all { self.old.all < 2 ^ 63 }
        requires fetched { self.old.fetched < 2 ^ 63 }
        requires published { self.old.published < 2 ^ 63 }
        ensures { (k : AccessKind) → count_of self.new k ≡ counted kind (count_of self.old) k }
    {
        self.all += 1;
        self.fetched += is_read_early(kind) as usize;
        self.published += is_written_late(kind) as usize;
    }
}

/// The numbers of accesses: those that fetch are counted among themselves, those that publish too, and the others among all. The
/// first one is number 1.
pub fn numbers_of(alloc: Global, accesses: &[AccessSig]) -> Result<Vec<usize>, Memory>
    ensures { IfOk result (λ found. found.items ≡ numbers accesses.now) }
{
    let mut found = Vec::new(alloc);
    let mut counts = Counts {
        all: 1,
        fetched: 1,
        published: 1,
    };
    for access in accesses {
        found.push(counts.of(access.kind))?;
        counts.add(access.kind);
    }
    Ok(found)
}
