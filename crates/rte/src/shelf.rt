//! Real files, with standard input among them.

use rte_text::{Fetched, FileShelf, Shelf};
use std::alloc::Global;
use std::rt::Files;

/// The name under which a command asks for standard input, and the path that it has.
const INPUT: &str = "-";

const INPUT_PATH: &str = "/dev/stdin";

/// The files of the system, by path, and standard input under the name `-`.
#[derive(Drop)]
pub struct InputShelf<R> {
    files: FileShelf<R>,
}

impl<R: Files> InputShelf<R> {
    /// A shelf that reads through this handle.
    pub fn new(rt: R) -> InputShelf<R> {
        InputShelf {
            files: FileShelf::new(rt),
        }
    }
}

impl<R: Files> Shelf for InputShelf<R> {
    ghost use Rattle.std.specs.Prelude.{None};

    ghost files = { λ _. None };

    ghost faults = { λ s. s.files.faults };

    ghost long_files = { λ s. s.files.long_files };

    ghost fetches = { λ _. 0 };

    fn fetch(&mut self, alloc: Global, name: &str) -> Fetched {
        let path = if name == INPUT { INPUT_PATH } else { name };
        self.files.fetch(alloc, path)
    }
}
