//! How a trace is written, line by line.

ghost use Rattle.std.specs.Prelude.{◌++◌};
ghost use Rattle.rte_text.specs.Sinks.{SinkFaultsAfter, ToldAfter};

use bus_semantics::Version;
use rte_text::{Put, Sink};

/// How the lines of a trace are written: in the spelling of a version, each behind a prefix. If two nodes share an output, the prefix
/// says whose line it is.
#[derive(Clone, Copy)]
pub struct Writing {
    pub version: Version,
    pub prefix: &'static [u8],
}

impl Writing {
    ghost use Rattle.std.specs.Prelude.{◌≡◌, []};

    /// Lines in the spelling of the version, with nothing before them.
    pub fn plain(version: Version) -> Writing
        ensures version { result.version ≡ version }
        ensures prefix { result.prefix.now ≡ [] }
    {
        Writing {
            version,
            prefix: b"",
        }
    }
}

/// Puts a line behind a prefix: in two puts, or in one if the prefix is empty.
pub fn put_behind<K: Sink>(out: &mut K, prefix: &[u8], line: &[u8]) -> Put
    ensures told { ToldAfter result (K.told out.old) (K.told out.new) (prefix.now ++ line.now) }
    ensures faults { SinkFaultsAfter result (K.faults out.old) (K.faults out.new) }
{
    if prefix.is_empty() {
        return out.put(line);
    }
    match out.put(prefix) {
        Put::Done => out.put(line),
        Put::Failed => Put::Failed,
    }
}
