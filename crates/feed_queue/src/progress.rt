//! How far stimuli have been read.

ghost use Rattle.std.specs.Prelude.{◌≤◌};

/// How many lines were read, how many wishes they give, and whether one was a stop.
#[derive(Clone, Copy)]
pub struct Progress {
    pub lines: u64,
    pub wishes: u64,
    pub stopped: bool,
    ghost some_lines: { lines ≤ 100000 },
    ghost some_wishes: { wishes ≤ 65536 },
}

impl Progress {
    ghost use Rattle.std.specs.Prelude.{◌≡◌, false};

    /// The progress before any line.
    pub fn none() -> Progress
        ensures lines { result.lines ≡ 0 }
        ensures wishes { result.wishes ≡ 0 }
        ensures stopped { result.stopped ≡ false }
    {
        Progress {
            lines: 0,
            wishes: 0,
            stopped: false,
        }
    }
}
