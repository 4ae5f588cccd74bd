//! How far a script has been read.

ghost use Rattle.std.specs.Prelude.{◌≤◌};

/// How many lines were read, and their ticks and run lines.
#[derive(Clone, Copy)]
pub struct Counts {
    pub lines: u64,
    pub ticks: u64,
    pub runs: u64,
    ghost some_lines: { lines ≤ 100000 },
    ghost some_ticks: { ticks ≤ 1000000 },
    ghost some_runs: { runs ≤ 1000 },
}

impl Counts {
    ghost use Rattle.std.specs.Prelude.{◌≡◌};

    /// The counts before any line.
    pub fn none() -> Counts
        ensures lines { result.lines ≡ 0 }
        ensures ticks { result.ticks ≡ 0 }
        ensures runs { result.runs ≡ 0 }
    {
        Counts {
            lines: 0,
            ticks: 0,
            runs: 0,
        }
    }
}
