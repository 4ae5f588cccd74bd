//! The limits of a script.

ghost use Rattle.std.specs.Prelude.{◌≡◌, ◌+◌, ◌≤◌, IfSome, IfNone, true, false};
ghost use Rattle.script_reading.specs.Limits.{are_too_many, runs_said, ticks_said};
ghost use Rattle.script_reading.specs.Pieces.{AreCountedWith, IsJudged, saying_of};

use crate::counts::Counts;
use crate::line::Said;
use bus_semantics::Line;

/// The cause of a line that passes a limit.
pub const TOO_MANY: u8 = 4;

/// The most lines of a script, ticks in all, and run lines.
const MOST_LINES: u64 = 100_000;

const MOST_TICKS: u64 = 1_000_000;

const MOST_RUNS: u64 = 1_000;

fn ticks_said(said: &Said) -> u64
    ensures ticks { result ≡ ticks_said (saying_of said.now) }
    ensures small { result ≤ 4294967295 }
{
    match said {
        Said::Line(Line::Tick(count)) => *count as u64,
        _ => 0,
    }
}

fn runs_said(said: &Said) -> u64
    ensures { result ≡ runs_said (saying_of said.now) }
{
    match said {
        Said::Line(Line::Run) => 1,
        _ => 0,
    }
}

impl Counts {
    /// With this line too. None if it passes a limit.
    fn and(&self, said: &Said) -> Option<Counts>
        ensures some { IfSome result (λ more. (are_too_many more.lines more.ticks more.runs ≡ false) × AreCountedWith self.now (saying_of said.now) more) }
        ensures none { IfNone result (are_too_many (self.now.lines + 1) (self.now.ticks + ticks_said (saying_of said.now)) (self.now.runs + runs_said (saying_of said.now)) ≡ true) }
    {
        let lines = self.lines + 1;
        let ticks = self.ticks + ticks_said(said);
        let runs = self.runs + runs_said(said);
        if MOST_LINES < lines || MOST_TICKS < ticks || MOST_RUNS < runs {
            return None;
        }
        Some(Counts { lines, ticks, runs })
    }

    /// With this line too; or its least cause, if it is bad.
    pub fn judge(&self, said: &Said) -> Result<Counts, u8>
        ensures { IsJudged self.now (saying_of said.now) result }
    {
        if let Said::Bad(cause) = said {
            return Err(*cause);
        }
        match self.and(said) {
            Some(more) => Ok(more),
            None => Err(TOO_MANY),
        }
    }
}
