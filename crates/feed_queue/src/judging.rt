//! Whether a line of stimuli is good behind those before it.

ghost use Rattle.std.specs.Prelude.{◌≡◌, ◌+◌, ◌≤◌, ◌||◌, IfSome, IfNone, true, false};
ghost use Rattle.feed_queue.specs.Heard.{heard_as};
ghost use Rattle.feed_queue.specs.Progress.{IsJudged, IsWith};
ghost use Rattle.feed_queue.specs.Reading.{are_too_many, how_many, is_stop};

use crate::heard::{Gift, Heard};
use crate::hearing::NO_FORM;
use crate::progress::Progress;

/// The cause of a line that passes a limit.
const TOO_MANY: u8 = 4;

/// The most lines, and the most wishes in all.
const MOST_LINES: u64 = 100_000;

const MOST_WISHES: u64 = 65_536;

/// How many wishes a line gives.
fn how_many(heard: &Heard) -> u64
    ensures wishes { result ≡ how_many (heard_as heard.now) }
    ensures small { result ≤ 4294967295 }
{
    match heard {
        Heard::Feed(_, Gift::Ticks(count)) => *count as u64,
        Heard::Feed(_, Gift::Call(_)) => 1,
        _ => 0,
    }
}

/// Whether the line says that the stimuli stop.
fn is_stop(heard: &Heard) -> bool
    ensures { result ≡ is_stop (heard_as heard.now) }
{
    matches!(heard, Heard::Stop)
}

impl Progress {
    /// With this line too. None if it passes a limit.
    fn and(&self, heard: &Heard) -> Option<Progress>
        ensures some { IfSome result (λ more. (are_too_many more.lines more.wishes ≡ false) × IsWith self.now (heard_as heard.now) more) }
        ensures none { IfNone result (are_too_many (self.now.lines + 1) (self.now.wishes + how_many (heard_as heard.now)) ≡ true) }
    {
        let lines = self.lines + 1;
        let wishes = self.wishes + how_many(heard);
        if MOST_LINES < lines || MOST_WISHES < wishes {
            return None;
        }
        Some(Progress {
            lines,
            wishes,
            stopped: self.stopped || is_stop(heard),
        })
    }

    /// With this line too; or its least cause, if it is bad.
    pub(crate) fn judge(&self, heard: &Heard) -> Result<Progress, u8>
        ensures { IsJudged self.now (heard_as heard.now) result }
    {
        if self.stopped {
            return Err(NO_FORM);
        }
        if let Heard::Bad(cause) = heard {
            return Err(*cause);
        }
        match self.and(heard) {
            Some(more) => Ok(more),
            None => Err(TOO_MANY),
        }
    }
}
