//! What is counted.

ghost use Rattle.std.specs.Prelude.{◌≡◌};

/// What a line of a trace counts as.
#[derive(Clone, Copy, Debug, PartialEq, Eq)]
pub(crate) enum Mark {
    /// A run line begins.
    Run,
    /// A run line closes with `idle`.
    Idle,
    /// A Send that a queue did not refuse.
    Sent,
    /// A Send that the limit of a queue refused: code 130.
    SentAtLimit,
    /// A Receive that took a value: code 0 or 64.
    Taken,
    /// An Ask that was accepted: code 0.
    Asked,
    /// An Ask that a limit refused: code 130.
    AskedAtLimit,
    /// An Answer of code 0.
    Answered,
    /// Any other line.
    Other,
}

/// How many things a trace tells. Each count stands at its last value, 2^32 - 1.
#[derive(Clone, Copy, Debug, PartialEq, Eq)]
pub struct Numbers {
    /// Run lines.
    pub runs: u32,
    /// Run lines that closed with `idle`.
    pub idle: u32,
    /// Sends, whatever their code.
    pub sends: u32,
    /// Receives that took a value.
    pub taken: u32,
    /// Sends and Asks that a limit refused.
    pub limits: u32,
    /// Asks that were accepted.
    pub asks: u32,
    /// Answers of code 0.
    pub answers: u32,
}

impl Numbers {
    ghost use Rattle.trace_counts.specs.Numbers.{counted, no_numbers};

    /// The numbers of an empty text.
    pub(crate) fn none() -> Numbers
        ensures { result ≡ no_numbers }
    {
        Numbers {
            runs: 0,
            idle: 0,
            sends: 0,
            taken: 0,
            limits: 0,
            asks: 0,
            answers: 0,
        }
    }

    /// Counts a line.
    pub(crate) fn count(&mut self, mark: Mark)
        ensures { self.new ≡ counted mark self.old }
    {
        match mark {
            Mark::Run => self.runs = self.runs.saturating_add(1),
            Mark::Idle => self.idle = self.idle.saturating_add(1),
            Mark::Sent => self.sends = self.sends.saturating_add(1),
            Mark::SentAtLimit => {
                self.sends = self.sends.saturating_add(1);
                self.limits = self.limits.saturating_add(1);
            }
            Mark::Taken => self.taken = self.taken.saturating_add(1),
            Mark::Asked => self.asks = self.asks.saturating_add(1),
            Mark::AskedAtLimit => self.limits = self.limits.saturating_add(1),
            Mark::Answered => self.answers = self.answers.saturating_add(1),
            Mark::Other => {}
        }
    }
}
