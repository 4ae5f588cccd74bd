//! One countdown.

ghost use Rattle.std.specs.Prelude.{◌≡◌};
ghost use Rattle.tick_events.specs.Countdowns.{seen, whole, ticks_between};

/// A countdown is kept by the tick at which it ends, so that a tick changes nothing of it. Ticks are counted modulo 2^64.
#[derive(Clone, Copy)]
pub(crate) struct Countdown {
    period: u64,
    end: u64,
}

impl Countdown {
    /// A countdown of a period, in ticks, of which all is left at this tick.
    pub fn new(period: u64, now: u64) -> Countdown
        ensures { seen now result ≡ whole period }
    {
        Countdown {
            period,
            end: now.wrapping_add(period),
        }
    }

    /// How many ticks are left at this tick.
    pub fn left(&self, now: u64) -> u64
        ensures { result ≡ ticks_between now self.now.end }
    {
        self.end.wrapping_sub(now)
    }

    /// All of its period is left at this tick.
    pub fn restart(&mut self, now: u64)
        ensures { seen now self.new ≡ whole self.old.period }
    {
        *self = Countdown::new(self.period, now);
    }
}
