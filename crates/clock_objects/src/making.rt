//! The clock of a plan, made.

ghost use Rattle.std.specs.Prelude.{◌≡◌, ◌<◌, ◌^◌, length, true, IfOk};
ghost use Rattle.bus_semantics.specs.Common.{plan_of, clock};
ghost use Rattle.clock_objects.specs.Kept.{opening};
ghost use Rattle.clock_objects.specs.Layout.{have_periods};
ghost use Rattle.clock_objects.specs.Plans.{IsOfPlan};

use crate::Memory;
use crate::events::{init_events, periods_of, timing_events};
use crate::ticks::Ticks;
use bus_semantics::BusPlan;
use std::alloc::Global;
use tick_events::Clock;

impl Ticks {
    /// The clock of a plan, which has not ticked. The only error is that there is no memory for it; no later call takes any.
    pub fn new(alloc: Global, p: &BusPlan) -> Result<Ticks, Memory>
        requires few_events { length p.now.events < 2 ^ 32 }
        requires periods { have_periods (plan_of p.now) ≡ true }
        ensures kept { IfOk result (λ t. t.kept ≡ opening (plan_of p.now)) }
        ensures planned { IfOk result (λ t. IsOfPlan (plan_of p.now) (clock (plan_of p.now)) t.kept) }
    {
        let timings = timing_events(alloc, p)?;
        let inits = init_events(alloc, p)?;
        let periods = periods_of(alloc, p, timings.as_slice())?;
        let clock = Clock::new(alloc, periods, inits.len() as u32)?;
        let woken = Vec::with_capacity(alloc, timings.len())?;
        Ok(Ticks {
            timings,
            inits,
            clock,
            woken,
        })
    }
}
