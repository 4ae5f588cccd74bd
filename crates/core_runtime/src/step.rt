//! One turn of a core over all objects of the plan.

ghost use Rattle.std.specs.Prelude.{◌<◌, length};
ghost use Rattle.core_runtime.specs.Rounds.{IsLater, IsTurn};

use crate::round_state::Round;
use crate::waking::wake_after;
use core_turn::{Turned, turn_of_awake, turns_keep_the_law, waiters_sleep_on};
use port_objects::{last_entries_are_last, last_written, sound_plans_have_objects};

impl<'a> Round<'a> {
    /// The core of a number makes a turn. Its entry, if it makes one, goes to the end of the entries and wakes what may start by it,
    /// and the answer is whether it made one.
    pub(crate) fn step(&mut self, number: usize) -> bool
        requires number { number < length self.old.cores }
        requires room { 0 < self.old.room }
        ensures later { IsLater self.old self.new }
        ensures turn { IsTurn self.old self.new number result }
    {
        turns_keep_the_law();
        waiters_sleep_on();
        sound_plans_have_objects();
        last_entries_are_last();
        let core = &mut self.cores[number];
        let awake = &mut self.watch.awake[number];
        match turn_of_awake(
            self.plan,
            self.bodies,
            core,
            awake,
            &mut self.bench,
            &mut self.entries,
        ) {
            Turned::Stepped => {
                let made = last_written(self.entries.as_slice());
                wake_after(
                    self.plan,
                    &made.entry,
                    made.event,
                    self.bench.objects(),
                    &mut self.watch,
                );
                true
            }
            Turned::NothingNow => false,
            // A bench of one thread is never contended.
            Turned::Contended(_) => unreachable!(),
        }
    }
}
