//! Which events of a task are looked at.

use place_set::PlaceSet;

/// Which events of a free task are looked at, by place. What is not awake is known to be held (SWS_RTE: runnable activation).
pub trait Hints {
    ghost use Rattle.std.specs.Prelude.{◌≡◌, ◌≢◌, ◌<◌, ℕ, Bool};
    ghost use Rattle.task_slots.specs.Waiting.{IsNextAwake};

    /// There is a place for each of so many events.
    ghost fits: { Self → ℕ → Type 0 };

    /// Whether the event at a place is awake.
    ghost awake: { Self → ℕ → Bool };

    /// The first of so many events that is awake and not before a place.
    fn next_awake(&mut self, from: usize, count: usize) -> Option<usize>
        requires { fits self.old count }
        ensures same { self.new ≡ self.old }
        ensures next { IsNextAwake (awake self.old) from count result };

    /// The event at a place may not start now, so it may fall asleep.
    fn rest(&mut self, place: usize)
        requires { (count : ℕ) × fits self.old count × (place < count) }
        ensures fits { (count : ℕ) → fits self.old count → fits self.new count }
        ensures others { (other : ℕ) → other ≢ place → awake self.new other ≡ awake self.old other };
}

/// All events are awake, and none falls asleep.
#[derive(Clone, Copy)]
pub struct All;

impl Hints for All {
    ghost use Rattle.std.specs.Prelude.{true};

    ghost fits = { λ a n. Unit {0} };

    ghost awake = { λ a i. true };

    fn next_awake(&mut self, from: usize, count: usize) -> Option<usize> {
        if from < count { Some(from) } else { None }
    }

    fn rest(&mut self, place: usize) {
        let _place = place;
    }
}

/// The events of the set are awake.
impl Hints for PlaceSet {
    ghost use Rattle.std.specs.Prelude.{◌≡◌, length};
    ghost use Rattle.task_slots.specs.Waiting.{flags};

    ghost fits = { λ row n. length row ≡ n };

    ghost awake = { flags };

    fn next_awake(&mut self, from: usize, count: usize) -> Option<usize> {
        let _count = count;
        self.next(from)
    }

    fn rest(&mut self, place: usize) {
        self.remove(place);
    }
}
