//! Laws of feeds.

ghost use Rattle.std.specs.Prelude.{◌≡◌, ◌<◌, ◌≤◌, ℕ, All, map, sum, true};
ghost use Rattle.bus_semantics.specs.Common.{Plan, Letters, wanted_of};
ghost use Rattle.feed_queue.specs.declared.feeds.Feeds.{Feeds};
ghost use Rattle.feed_queue.specs.Given.{may_give, lengths_of};
ghost use Rattle.feed_queue.specs.Gifts.{wishes_at};
ghost use Rattle.feed_queue.specs.Reading.{AreFeeds};

/// Feeds have no more than 65,536 wishes in all.
pub fn feeds_are_few()
    ensures { (p : Plan) (bytes : Letters) (feeds : Feeds) → AreFeeds p bytes feeds → sum (lengths_of feeds) ≤ 65536 }
{}

/// Each wish of a feed is a tick, or a call that the environment may make, with a value that may be given there.
pub fn feeds_give_what_may_be_called()
    ensures { (p : Plan) (bytes : Letters) (feeds : Feeds) (f : ℕ) → AreFeeds p bytes feeds → f < 4
        → All (λ w. may_give p w ≡ true) (map wanted_of (wishes_at feeds.wishes.items f)) }
{}
