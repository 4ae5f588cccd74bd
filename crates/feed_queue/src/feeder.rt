//! Feeders.
ghost use Rattle.std.specs.Prelude.{◌≡◌, ◌<◌, suc};
ghost use Rattle.feed_queue.specs.Feeds.{length_of};
ghost use Rattle.feed_queue.specs.Passes.{feed_of, pushed, IsFeederOf};

use crate::passes::Feeder;
use crate::queue::FeedQueue;
use crate::rule::{Feeding, Pushed};
use crate::views::Item;
use std::sync::Wait;

impl Feeder {
    /// The number of its feed, from 0 to 3.
    pub fn feed(&self) -> u8
        ensures { result ≡ feed_of self.now }
    {
        self.feed
    }

    /// Pushes the next number of its feed, which is how many it has pushed. The queue has a place for it. It may spin behind another
    /// thread that was stopped within a push or a pop. It takes no memory.
    pub fn push<F: Feeding, R: Wait>(&mut self, rt: &R, q: &FeedQueue<F>, number: u32)
        requires queue { IsFeederOf F.lengths q.now self.old }
        requires next { number ≡ pushed self.old }
        requires within { number < length_of F.lengths (feed_of self.old) }
        ensures queue { IsFeederOf F.lengths q.now self.new }
        ensures feed { feed_of self.new ≡ feed_of self.old }
        ensures pushed { pushed self.new ≡ suc number }
    {
        let item = Item {
            feed: self.feed,
            number,
        };
        match q.line.push_as::<Pushed<F>, R>(rt, &mut self.pass, item) {
            Ok(()) => {}
            Err(_) => unreachable!(),
        }
    }
}
