//! The pump.
ghost use Rattle.std.specs.Prelude.{◌≡◌, ◌<◌, [], ◌∷◌, ◌++◌, IfNone, IfSome};
ghost use Rattle.feed_queue.specs.Feeds.{length_of, times};
ghost use Rattle.feed_queue.specs.Passes.{order_of, IsPumpOf};

use crate::passes::Pump;
use crate::queue::FeedQueue;
use crate::rule::{Feeding, Popped};
use std::sync::Wait;

impl Pump {
    /// Pops the next number of some feed: the feed, and its number. Or `None`, if nothing was popped: the queue was empty at some moment of
    /// this call. It may spin behind another thread that was stopped within a push or a pop. It takes no memory. Of each feed the
    /// numbers 0, 1, 2 and so on are popped, in this order and each once: a popped number is how often its feed was popped before,
    /// and is below the feed's length.
    pub fn next<F: Feeding, R: Wait>(&mut self, rt: &R, q: &FeedQueue<F>) -> Option<(u8, u32)>
        requires queue { IsPumpOf F.lengths q.now self.old }
        ensures queue { IsPumpOf F.lengths q.now self.new }
        ensures none { IfNone result (order_of self.new ≡ order_of self.old) }
        ensures some { IfSome result (λ x. order_of self.new ≡ order_of self.old ++ x.0 ∷ []) }
        ensures number { IfSome result (λ x. x.1 ≡ times x.0 (order_of self.old)) }
        ensures within { IfSome result (λ x. x.1 < length_of F.lengths x.0) }
    {
        let item = q.line.pop_as::<Popped<F>, R>(rt, &mut self.pass)?;
        self.order.push_reserved(item.feed);
        Some((item.feed, item.number))
    }

    /// The feeds of all that it popped, in the order of the pops.
    pub fn order(&self) -> &[u8]
        ensures { result.now ≡ order_of self.now }
    {
        self.order.as_slice()
    }
}
