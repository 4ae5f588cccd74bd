//! How a queue is made.
ghost use Rattle.std.specs.Prelude.{◌≡◌, ◌≤◌, IfOk, max, sum, suc, []};
ghost use Rattle.std.specs.Vec.{vec_capacity};
ghost use Rattle.crossbeam_queue.specs.Passes.{view, IsPassOf, ruled_capacity};
ghost use Rattle.feed_queue.specs.declared.views.View.TheVariants.{Pumps};
ghost use Rattle.feed_queue.specs.Feeds.{places_of};
ghost use Rattle.feed_queue.specs.Passes.{IsNew, IsFeederOf, feed_of, pushed};

use crate::Memory;
use crate::passes::{Feeder, Pump};
use crate::queue::{FeedQueue, Queued};
use crate::rule::{Enlists, Feeding};
use crate::views::{Item, View};
use crossbeam_queue::{Pass, RuledArrayQueue};
use std::alloc::Global;

impl<F: Feeding> FeedQueue<F> {
    /// A queue for four feeds of these lengths, a feeder for each, and the pump. It takes all memory that they will need.
    pub fn new(alloc: Global, lengths: [u32; 4]) -> Result<Queued<F>, Memory>
        requires lengths { F.lengths ≡ lengths }
        ensures { IfOk result (λ q. IsNew F.lengths q) }
    {
        let places = places_for(&lengths);
        let order = Vec::with_capacity(alloc, places)?;
        let (line, mut pass) = RuledArrayQueue::ruled(alloc, places)?;
        let queue = FeedQueue { line };
        let feeders = [
            feeder(&queue, &mut pass, 0),
            feeder(&queue, &mut pass, 1),
            feeder(&queue, &mut pass, 2),
            feeder(&queue, &mut pass, 3),
        ];
        Ok(Queued {
            queue,
            feeders,
            pump: Pump { order, pass },
        })
    }
}

/// A place for every number of feeds of these lengths, and at least one.
fn places_for(lengths: &[u32; 4]) -> usize
    ensures { result ≡ places_of lengths.now }
{
    let [first, second, third, fourth] = *lengths;
    let all = first as usize + second as usize + third as usize + fourth as usize;
    if all == 0 { 1 } else { all }
}

/// The next feeder, whose pass is made of the pump's.
fn feeder<F: Feeding>(queue: &FeedQueue<F>, pass: &mut Pass<Item, View>, feed: u8) -> Feeder
    requires queue { (ruled_capacity queue.now.line ≡ places_of F.lengths) × IsPassOf queue.now.line pass.old }
    requires pump { view pass.old ≡ Pumps feed [] }
    ensures queue { IsPassOf queue.now.line pass.new }
    ensures pump { view pass.new ≡ Pumps (suc feed) [] }
    ensures feeder { IsFeederOf F.lengths queue.now result × (feed_of result ≡ feed) × (pushed result ≡ 0) }
{
    let mine = queue.line.another::<Enlists>(pass);
    Feeder { feed, pass: mine }
}
