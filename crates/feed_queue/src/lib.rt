//! Stimuli of four feeds: what is read of them, and a queue through which feeders, each in its order, hand their numbers to a pump, all at
//! the same time.
//!
//! There are four feeds. A feeder pushes the numbers of its feed, 0, 1, 2 and so on, as many as the feed is long at most. The pump takes
//! them one by one and keeps the order in which feeds came.
//!
//! There are four feeds. How long they are is a part of the queue's type, which a call at `Brand` picks (`Feeding`). The rule of
//! the queue (`IsFed` in `specs/Fed.antt`): of each feed, the numbers that wait follow those popped without a gap; there are as
//! many in all as the pass of its feeder has pushed, at most the feed's length; and the pump's pass knows the feeds of all items
//! popped, in their order. `push` and `next` make their steps by calls of `crossbeam_queue` that require that the rule survives
//! them, whatever other passes have done meanwhile. Nothing is said of order between feeds, nor of when a number arrives.
//!
//! Stimuli are lines of text: a feed's number, a space and a line of a script. `read_feeds` reads them over the plan of a bus in a time that is
//! linear in the bytes and the wishes.
//!
//! # Decisions
//!
//! **How does the rule of the queue know how long the feeds are?** By a type parameter with a member for proofs alone (`Feeding`),
//! since a rule has no argument; a call at `Brand` picks it. The queue alone has this parameter: what goes through it, what passes
//! know, feeders and the pump have none. That the queue has a place for each number is said where a feeder or the pump is one of
//! it (`IsFeederOf`, `IsPumpOf`), and is no invariant of its type: an invariant cannot name a member of a parameter that the type
//! of a field takes.
//!
//! **Which pass is whose?** The pump's pass is the first, number 0, and makes the others: that of feed 0 has number 1, and so on.
//! So the rule needs no table of who pushes what, and two passes of one feed cannot be.
//!
//! **Why does a push name its number?** So that the feeder keeps no count that might overflow. The number has to be how many it
//! has pushed; its pass knows that, and code does not.
//!
//! **What does the pump say if it popped nothing?** That nothing changed. The library says that the queue was empty at one moment
//! of the call. A clause can only say that there was a list without items, which says nothing: what a shared queue holds, no
//! clause can name. So the pump asks again until it has popped as many as there are in all.
//!
//! **Which limits do stimuli have?** 100,000 lines as a script, and 65,536 wishes in all, of which each tick is one. So no limit
//! of ticks is needed, and there are no run lines.
//!
//! **What is bad if `stop` is missing?** The line behind the last, since there it should stand. Its number is the number of lines
//! plus one.
#![tactic(auto)]

mod feeder;
mod feeds;
mod feeds_read;
mod giving;
mod heard;
mod hearing;
mod judging;
mod laws;
mod opening;
mod passes;
mod progress;
mod pump;
mod queue;
mod reading;
mod rule;
mod threads;
mod views;

pub use feeds::Feeds;
pub use feeds_read::FeedsRead;
pub use laws::{feeds_are_few, feeds_give_what_may_be_called};
pub use passes::{Feeder, Pump};
pub use queue::{FeedQueue, Queued};
pub use reading::read_feeds;
pub use rule::Feeding;

/// There was no memory for what a call makes.
pub type Memory = std::alloc::AllocError;
