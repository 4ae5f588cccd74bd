//! The objects of the bus: what each keeps stands for the entries that touched it. Each kind of object is a crate of its own; here
//! each call goes to the kind of its object, and what stands above never hears of kinds.
//!
//! # Decisions
//!
//! **Why does the lead ask first whether an entry touches its object and is proper?** So that the law of leads has no premise
//! beyond those of its statement: an object stands for a list, and its lead gives something. Else each user of the law would have
//! to show that the entry touches the object, fits, and starts no other runnable than its actor's. A kind's own lead does not ask:
//! it may rest on both, and so stays short.
//!
//! **Of which plans are objects made?** Of every sound one. No law has a condition on kinds: what is kept names the kind of its
//! object (a group none of whose elements is queued, or all of whose are, a server, an area, a machine, or the clock).
//!
//! **What of a plan with more points than 32 bits count?** No objects are made of it. Soundness sets no bound on the points of the
//! environment, so `make_objects` asks for fewer (`few_points` of `HasObjects`), and so do the calls that rest on it, up to
//! `Node::new` and `check_trace`. The plan of a description has few, since rule 30 bounds them.
//!
//! **What is asked of a plan before its objects are made?** Less than that it is sound (`HasObjects`): that its groups list their
//! elements, that a group is queued whole or not at all and its queues have fewer than 2^32 places, that its servers and machines
//! are such as are made and each point and event that names one names one of the plan's, that its objects and events are counted,
//! and that no period is empty. A law says that a sound plan has it. So the call asks for no more than it needs.
//!
//! **What is asked of a wish before its object is told?** That the object is one of the plan's, so that its number fits. A law
//! says that it is, if the plan is sound and the wish fits. The same is asked of an entry (`touched_object`).
//!
//! **How does `act` say what may come?** Twice. By the lead, which needs no history: a table that cores share is to see entries by
//! the lead alone. And by every list of entries for which the object stands, which is what a reader wants; the second follows from
//! the first by laws.
//!
//! **What does an entry name as its answer?** The lead of a start looks at its event alone. So the answers say besides that what
//! the entry names as an answer fits (`answer_fits`): a start that is no server's names no point and gives no words.
//!
//! **Which entries can make a start come?** For all objects together a list of eight (`wakes`), by the deed alone: new data, a
//! tick, a request, what ends one, and what moves a machine on. The list of each kind is a part of it.
//!
//! **What comes of a wish that touches no object?** An end, an ask, or the taking of a result at a point that is not joined is
//! answered at once (`free_deed`). No other wish has an answer without an object. So `Bench::stamp` takes only entries that touch
//! none.
//!
//! **What does a bench tell?** Its next stamp, its objects, its work, or some of these. All are optional, since a seat at a shared
//! table cannot tell what comes next or what the objects keep between its calls, and a bench of one thread has no need to count.
//! Its home is there so that a caller over any bench knows that the bench still borrows the same thing.
//!
//! **Who writes an entry down?** The bench, at the end of a list that the caller passes (`act_into`, `stamp_into`): an entry is
//! large, and an answer that carries it is copied by each function that it passes through. A turn then hands on where the entry
//! is. The bodies that stand in the trait go by `act` and `stamp`, so a bench needs only these two. For the same reason the entry of a
//! wish is filled in where it is to lie (`act_in_place`), and a tick, whose entry is always the same, has a call without one (`tick`).
//!
//! **Which objects are there?** Those whose entries code makes: groups of unqueued elements that no coherent list touches, bundles
//! that lists touch, groups of queued elements, servers, areas, mode machines, and the clock. That is every kind that the
//! definitions have.
//!
//! **What does `act` ask of a wish?** That it touches this object, of a plan whose groups are listed soundly; that it fits its
//! actor (`fits`); and that a start, an admission and an end are by an event of the actor's own runnable (`own`). Without the last
//! two the entry would not be proper, and the lead gives nothing for such an entry; so the two are what the clause `lead` needs.
//! That the plan is sound is a premise of clauses `done` and `not_yet` (`MayAsk`), which speak of all entries that may come.
#![tactic(auto)]

mod acting;
mod among;
mod bench;
mod closing;
mod freed;
mod laws;
mod making;
mod object;
mod plain_bench;
mod threads;
mod touching;
mod waking;
mod writing;

pub use acting::{act, act_in_place, tick};
pub use bench::{Answered, Bench, Benched};
pub use bus_semantics::object_of;
pub use closing::{areas_are_closed_alike, only_a_leave_opens};
pub use freed::free_deed;
pub use laws::{
    answers_are_what_may_come, free_deeds_are_legal, leads_are_legal, leads_miss_nothing,
    sound_plans_have_objects,
};
pub use making::make_objects;
pub use object::Object;
pub use object_kinds::{Acted, Filled, Shown};
pub use plain_bench::PlainBench;
pub use touching::{machine_of, touched_object};
pub use waking::{
    answers_go_by_flags, heard, held_starts_lead_nowhere, may_start, other_entries_wake_nothing,
    wakes, woken,
};
pub use writing::{last_entries_are_last, last_written};

/// There was no memory for what a call makes.
pub type Memory = std::alloc::AllocError;
