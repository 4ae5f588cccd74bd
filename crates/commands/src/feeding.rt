//! What is read before a node is served: the description and the stimuli.
//!
//! # Decisions
//!
//! **Why may a description have 8 cores for `run` and 7 for `live`?** A round has eight seats at most, and while stimuli arrive one of them is
//! the environment's. The stimuli are not judged then: nothing would be given them.

ghost use Rattle.std.specs.Prelude.{◌≤◌, ℕ, List, IfErr, IfOk};
ghost use Rattle.bus_semantics.specs.Plan.{plan_of};
ghost use Rattle.declared_names.specs.Sizes.{AreFew};
ghost use Rattle.description_stages.specs.Plans.{IsPlannedOf};
ghost use Rattle.feed_queue.specs.Reading.{AreFeeds};
ghost use Rattle.commands.specs.Judging.{IsNotServed};
ghost use Rattle.commands.specs.LiveCommand.{AreLiveInputs};

use crate::preparing::plan_bytes;
use crate::stop::{Finding, Stop};
use description_stages::PlannedDescription;
use feed_queue::{Feeds, FeedsRead, read_feeds};
use std::alloc::Global;

/// So many cores may run while stimuli arrive.
const MOST_CORES: u32 = 7;

/// A description with its plan, and what stimuli give to four feeds.
#[derive(Drop)]
pub struct PreparedFeeds {
    pub found: PlannedDescription,
    pub feeds: Feeds,
}

/// The plan of the description, which has few enough cores.
fn plan_few_cores(alloc: Global, description: &[u8]) -> Result<PlannedDescription, Stop>
    requires { AreFew description.now }
    ensures planned { IfOk result (IsPlannedOf description.now) }
    ensures cores { IfOk result (λ found. found.mapping.cores ≤ 7) }
    ensures stopped { IfErr result (λ why. (s : List ℕ) → IsNotServed description.now s why) }
{
    let found = match plan_bytes(alloc, description) {
        Ok(found) => found,
        Err(stop) => return Err(stop),
    };
    if found.mapping.cores <= MOST_CORES {
        Ok(found)
    } else {
        drop(found);
        Err(Stop::Found(Finding::TooManyCores))
    }
}

/// What the bytes give to feeds, as stimuli over the plan.
fn feeds_over(alloc: Global, found: &PlannedDescription, stimuli: &[u8]) -> Result<Feeds, Stop>
    requires planned { (d : List ℕ) × IsPlannedOf d found.now }
    requires cores { found.now.mapping.cores ≤ 7 }
    ensures fed { IfOk result (λ feeds. AreFeeds (plan_of found.now.plan) stimuli.now feeds) }
    ensures stopped { IfErr result (λ why. (d : List ℕ) → IsPlannedOf d found.now → IsNotServed d stimuli.now why) }
{
    match read_feeds(alloc, &found.plan, stimuli) {
        FeedsRead::Read(feeds) => Ok(feeds),
        FeedsRead::BadLine { line, cause } => Err(Stop::Found(Finding::Script { line, cause })),
        FeedsRead::Memory => Err(Stop::Memory),
    }
}

/// Reads the description, counts its cores, and reads the stimuli.
pub fn judge_live(alloc: Global, description: &[u8], stimuli: &[u8]) -> Result<PreparedFeeds, Stop>
    requires { AreFew description.now }
    ensures ready { IfOk result (λ x. AreLiveInputs description.now stimuli.now x.found x.feeds) }
    ensures stopped { IfErr result (IsNotServed description.now stimuli.now) }
{
    let found = match plan_few_cores(alloc, description) {
        Ok(found) => found,
        Err(stop) => return Err(stop),
    };
    match feeds_over(alloc, &found, stimuli) {
        Ok(feeds) => Ok(PreparedFeeds { found, feeds }),
        Err(stop) => {
            drop(found);
            Err(stop)
        }
    }
}
