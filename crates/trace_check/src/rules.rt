//! What a trace is checked against.

use bus_semantics::{BusPlan, Mapping, Script, Version};
use task_machine::TaskSet;

/// What a trace is checked against: a sound bus with the bodies of its runnables, a script, and the version that its header says.
#[derive(Drop)]
pub(crate) struct Rules<'a, 'p> {
    pub plan: &'p BusPlan,
    /// With it the bus is sound.
    pub mapping: &'p Mapping,
    pub script: &'p Script,
    /// The version of the trace.
    pub version: Version,
    pub tasks: &'a TaskSet,
}
