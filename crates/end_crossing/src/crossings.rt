//! Crossings: which ports are joined with which.

use composition_tables::tree::PortEnd;
use end_search::gates::Gate;

/// Provided ports that are joined with required ones, as far as their interfaces share items.
#[derive(Clone, Copy, PartialEq, Eq, Hash)]
pub enum Crossing {
    /// The ports below a gate with those below another.
    Gates(Gate, Gate),
    /// A provided port with the required ones of an interface below a gate.
    Row(PortEnd, Gate, u32),
    /// The provided ports of an interface below a gate with a required one.
    Column(Gate, u32, PortEnd),
}
