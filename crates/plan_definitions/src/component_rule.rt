//! Rules on components.

/// A rule on components, besides those on programs.
#[derive(Clone, Copy)]
pub enum ComponentRule {
    /// Each access fits its port.
    Accesses,
    /// Each event fits its port.
    EventKinds,
    /// Each operation of a P-port has exactly one OperationInvokedEvent, and that event's runnable has no other event.
    Invocations,
    /// What is called without waiting is called by nobody else; results and returns are of such calls.
    Calls,
    /// Modes disable only events that they may disable, and are of the group of an R-port.
    Disablings,
    /// Each coherent access list has 2 to 16 items of one kind of implicit access, each in no other list of its runnable, with at
    /// most 16 words.
    CoherentLists,
}
