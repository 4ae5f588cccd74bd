//! What the check answers.

/// What a trace is, checked against a bus and a script. Lines are counted from 1, and the header is the first one.
#[derive(Clone, Copy, Debug, PartialEq, Eq)]
pub enum Checked {
    /// The text, in the version of its header, of a whole run of the script that is legal.
    Legal,
    /// The first line that does not go on so is the line of no item that fits the plan. It has no newline, perhaps.
    BadLine(u64),
    /// The first line that does not go on so breaks this clause, the least that it breaks: 16, it is not the script's next call or
    /// run mark, or stands on the wrong side of one, or the trace ends there before its run is whole; 6, the actor's program asks for
    /// something else; 7 unqueued data, 8 queued data, 9 calls, 10 exclusive areas, 11 modes, 12 admission, 13 an event that
    /// is not due; 15, the closing word does not hold.
    Illegal { line: u64, clause: u8 },
}
