//! What comes of reading stimuli.

use crate::feeds::Feeds;

/// What the bytes of stimuli are.
#[derive(Drop)]
pub enum FeedsRead {
    /// Stimuli: four feeds.
    Read(Feeds),
    /// No stimuli. `line` is the number of the first bad line, counted from 1 with empty lines and comments, and `cause` the least of those
    /// that it has: 1, it has none of the forms, or it stands behind `stop`; 2 and 3 as in a script; 4, with it there are more than 100,000
    /// lines or 65,536 wishes. If no line is bad and none is `stop`, it is the line behind the last, with cause 1.
    BadLine { line: u64, cause: u8 },
    /// Memory ran out.
    Memory,
}
