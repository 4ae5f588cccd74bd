//! How a command ends.

/// How a command ended; its number is the program's exit status.
#[derive(Clone, Copy, Debug, PartialEq, Eq)]
pub enum Status {
    /// The command was carried out.
    Done = 0,
    /// The description breaks a rule.
    Refused = 1,
    /// The words are no command.
    Words = 2,
    /// A file could not be read, or is too long.
    NotRead = 3,
    /// The output could not be written.
    NotWritten = 4,
    /// A line of the script is refused.
    Script = 5,
    /// The trace is refused.
    Trace = 6,
    /// There was no memory.
    Memory = 7,
    /// No component has the name.
    NoComponent = 8,
    /// Two different calls of the component have one name.
    Clash = 9,
    /// No element of two nodes is linked.
    NoLink = 10,
    /// The description has too many cores for a node that runs while stimuli arrive.
    TooManyCores = 11,
}
