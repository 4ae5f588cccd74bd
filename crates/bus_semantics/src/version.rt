//! Versions of the trace.

/// How modes are spelled in a trace. All else but the header is spelled alike.
#[derive(Clone, Copy)]
pub enum Version {
    /// By their numbers.
    One,
    /// By their names; a dash stands for the transition value.
    Two,
}
