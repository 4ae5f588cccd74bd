//! A call of an operation, as a plan numbers it.

/// A call: who makes it, by what port, and of which operation.
#[derive(Clone, Copy)]
pub struct Calling {
    /// The instance and the position of the runnable; None is the environment.
    pub caller: Option<(u32, u32)>,
    pub port: u32,
    /// The position of the operation.
    pub item: u32,
    /// The caller goes on without waiting.
    pub asynchronous: bool,
}
