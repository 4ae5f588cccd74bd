//! What comes of an entry that is tried.

/// What may come of the wish of an entry that is tried.
#[derive(Clone, Copy)]
pub(crate) enum Came {
    /// This entry.
    Itself,
    /// Another one.
    Another,
    /// None.
    Nothing,
}
