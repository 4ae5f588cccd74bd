//! What came of a frame.

ghost use Rattle.std.specs.Prelude.{◌≡◌, is_none};
ghost use Rattle.signal_link.specs.Parts.{begun_of};

use crate::header::Header;
use crate::payload::Payload;

/// What came of a frame that is not finished.
#[derive(Drop)]
pub(crate) enum Part {
    /// Bytes of the header.
    InHeader(Header),
    /// The header, and bytes of the words.
    InWords(Payload),
    /// Bytes with which no good frame begins.
    Bad,
}

impl Part {
    /// Whether a bad frame came.
    pub(crate) fn is_bad(&self) -> bool
        ensures { result ≡ is_none (begun_of self.now) }
    {
        matches!(self, Part::Bad)
    }
}
