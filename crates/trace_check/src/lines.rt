//! The lines of a trace.

ghost use Rattle.std.specs.Prelude.{◌≡◌, ◌==◌, ◌++◌, position};
ghost use Rattle.trace_check.specs.FirstLines.{IsFirstLine, IsHeaderOf};

use bus_semantics::Version;
use trace_text::header;

/// Where the first newline stands.
fn newline_in(text: &[u8]) -> Option<usize>
    ensures { result ≡ position (λ b. b == 10) text.now }
{
    text.iter().position(|b| *b == b'\n')
}

/// The first line of a text with the newline that ends it, and what stands behind that. A text without a newline is one line.
pub fn first_line(text: &[u8]) -> (&[u8], &[u8])
    ensures whole { text.now ≡ result.0.now ++ result.1.now }
    ensures line { IsFirstLine result.0.now result.1.now }
{
    match newline_in(text) {
        Some(at) => (&text[..at + 1], &text[at + 1..]),
        None => (text, &text[text.len()..]),
    }
}

/// The version of the trace whose header a line is, given with its newline. None if it is no header.
pub fn version_of(line: &[u8]) -> Option<Version>
    ensures { IsHeaderOf line.now result }
{
    if line == header(Version::One) {
        return Some(Version::One);
    }
    if line == header(Version::Two) {
        return Some(Version::Two);
    }
    None
}
