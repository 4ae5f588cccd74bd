//! A text in pieces: its first line, and its first part.

ghost use Rattle.std.specs.Prelude.{◌≡◌, ◌<◌, ◌==◌, ◌∷◌, length, position, IfSome};
ghost use Rattle.line_fields.specs.Cuts.{IsCut};
ghost use Rattle.line_fields.specs.Texts.{lines_of, parts};

/// Where the first of these bytes stands.
fn place_of(byte: u8, text: &[u8]) -> Option<usize>
    ensures { result ≡ position (λ b. b == byte) text.now }
{
    text.iter().position(|b| *b == byte)
}

/// The bytes before the first separator, and those after it. No such part after it if there is none.
pub fn cut(text: &[u8], separator: u8) -> (&[u8], Option<&[u8]>)
    ensures parts { IsCut separator text.now result }
    ensures shorter { IfSome result.1 (λ rest. length rest.now < length text.now) }
    ensures more { IfSome result.1 (λ rest. 0 < length (parts separator rest.now)) }
{
    match place_of(separator, text) {
        Some(at) => (&text[..at], Some(&text[at + 1..])),
        None => (text, None),
    }
}

/// The first line without its newline, and what stands after that newline.
pub fn split_line(bytes: &[u8]) -> (&[u8], &[u8])
    requires { 0 < length bytes.now }
    ensures lines { lines_of bytes.now ≡ result.0.now ∷ lines_of result.1.now }
    ensures shorter { length result.1.now < length bytes.now }
{
    match place_of(b'\n', bytes) {
        Some(at) => (&bytes[..at], &bytes[at + 1..]),
        None => (bytes, &bytes[bytes.len()..]),
    }
}
