//! The names of outer ports, of what they have, and of modes.

ghost use Rattle.std.specs.Prelude.{◌≡◌};
ghost use Rattle.bus_semantics.specs.Common.{list_all, is_letter, is_name, is_name_part};
ghost use Rattle.line_fields.specs.Texts.{are_names, is_pair_name};

use crate::cuts::cut;

fn is_letter(byte: u8) -> bool
    ensures { result ≡ is_letter byte }
{
    (65 <= byte && byte <= 90) || (97 <= byte && byte <= 122)
}

fn is_name_part(byte: u8) -> bool
    ensures { result ≡ is_name_part byte }
{
    is_letter(byte) || (48 <= byte && byte <= 57) || byte == 95
}

fn are_name_parts(text: &[u8]) -> bool
    ensures { result ≡ list_all is_name_part text.now }
{
    text.iter().all(|byte| is_name_part(*byte))
}

/// Whether the text is a name: 1 to 32 bytes, a letter, then letters, digits and `_`, all ASCII.
pub fn is_name(text: &[u8]) -> bool
    ensures { result ≡ is_name text.now }
{
    match text {
        [] => false,
        [first, rest @ ..] => is_letter(*first) && are_name_parts(rest) && rest.len() <= 31,
    }
}

/// Whether the text is one name, with no dot.
fn is_last_name(text: &[u8]) -> bool
    ensures { result ≡ are_names 1 text.now }
{
    match cut(text, b'.') {
        (name, None) => is_name(name),
        (_, Some(_)) => false,
    }
}

/// Whether the text is two names with a dot between them: PORT.ELEMENT.
pub fn is_pair_name(text: &[u8]) -> bool
    ensures { result ≡ is_pair_name text.now }
{
    match cut(text, b'.') {
        (port, Some(after)) => is_name(port) && is_last_name(after),
        (_, None) => false,
    }
}
