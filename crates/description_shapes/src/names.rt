//! Names.

ghost use Rattle.std.specs.Prelude.{◌≡◌};
ghost use Rattle.std.specs.List.{list_all};
ghost use Rattle.description_shapes.specs.Names.{is_letter, is_letter_or_digit, is_name};

fn is_letter(byte: u8) -> bool
    ensures { result ≡ is_letter byte }
{
    (65 <= byte && byte <= 90) || (97 <= byte && byte <= 122)
}

fn is_letter_or_digit(byte: u8) -> bool
    ensures { result ≡ is_letter_or_digit byte }
{
    is_letter(byte) || (48 <= byte && byte <= 57) || byte == 95
}

fn is_of_letters_and_digits(bytes: &[u8]) -> bool
    ensures { result ≡ list_all is_letter_or_digit bytes.now }
{
    bytes.iter().all(|byte| is_letter_or_digit(*byte))
}

/// Whether these bytes are a name: 1 to 32 bytes, a letter, then letters, digits and `_`, all ASCII.
pub fn is_name(bytes: &[u8]) -> bool
    ensures { result ≡ is_name bytes.now }
{
    if bytes.is_empty() || 32 < bytes.len() {
        return false;
    }
    is_letter(bytes[0]) && is_of_letters_and_digits(bytes)
}
