//! The fields of a line: texts, numbers and values.

ghost use Rattle.std.specs.Prelude.{◌≤◌, ◌*◌, ◌++◌, length, codes, decimal};
ghost use Rattle.std.specs.Fmt.{signed_decimal};
ghost use Rattle.bus_semantics.specs.Spelling.{more_words, spaced, value_text};
ghost use Rattle.trace_text.specs.Appending.{Appends};
ghost use Rattle.trace_text.specs.Short.{IsShortNumber, IsShortValue};

use rte_text::LineBuf;
use rte_value::{Code, Value, Word};

/// Writes the text.
pub fn write_text(text: &[u8], out: &mut LineBuf)
    ensures { Appends out.old out.new text.now }
{
    out.text(text);
}

/// Writes the word in decimal.
fn write_word(word: Word, out: &mut LineBuf)
    ensures text { Appends out.old out.new (signed_decimal word) }
    ensures short { length (signed_decimal word) ≤ 20 }
{
    out.number(word);
}

/// Writes a comma before each word.
fn write_more_words(words: &[Word], out: &mut LineBuf)
    ensures text { Appends out.old out.new (more_words words.now) }
    ensures short { length (more_words words.now) ≤ 21 * length words.now }
{
    for word in words {
        write_text(b",", out);
        write_word(*word, out);
    }
}

/// Writes the words of the value, joined by commas, or a dash if it has none.
pub fn write_value(value: &Value, out: &mut LineBuf)
    ensures text { Appends out.old out.new (value_text value.now) }
    ensures short { IsShortValue value.now }
{
    match value.words() {
        [] => write_text(b"-", out),
        [first, more @ ..] => {
            write_word(*first, out);
            write_more_words(more, out);
        }
    }
}

/// Writes the number in decimal.
pub fn write_number(number: u32, out: &mut LineBuf)
    ensures text { Appends out.old out.new (decimal number) }
    ensures short { IsShortNumber number }
{
    write_word(i64::from(number), out);
}

/// Writes a space and the number. 0 is the code of nearly each line that has one, so it goes with its space.
pub fn write_spaced_number(number: u32, out: &mut LineBuf)
    ensures text { Appends out.old out.new (spaced (decimal number)) }
    ensures short { IsShortNumber number }
{
    if number == 0 {
        write_text(b" 0", out);
    } else {
        write_text(b" ", out);
        write_number(number, out);
    }
}

/// Writes the code between two spaces.
pub fn write_code(code: Code, out: &mut LineBuf)
    ensures text { Appends out.old out.new (spaced (decimal code ++ codes " ")) }
    ensures short { IsShortNumber code }
{
    if code == 0 {
        write_text(b" 0 ", out);
    } else {
        write_spaced_number(u32::from(code), out);
        write_text(b" ", out);
    }
}

/// Writes a space and the value.
pub fn write_spaced_value(value: &Value, out: &mut LineBuf)
    ensures text { Appends out.old out.new (spaced (value_text value.now)) }
    ensures short { IsShortValue value.now }
{
    write_text(b" ", out);
    write_value(value, out);
}
