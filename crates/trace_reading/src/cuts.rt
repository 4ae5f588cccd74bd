//! Texts in pieces.

ghost use Rattle.std.specs.Prelude.{◌≡◌, option_copied};
ghost use Rattle.trace_reading.specs.Cuts.{before, behind};

use line_fields;

/// What stands before the first separator, and what behind it.
pub fn cut(text: &[u8], separator: u8) -> (&[u8], Option<&[u8]>)
    ensures before { result.0.now ≡ before separator text.now }
    ensures behind { option_copied result.1 ≡ behind separator text.now }
{
    line_fields::cut(text, separator)
}
