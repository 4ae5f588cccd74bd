//! Values of one word.

ghost use Rattle.std.specs.Prelude.{◌≡◌, [], ◌∷◌, IfSome};
ghost use Rattle.rte_value.specs.declared.value.Value.{Value};
ghost use Rattle.rte_value.specs.Values.{words_of};

use rte_value::{Value, Word};

/// The word of a value that has one alone. Such a value is made anew from its word for less than it takes to copy the room of 16 words.
#[inline(always)]
pub fn only_word(value: &Value) -> Option<Word>
    ensures { IfSome result (λ word. (v : Value) → words_of v ≡ word ∷ [] → value.now ≡ v) }
{
    match value.words() {
        [only] => Some(*only),
        _ => None,
    }
}
