//! The words that a call gives.

ghost use Rattle.std.specs.Prelude.{◌≡◌, ◌≤◌, ◌↔◌, [], ◌∷◌, length, IsSome, IfSome};
ghost use Rattle.bus_semantics.specs.Common.{clamped, words_of, expr_tree, worth};
ghost use Rattle.task_machine.specs.Words.{words_given};

use arrayvec::ArrayVec;
use rte_value::{Limits, MOST_WORDS, Value, Word};
use runnable_lang::Expr;

/// A word that a call gives: an expression, and the limits to which its word is clamped.
#[derive(Drop)]
pub struct GivenWord {
    pub limits: Limits,
    pub value: Expr,
}

/// The words that a call gives, at most 16, in declared order.
#[derive(Drop)]
pub struct Given {
    pub words: Vec<GivenWord>,
    ghost short: { length words.items ≤ 16 },
}

/// The word itself if it lies within the limits, and else the nearest one, or the least if there is none.
pub fn nearest(word: Word, limits: &Limits) -> Word
    ensures { result ≡ clamped limits.now word }
{
    limits.low.max(word.min(limits.high))
}

impl GivenWord {
    /// The word over these variables, clamped to its limits.
    fn word(&self, vars: &[Word]) -> Word
        ensures { result ≡ clamped self.now.limits (worth vars.now (expr_tree self.now.value)) }
    {
        nearest(self.value.value(vars), &self.limits)
    }
}

impl Given {
    /// A list of these words. None exactly if there are more than 16. It takes no memory.
    pub fn new(words: Vec<GivenWord>) -> Option<Given>
        ensures fits { IsSome result ↔ (length words.items ≤ 16) }
        ensures words { IfSome result (λ g. g.words.items ≡ words.items) }
    {
        if words.len() > MOST_WORDS {
            return None;
        }
        Some(Given { words })
    }

    /// The word over these variables, clamped to its limits, if there is one alone.
    pub fn only(&self, vars: &[Word]) -> Option<Word>
        ensures { IfSome result (λ w. words_given vars.now self.now.words.items ≡ w ∷ []) }
    {
        match self.words.as_slice() {
            [only] => Some(only.word(vars)),
            _ => None,
        }
    }

    /// The words over these variables, each clamped to its limits. A variable that there is not counts 0. It takes no memory.
    pub fn value(&self, vars: &[Word]) -> Value
        ensures { words_of result ≡ words_given vars.now self.now.words.items }
    {
        match self.words.as_slice() {
            [only] => Value::of_word(only.word(vars)),
            _ => self.value_of_all(vars),
        }
    }

    /// The value of any number of words, as `value` gives it. It stays a function of its own, since the room of a whole list costs a call with one
    /// word more than the word.
    #[inline(never)]
    fn value_of_all(&self, vars: &[Word]) -> Value
        ensures { words_of result ≡ words_given vars.now self.now.words.items }
    {
        let mut words: ArrayVec<Word, 16> = ArrayVec::new();
        for word in &self.words {
            words.push(word.word(vars));
        }
        match Value::new(words.as_slice()) {
            Some(value) => value,
            None => unreachable!(),
        }
    }
}
