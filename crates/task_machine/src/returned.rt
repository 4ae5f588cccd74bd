//! What a server returns.

ghost use Rattle.std.specs.Prelude.{◌≡◌, ◌≤◌, ◌<◌, ◌+◌, ◌↔◌, [], ◌∷◌, ◌++◌, length, get_or, pos, IsSome, IfSome};
ghost use Rattle.arrayvec.specs.ArrayVec.{array_vec_len};
ghost use Rattle.bus_semantics.specs.Common.{words_of, declared_code, results};

use crate::given::nearest;
use arrayvec::ArrayVec;
use bus_semantics::ArgPlan;
use rte_text::Seq;
use rte_value::{Code, MOST_WORDS, Value, Word};

/// What a server returns: the errors that its operation declares, and the operation's arguments, at most 16, which are the
/// first variables. The variable after them is `error`.
#[derive(Drop)]
pub struct Returned {
    pub errors: Seq<Code>,
    pub arguments: Vec<ArgPlan>,
    ghost short: { length arguments.items ≤ 16 },
}

/// One more argument: an `out` one is returned, clamped to its limits.
fn push_result(words: &mut ArrayVec<Word, 16>, argument: &ArgPlan, word: &Word)
    requires { array_vec_len words.old < 16 }
    ensures items { words.new.items ≡ words.old.items ++ results (argument.now ∷ []) (word.now ∷ []) }
    ensures len { array_vec_len words.new ≤ array_vec_len words.old + 1 }
{
    if argument.out {
        words.push(nearest(*word, &argument.limits));
    }
}

impl Returned {
    /// What an operation with these errors and arguments returns. None exactly if there are more than 16 arguments. It takes no memory.
    pub fn new(errors: Seq<Code>, arguments: Vec<ArgPlan>) -> Option<Returned>
        ensures fits { IsSome result ↔ (length arguments.items ≤ 16) }
        ensures errors { IfSome result (λ r. r.errors ≡ errors) }
        ensures arguments { IfSome result (λ r. r.arguments.items ≡ arguments.items) }
    {
        if arguments.len() > MOST_WORDS {
            return None;
        }
        Some(Returned { errors, arguments })
    }

    /// The variable `error` if it is an error that the operation declares, else 0. It takes no memory.
    pub fn code(&self, vars: &[Word]) -> Code
        ensures { result ≡ declared_code self.now.errors (get_or vars.now (length self.now.arguments.items) (pos 0)) }
    {
        let error = vars.get(self.arguments.len()).copied().unwrap_or(0);
        for code in self.errors.items() {
            if error == *code as Word {
                return *code;
            }
        }
        0
    }

    /// The values of the `out` arguments, each clamped to its limits. It takes no memory.
    pub fn value(&self, vars: &[Word]) -> Value
        ensures { words_of result ≡ results self.now.arguments.items vars.now }
    {
        let mut words: ArrayVec<Word, 16> = ArrayVec::new();
        for (argument, word) in self.arguments.iter().zip(vars) {
            push_result(&mut words, argument, word);
        }
        match Value::new(words.as_slice()) {
            Some(value) => value,
            None => unreachable!(),
        }
    }
}
