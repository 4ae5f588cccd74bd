//! The words of accesses and statements.

ghost use Rattle.std.specs.Prelude.{◌≡◌, map};
ghost use Rattle.program_reading.specs.Words.{access_kind_of, access_word, access_words, meaning};

use runnable_lang::AccessKind;

/// A word of an access, with the kind that it names.
#[derive(Clone, Copy)]
pub struct AccessWord {
    pub text: &'static str,
    pub means: AccessKind,
}

macro_rules! access {
    ($text:literal, $kind:ident) => {
        AccessWord {
            text: $text,
            means: AccessKind::$kind,
        }
    };
}

fn access_words() -> &'static [AccessWord]
    ensures { map access_word result.now ≡ access_words }
{
    &[
        access!("write", Write),
        access!("read", Read),
        access!("invalidate", Invalidate),
        access!("isUpdated", IsUpdated),
        access!("send", Send),
        access!("receive", Receive),
        access!("iwrite", IWrite),
        access!("iread", IRead),
        access!("irvWrite", IrvWrite),
        access!("irvRead", IrvRead),
        access!("irvIWrite", IrvIWrite),
        access!("irvIRead", IrvIRead),
        access!("call", Call),
        access!("acall", ACall),
        access!("result", TakeResult),
        access!("switch", Switch),
        access!("mode", Mode),
        access!("enter", Enter),
    ]
}

#[tactic(auto, using(crate::proofs::Meanings::meaning_turn))]
fn access_in(words: &[AccessWord], word: &str) -> AccessKind
    ensures { result ≡ meaning (map access_word words.now) AccessKind.Write word.now }
{
    for known in words {
        if known.text == word {
            return known.means;
        }
    }
    AccessKind::Write
}

/// The kind of access that the word names, and `Write` if it names none.
pub fn access_kind_of(word: &str) -> AccessKind
    ensures { result ≡ access_kind_of word.now }
{
    access_in(access_words(), word)
}
