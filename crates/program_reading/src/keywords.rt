//! The keywords of statements.

ghost use Rattle.std.specs.Prelude.{◌≡◌, map};
ghost use Rattle.program_reading.specs.Keywords.{keyword_of, statement_word, statement_words};
ghost use Rattle.program_reading.specs.Words.{meaning};

/// A keyword, named as the statement that it begins.
#[derive(Clone, Copy)]
pub enum Keyword {
    Set,
    If,
    Repeat,
    Area,
    Write,
    Read,
    Invalidate,
    IsUpdated,
    Send,
    Receive,
    IWrite,
    IRead,
    IrvWrite,
    IrvRead,
    IrvIWrite,
    IrvIRead,
    Call,
    ACall,
    TakeResult,
    Switch,
    Mode,
}

/// A word of a statement, with the keyword that it is.
#[derive(Clone, Copy)]
pub struct StatementWord {
    pub text: &'static str,
    pub means: Keyword,
}

macro_rules! statement {
    ($text:literal, $keyword:ident) => {
        StatementWord {
            text: $text,
            means: Keyword::$keyword,
        }
    };
}

fn statement_words() -> &'static [StatementWord]
    ensures { map statement_word result.now ≡ statement_words }
{
    &[
        statement!("set", Set),
        statement!("if", If),
        statement!("repeat", Repeat),
        statement!("area", Area),
        statement!("write", Write),
        statement!("read", Read),
        statement!("invalidate", Invalidate),
        statement!("isUpdated", IsUpdated),
        statement!("send", Send),
        statement!("receive", Receive),
        statement!("iwrite", IWrite),
        statement!("iread", IRead),
        statement!("irvWrite", IrvWrite),
        statement!("irvRead", IrvRead),
        statement!("irvIWrite", IrvIWrite),
        statement!("irvIRead", IrvIRead),
        statement!("call", Call),
        statement!("acall", ACall),
        statement!("result", TakeResult),
        statement!("switch", Switch),
        statement!("mode", Mode),
    ]
}

#[tactic(auto, using(crate::proofs::Meanings::meaning_turn))]
fn keyword_in(words: &[StatementWord], word: &str) -> Keyword
    ensures { result ≡ meaning (map statement_word words.now) Keyword.Set word.now }
{
    for known in words {
        if known.text == word {
            return known.means;
        }
    }
    Keyword::Set
}

/// The keyword of the word, and `Set` if it is none.
#[tactic(auto, unfolding(crate::specs::Keywords::keyword_of))]
pub fn keyword_of(word: &str) -> Keyword
    ensures { result ≡ keyword_of word.now }
{
    keyword_in(statement_words(), word)
}
