//! The commands, and the words that give them.

ghost use Rattle.std.specs.Prelude.{◌≡◌, ◌∷◌, [], map, option_map, string_bytes, IfSome};
ghost use Rattle.commands.specs.Commands.{command_of, meant, pairs_of, IsWell};

use line_fields::{is_number, number_in};

/// The most pairs of a producer and a consumer.
const MOST_PAIRS: u32 = 64;

/// What the words ask for.
#[derive(Clone, Copy)]
pub enum Command<'a> {
    /// `run C S`: run the script S on the bus of the description C.
    Run {
        description: &'a str,
        script: &'a str,
    },
    /// `plan C`: print the plan of the description C.
    Plan {
        description: &'a str,
    },
    /// `header C name`: list the calls that the code of the component of this name may use.
    Header {
        description: &'a str,
        name: &'a str,
    },
    /// `soak N`: run a description of N pairs of a producer and a consumer, and count what they do.
    Soak {
        pairs: u32,
    },
    /// `check C T S`: say whether T is the trace of a legal run of the script S on the bus of the description C.
    Check {
        description: &'a str,
        trace: &'a str,
        script: &'a str,
    },
    /// `pair C1 C2 S`: run the script S on two nodes, of the descriptions C1 and C2, which a link of bytes joins.
    Pair {
        one: &'a str,
        two: &'a str,
        script: &'a str,
    },
    /// `live C`: run a node of the description C while stimuli arrive.
    Live {
        description: &'a str,
    },
}

/// The number of pairs that the text is: from 1 to 64, in decimal without leading zeros.
fn pairs_in(text: &[u8]) -> Option<u32>
    ensures { result ≡ pairs_of text.now }
{
    if !is_number(text) {
        return None;
    }
    let pairs = number_in(text)?;
    if 1 <= pairs && pairs <= MOST_PAIRS {
        Some(pairs)
    } else {
        None
    }
}

/// The command that two words give.
fn command_of_two<'a>(command: &str, word: &'a str) -> Option<Command<'a>>
    ensures command { option_map meant result ≡ command_of (command.now ∷ word.now ∷ []) }
    ensures well { IfSome result (λ command. IsWell (meant command)) }
{
    if command == "plan" {
        return Some(Command::Plan { description: word });
    }
    if command == "live" {
        return Some(Command::Live { description: word });
    }
    if command != "soak" {
        return None;
    }
    match pairs_in(word.as_bytes()) {
        Some(pairs) => Some(Command::Soak { pairs }),
        None => None,
    }
}

/// The command that three words give.
fn command_of_three<'a>(command: &str, first: &'a str, second: &'a str) -> Option<Command<'a>>
    ensures command { option_map meant result ≡ command_of (command.now ∷ first.now ∷ second.now ∷ []) }
    ensures well { IfSome result (λ command. IsWell (meant command)) }
{
    if command == "run" {
        return Some(Command::Run {
            description: first,
            script: second,
        });
    }
    if command == "header" {
        Some(Command::Header {
            description: first,
            name: second,
        })
    } else {
        None
    }
}

/// The command that four words give.
fn command_of_four<'a>(
    command: &str,
    first: &'a str,
    second: &'a str,
    script: &'a str,
) -> Option<Command<'a>>
    ensures command { option_map meant result ≡ command_of (command.now ∷ first.now ∷ second.now ∷ script.now ∷ []) }
    ensures well { IfSome result (λ command. IsWell (meant command)) }
{
    if command == "check" {
        return Some(Command::Check {
            description: first,
            trace: second,
            script,
        });
    }
    if command == "pair" {
        Some(Command::Pair {
            one: first,
            two: second,
            script,
        })
    } else {
        None
    }
}

/// The command that the words give, if they give one.
pub fn command_in(words: &[String]) -> Option<Command<'_>>
    ensures command { option_map meant result ≡ command_of (map string_bytes words.now) }
    ensures well { IfSome result (λ command. IsWell (meant command)) }
{
    match words {
        [command, word] => command_of_two(command.as_str(), word.as_str()),
        [command, first, second] => {
            command_of_three(command.as_str(), first.as_str(), second.as_str())
        }
        [command, first, second, script] => command_of_four(
            command.as_str(),
            first.as_str(),
            second.as_str(),
            script.as_str(),
        ),
        _ => None,
    }
}
