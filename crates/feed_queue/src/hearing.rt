//! One line of stimuli.

ghost use Rattle.std.specs.Prelude.{◌≡◌, ◌+◌, ◌≤◌};
ghost use Rattle.bus_semantics.specs.Plan.{plan_of};
ghost use Rattle.script_reading.specs.Pieces.{saying_of};
ghost use Rattle.feed_queue.specs.Heard.{heard_as};
ghost use Rattle.feed_queue.specs.Stimuli.{feed_line, given_by, stimulus};

use crate::heard::{Gift, Heard};
use bus_semantics::Line;
use script_reading::{Environment, Grammar, Said};

/// The cause of a line that has none of the forms.
pub(crate) const NO_FORM: u8 = 1;

/// What a line of a script gives to a feed.
fn given_by(feed: u8, said: Said) -> Heard
    ensures { heard_as result ≡ given_by feed (saying_of said) }
{
    match said {
        Said::Line(Line::Tick(count)) => Heard::Feed(feed, Gift::Ticks(count)),
        Said::Line(Line::Call(wish)) => Heard::Feed(feed, Gift::Call(wish)),
        Said::Line(Line::Run) | Said::Nothing => Heard::Bad(NO_FORM),
        Said::Bad(cause) => Heard::Bad(cause),
    }
}

/// What a line says that begins with the number of a feed.
fn feed_line(environment: &Environment, text: &[u8]) -> Heard
    ensures { heard_as result ≡ feed_line (plan_of environment.now.plan.now) text.now }
{
    match text {
        [digit, b' ', line @ ..] if b'0' <= *digit && *digit <= b'3' => {
            given_by(*digit - b'0', environment.read_line(line))
        }
        _ => Heard::Bad(NO_FORM),
    }
}

/// What a line of stimuli says.
pub(crate) fn hear(environment: &Environment, text: &[u8]) -> Heard
    ensures { heard_as result ≡ stimulus (plan_of environment.now.plan.now) text.now }
{
    match text {
        [] | [b'#', ..] => Heard::Nothing,
        _ if text == b"stop".as_slice() => Heard::Stop,
        _ => feed_line(environment, text),
    }
}
