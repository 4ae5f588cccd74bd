//! Reading stimuli.

ghost use Rattle.std.specs.Prelude.{◌≡◌, [], Some};
ghost use Rattle.bus_semantics.specs.declared.script.Mapping.{Mapping};
ghost use Rattle.bus_semantics.specs.Common.{plan_of, IsSound};
ghost use Rattle.line_fields.specs.Texts.{lines_of};
ghost use Rattle.script_reading.specs.Numbers.{HasFewNumbers};
ghost use Rattle.feed_queue.specs.Reading.{AreFeeds, IfBadLine, IfRead, first_bad};

use crate::feeds::Feeds;
use crate::feeds_read::FeedsRead;
use crate::giving::{give, no_wishes};
use crate::hearing::{NO_FORM, hear};
use crate::progress::Progress;
use bus_semantics::BusPlan;
use line_fields::split_line;
use script_reading::Environment;
use std::alloc::Global;

/// Reads stimuli over a plan. Empty lines and lines that begin with `#` say nothing. Any other is `stop`, behind which no line stands, or the
/// number of a feed, 0 to 3, a space and a line of a script other than `run`. `tick N` gives N wishes. The plan is sound with some
/// mapping, and 32 bits number its elements and mode elements. If the bytes are none, the answer is the number of the first bad
/// line with its least cause: 1, it has none of the forms or stands after `stop`; 2 and 3 as in a script; 4, with it there are
/// more than 100,000 lines or 65,536 wishes. If each line is good and none is `stop`, it is the line after the last, with cause 1.
pub fn read_feeds(alloc: Global, p: &BusPlan, bytes: &[u8]) -> FeedsRead
    requires sound { (m : Mapping) × IsSound (plan_of p.now) m }
    requires few { HasFewNumbers (plan_of p.now) }
    ensures read { IfRead result (λ feeds. AreFeeds (plan_of p.now) bytes.now feeds) }
    ensures bad_line { IfBadLine result (λ line cause. first_bad (plan_of p.now) [] (lines_of bytes.now) ≡ Some (line, cause)) }
{
    match Environment::of(alloc, p) {
        Ok(environment) => read_by(alloc, &environment, bytes),
        Err(_) => FeedsRead::Memory,
    }
}

/// Reads stimuli over what the environment has.
fn read_by(alloc: Global, environment: &Environment, bytes: &[u8]) -> FeedsRead
    ensures read { IfRead result (λ feeds. AreFeeds (plan_of environment.now.plan.now) bytes.now feeds) }
    ensures bad_line { IfBadLine result (λ line cause. first_bad (plan_of environment.now.plan.now) [] (lines_of bytes.now) ≡ Some (line, cause)) }
{
    let Ok(mut wishes) = no_wishes(alloc) else {
        return FeedsRead::Memory;
    };
    let mut progress = Progress::none();
    let mut rest = bytes;
    while !rest.is_empty() {
        let (text, after) = split_line(rest);
        let heard = hear(environment, text);
        let more = match progress.judge(&heard) {
            Ok(more) => more,
            Err(cause) => {
                return FeedsRead::BadLine {
                    line: progress.lines + 1,
                    cause,
                };
            }
        };
        if give(&mut wishes, &heard).is_err() {
            return FeedsRead::Memory;
        }
        progress = more;
        rest = after;
    }
    if progress.stopped {
        FeedsRead::Read(Feeds { wishes })
    } else {
        FeedsRead::BadLine {
            line: progress.lines + 1,
            cause: NO_FORM,
        }
    }
}
