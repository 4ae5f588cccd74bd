//! The check of a trace that is legal: each line is compared with what comes next. Where one differs it gives up.

ghost use Rattle.std.specs.Prelude.{◌≡◌, ◌++◌, IfOk, IfSome, true};
ghost use Rattle.bus_semantics.specs.Common.{Session, Letters, header};
ghost use Rattle.trace_reading.specs.declared.checked.Checked.TheVariants.{Legal};
ghost use Rattle.trace_check.specs.Along.{AreSound};
ghost use Rattle.trace_check.specs.Checking.{CanJudge, Stands};
ghost use Rattle.trace_check.specs.Lines.{VerdictOf};
ghost use Rattle.trace_check.specs.Taking.{Goes, TakesLine};

use crate::check::{Check, Gone, Judged};
use crate::lines::first_line;
use crate::rules::Rules;
use crate::seen::Actors;
use rte_text::Memory;
use std::alloc::Global;
use trace_reading::{Reader, items_have_one_line};

/// Goes on by what the actor of the first line asks for, if it was seen.
fn go_on<'t, 'p>(
    alloc: Global,
    rules: &Rules<'_, 'p>,
    check: &mut Check<'p>,
    seen: &mut Actors<'t>,
    left: &'t [u8],
) -> Result<Gone<'t>, Memory>
    requires sound { AreSound rules.now }
    requires can { CanJudge rules.now check.old }
    ensures { IfOk result (λ gone. (s : Session) → Stands rules.now s check.old → Goes rules.now s left.now check.new gone) }
{
    let Some((actor, rest)) = seen.actor_in(left) else {
        return Ok(Gone::Nowhere);
    };
    let start = seen.start_in(rules.plan, rest);
    check.go_on(alloc, rules, actor, start, left)
}

/// Reads the first line, and answers what stands behind it, if it may come next.
fn read_line<'t, 'p>(
    alloc: Global,
    rules: &Rules<'_, 'p>,
    reader: &Reader<'_>,
    check: &mut Check<'p>,
    seen: &mut Actors<'t>,
    left: &'t [u8],
) -> Result<Option<&'t [u8]>, Memory>
    requires sound { AreSound rules.now }
    requires of_plan { reader.now.plan.now ≡ rules.now.plan.now }
    requires can { CanJudge rules.now check.old }
    ensures { IfOk result (λ behind. (s : Session) → Stands rules.now s check.old → IfSome behind (λ more. TakesLine rules.now s left.now more.now check.new)) }
{
    let (first, more) = first_line(left);
    let read = reader.read_expecting(rules.version, first, None, &mut seen.out);
    match check.judge(alloc, rules, &read)? {
        Judged::Accepted => {
            seen.note(first, &read);
            Ok(Some(more))
        }
        Judged::Bad => Ok(None),
        Judged::Refused(_) => Ok(None),
    }
}

/// Takes the first line, if it is no tick of the script, and answers what stands behind it, if it may come next.
fn take_other<'t, 'p>(
    alloc: Global,
    rules: &Rules<'_, 'p>,
    reader: &Reader<'_>,
    check: &mut Check<'p>,
    seen: &mut Actors<'t>,
    left: &'t [u8],
) -> Result<Option<&'t [u8]>, Memory>
    requires sound { AreSound rules.now }
    requires of_plan { reader.now.plan.now ≡ rules.now.plan.now }
    requires can { CanJudge rules.now check.old }
    ensures { IfOk result (λ behind. (s : Session) → Stands rules.now s check.old → IfSome behind (λ more. TakesLine rules.now s left.now more.now check.new)) }
{
    match go_on(alloc, rules, check, seen, left)? {
        Gone::To(more) => Ok(Some(more)),
        Gone::Nowhere => read_line(alloc, rules, reader, check, seen, left),
        Gone::Astray => Ok(None),
    }
}

/// Takes the first line, and answers what stands behind it, if it may come next. A tick is tried first: it is made without its entry, and
/// its line is always the same.
fn take_line<'t, 'p>(
    alloc: Global,
    rules: &Rules<'_, 'p>,
    reader: &Reader<'_>,
    check: &mut Check<'p>,
    seen: &mut Actors<'t>,
    left: &'t [u8],
) -> Result<Option<&'t [u8]>, Memory>
    requires sound { AreSound rules.now }
    requires of_plan { reader.now.plan.now ≡ rules.now.plan.now }
    requires can { CanJudge rules.now check.old }
    ensures { IfOk result (λ behind. (s : Session) → Stands rules.now s check.old → IfSome behind (λ more. TakesLine rules.now s left.now more.now check.new)) }
{
    match check.tick(alloc, rules, left)? {
        Gone::To(more) => Ok(Some(more)),
        Gone::Nowhere => take_other(alloc, rules, reader, check, seen, left),
        Gone::Astray => Ok(None),
    }
}

/// Whether each line behind the header came next, and the trace is whole then. If not, nothing is known of it. An error says that there was no
/// memory.
pub(crate) fn is_legal_at_once<'p>(
    alloc: Global,
    rules: &Rules<'_, 'p>,
    reader: &Reader<'p>,
    text: &[u8],
) -> Result<bool, Memory>
    requires sound { AreSound rules.now }
    requires of_plan { reader.now.plan.now ≡ rules.now.plan.now }
    ensures { IfOk result (λ legal. (trace : Letters) → legal ≡ true → trace ≡ header rules.now.version ++ text.now → VerdictOf rules.now trace Legal) }
{
    items_have_one_line();
    let mut check = Check::new(alloc, rules)?;
    let mut seen = Actors::new(alloc, rules.plan)?;
    let mut left = text;
    'lines: while !left.is_empty() {
        match take_line(alloc, rules, reader, &mut check, &mut seen, left)? {
            Some(more) => left = more,
            None => return Ok(false),
        }
    }
    Ok(check.is_whole(rules))
}
