//! The check of a given trace, line by line.

ghost use Rattle.std.specs.Prelude.{◌≡◌, ◌↔◌, ◌++◌, IfOk, []};
ghost use Rattle.bus_semantics.specs.Common.{plan_of, IsSound, Letters, header};
ghost use Rattle.trace_reading.specs.declared.checked.Checked.TheVariants.{Legal};
ghost use Rattle.trace_reading.specs.Verdicts.{IsLegalTrace, IsVerdict};
ghost use Rattle.trace_check.specs.Along.{AreSound};
ghost use Rattle.trace_check.specs.Lines.{Reaches, VerdictOf};

use crate::check::{Check, Judged};
use crate::lines::{first_line, version_of};
use crate::quick::is_legal_at_once;
use crate::rules::Rules;
use bus_semantics::{BusPlan, Mapping, Script, Version};
use rte_text::{LineBuf, Memory};
use std::alloc::Global;
use task_generator::generate;
use trace_reading::{
    Checked, Reader, items_have_one_line, sound_plans_are_readable, traces_have_one_verdict,
};

/// What the end of a trace comes to, which is this line.
fn end(rules: &Rules<'_, '_>, check: &Check<'_>, line: u64) -> Checked
    ensures { (v : Version) (trace : Letters) → Reaches v rules.now trace check.now [] line → VerdictOf rules.now trace result }
{
    if check.is_whole(rules) {
        Checked::Legal
    } else {
        Checked::Illegal { line, clause: 16 }
    }
}

/// Checks the lines of a trace behind its header.
fn check_lines<'p>(
    alloc: Global,
    rules: &Rules<'_, 'p>,
    reader: &Reader<'p>,
    version: Version,
    text: &[u8],
) -> Result<Checked, Memory>
    requires sound { AreSound rules.now }
    requires of_plan { reader.now.plan.now ≡ rules.now.plan.now }
    ensures { IfOk result (λ checked. (trace : Letters) → trace ≡ header version ++ text.now → VerdictOf rules.now trace checked) }
{
    items_have_one_line();
    let mut check = Check::new(alloc, rules)?;
    let mut left = text;
    let mut line: u64 = 2;
    let mut out = LineBuf::new();
    'lines: while !left.is_empty() {
        let (first, more) = first_line(left);
        let read = reader.read_expecting(version, first, None, &mut out);
        match check.judge(alloc, rules, &read)? {
            Judged::Accepted => {
                left = more;
                line += 1;
            }
            Judged::Bad => return Ok(Checked::BadLine(line)),
            Judged::Refused(clause) => return Ok(Checked::Illegal { line, clause }),
        }
    }
    Ok(end(rules, &check, line))
}

/// Checks a trace behind its header.
fn check_by<'p>(
    alloc: Global,
    rules: &Rules<'_, 'p>,
    reader: &Reader<'p>,
    text: &[u8],
) -> Result<Checked, Memory>
    requires sound { AreSound rules.now }
    requires of_plan { reader.now.plan.now ≡ rules.now.plan.now }
    ensures { IfOk result (λ checked. (trace : Letters) → trace ≡ header rules.now.version ++ text.now → VerdictOf rules.now trace checked) }
{
    if is_legal_at_once(alloc, rules, reader, text)? {
        return Ok(Checked::Legal);
    }
    check_lines(alloc, rules, reader, rules.version, text)
}

/// Checks a trace behind its header, by a reader that is made for it.
fn check_against(alloc: Global, rules: &Rules<'_, '_>, text: &[u8]) -> Result<Checked, Memory>
    requires sound { AreSound rules.now }
    ensures { IfOk result (λ checked. (trace : Letters) → trace ≡ header rules.now.version ++ text.now → VerdictOf rules.now trace checked) }
{
    sound_plans_are_readable();
    let reader = Reader::new(alloc, rules.plan)?;
    check_by(alloc, rules, &reader, text)
}

/// Checks a trace behind its header, by the bodies that are made for it.
fn check_begun(
    alloc: Global,
    p: &BusPlan,
    m: &Mapping,
    script: &Script,
    version: Version,
    text: &[u8],
) -> Result<Checked, Memory>
    requires sound { IsSound (plan_of p.now) m.now }
    ensures { IfOk result (λ checked. (trace : Letters) → trace ≡ header version ++ text.now →
        IsVerdict (plan_of p.now) m.now script.now.lines trace checked) }
{
    let tasks = generate(alloc, p, m)?;
    check_against(
        alloc,
        &Rules {
            plan: p,
            mapping: m,
            script,
            version,
            tasks: &tasks,
        },
        text,
    )
}

/// Checks the bytes of a trace.
fn check_bytes(
    alloc: Global,
    p: &BusPlan,
    m: &Mapping,
    script: &Script,
    trace: &[u8],
) -> Result<Checked, Memory>
    requires sound { IsSound (plan_of p.now) m.now }
    ensures { IfOk result (IsVerdict (plan_of p.now) m.now script.now.lines trace.now) }
{
    if trace.is_empty() {
        return Ok(Checked::Illegal {
            line: 1,
            clause: 16,
        });
    }
    let (first, text) = first_line(trace);
    match version_of(first) {
        Some(version) => check_begun(alloc, p, m, script, version, text),
        None => Ok(Checked::BadLine(1)),
    }
}

/// Checks a trace against a sound bus and a script: whether it is the text of a whole legal run of the script, and if not, which line is
/// the first that does not go on so, and why. An error says that there was no memory. A line that is not that of any item is bad;
/// else the reason is the least clause that the line breaks. By `traces_have_one_verdict` no other answer is right. When memory
/// runs out is not said.
pub fn check_trace(
    alloc: Global,
    p: &BusPlan,
    m: &Mapping,
    script: &Script,
    trace: &[u8],
) -> Result<Checked, Memory>
    requires sound { IsSound (plan_of p.now) m.now }
    ensures verdict { IfOk result (IsVerdict (plan_of p.now) m.now script.now.lines trace.now) }
    ensures legal { IfOk result (λ checked. checked ≡ Legal ↔ IsLegalTrace (plan_of p.now) m.now script.now.lines trace.now) }
{
    traces_have_one_verdict();
    check_bytes(alloc, p, m, script, trace)
}
