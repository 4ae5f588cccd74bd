//! Lines of traces, read back.

ghost use Rattle.std.specs.Prelude.{◌≤◌, IfOk, length};
ghost use Rattle.bus_semantics.specs.Common.{plan_of, IsSound};
ghost use Rattle.trace_reading.specs.Readable.{IsReadable};

use crate::fault::Fault;
use crate::notation::{HashSign, expanded};
use bus_semantics::{BusPlan, Entry, Version};
use description_stages::{PlannedDescription, plan_description};
use rte_text::{LineBuf, Refused};
use std::alloc::{AllocError, Global};
use trace_reading::{LineRead, read_entry, sound_plans_are_readable};
use trace_text::{header, write_entry};

/// The plan of a description, which rules 1 to 31 accept.
pub(crate) fn plan_of_description(
    alloc: Global,
    description: &[u8],
) -> Result<PlannedDescription, Fault>
    requires { length description.now ≤ 8388608 }
    ensures sound { IfOk result (λ found. IsSound (plan_of found.plan) found.mapping) }
    ensures readable { IfOk result (λ found. IsReadable (plan_of found.plan)) }
{
    sound_plans_are_readable();
    match plan_description(alloc, description) {
        Ok(found) => Ok(found),
        Err(Refused::Rule(_)) => Err(Fault::NoPlan),
        Err(Refused::Memory) => Err(Fault::Memory(AllocError)),
    }
}

/// Appends the entry's line in a trace of the version.
fn push_line(
    shown: &mut Vec<u8>,
    p: &BusPlan,
    version: Version,
    entry: &Entry,
) -> Result<(), AllocError>
    requires { IsReadable (plan_of p.now) }
{
    let mut out = LineBuf::new();
    write_entry(p, entry, version, &mut out);
    shown.extend_from_slice(out.bytes())
}

/// Appends what a line of the version is read as: an entry by its line in version one and then in version two.
fn push_reading(
    shown: &mut Vec<u8>,
    p: &BusPlan,
    version: Version,
    line: &[u8],
) -> Result<(), AllocError>
    requires { IsReadable (plan_of p.now) }
{
    match read_entry(p, version, line) {
        LineRead::Entry(entry) => {
            push_line(shown, p, Version::One, &entry)?;
            push_line(shown, p, Version::Two, &entry)
        }
        LineRead::Run => shown.extend_from_slice(b"a run line begins\n"),
        LineRead::Idle => shown.extend_from_slice(b"a run line closes at rest\n"),
        LineRead::Unsettled => shown.extend_from_slice(b"a run line closes unsettled\n"),
        LineRead::BadLine => shown.extend_from_slice(b"bad line\n"),
    }
}

/// Appends what each line of a text is read as, in a trace of the version.
fn push_readings(
    shown: &mut Vec<u8>,
    p: &BusPlan,
    version: Version,
    text: &[u8],
) -> Result<(), AllocError>
    requires { IsReadable (plan_of p.now) }
{
    for line in text.split_inclusive(|byte| *byte == b'\n') {
        push_reading(shown, p, version, line)?;
    }
    Ok(())
}

/// The version that has this header.
fn version_of(line: &[u8]) -> Option<Version> {
    [Version::One, Version::Two]
        .into_iter()
        .find(|version| header(*version) == line)
}

/// The version that the version is not.
fn other(version: Version) -> Version {
    match version {
        Version::One => Version::Two,
        Version::Two => Version::One,
    }
}

/// Whether the entry has this line in a trace of the version.
fn is_written(p: &BusPlan, version: Version, entry: &Entry, line: &[u8]) -> bool
    requires { IsReadable (plan_of p.now) }
{
    let mut out = LineBuf::new();
    write_entry(p, entry, version, &mut out);
    out.bytes() == line
}

/// Whether an entry that was read from a line is written as this line, and as a line of the other version that is read back so.
fn comes_back(p: &BusPlan, version: Version, entry: &Entry, line: &[u8]) -> bool
    requires { IsReadable (plan_of p.now) }
{
    let mut turned = LineBuf::new();
    write_entry(p, entry, other(version), &mut turned);
    match read_entry(p, other(version), turned.bytes()) {
        LineRead::Entry(again) => {
            is_written(p, version, entry, line) && is_written(p, version, &again, line)
        }
        _ => false,
    }
}

/// Whether a line is read as what has this line in the version.
fn is_read_back(p: &BusPlan, version: Version, line: &[u8]) -> bool
    requires { IsReadable (plan_of p.now) }
{
    match read_entry(p, version, line) {
        LineRead::Entry(entry) => comes_back(p, version, &entry, line),
        LineRead::Run | LineRead::Idle | LineRead::Unsettled => true,
        LineRead::BadLine => false,
    }
}

/// Appends how many of the lines of a trace of the version come back as they are, or the first that does not.
fn push_count(
    alloc: Global,
    shown: &mut Vec<u8>,
    p: &BusPlan,
    version: Version,
    lines: &[&[u8]],
) -> Result<(), AllocError>
    requires { IsReadable (plan_of p.now) }
{
    for line in lines {
        if !is_read_back(p, version, line) {
            shown.extend_from_slice(b"bad line ")?;
            return shown.extend_from_slice(line);
        }
    }
    let count = lines.len().to_string(alloc)?;
    shown.extend_from_slice(count.as_bytes())?;
    shown.extend_from_slice(b" lines come back\n")
}

/// Appends how many lines of a trace come back as they are, or the first that does not.
fn push_back(
    alloc: Global,
    shown: &mut Vec<u8>,
    p: &BusPlan,
    lines: &[&[u8]],
) -> Result<(), AllocError>
    requires { IsReadable (plan_of p.now) }
{
    let [first, rest @ ..] = lines else {
        return shown.extend_from_slice(b"no trace\n");
    };
    match version_of(first) {
        Some(version) => push_count(alloc, shown, p, version, rest),
        None => shown.extend_from_slice(b"no trace\n"),
    }
}

/// What each line of a text is read as in a trace of the version, over the plan of the description.
pub fn read_lines(
    alloc: Global,
    description: &[u8],
    version: Version,
    text: &str,
) -> Result<Vec<u8>, Fault>
    requires { length description.now ≤ 8388608 }
{
    let lines = expanded(alloc, text, HashSign::Number)?;
    let found = plan_of_description(alloc, description)?;
    let mut shown = Vec::new(alloc);
    let pushed = push_readings(&mut shown, &found.plan, version, lines.as_slice());
    drop(found);
    drop(lines);
    pushed?;
    Ok(shown)
}

/// How many lines of a trace come back as they are over the plan of the description, or the first that does not.
pub fn read_back(alloc: Global, description: &[u8], trace: &[u8]) -> Result<Vec<u8>, Fault>
    requires { length description.now ≤ 8388608 }
{
    let lines: Vec<&[u8]> = trace.split_inclusive(|byte| *byte == b'\n').collect(alloc)?;
    let found = plan_of_description(alloc, description)?;
    let mut shown = Vec::new(alloc);
    let pushed = push_back(alloc, &mut shown, &found.plan, lines.as_slice());
    drop(found);
    drop(lines);
    pushed?;
    Ok(shown)
}
